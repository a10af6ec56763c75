//! A scenario, part by part, and the first place where it breaks a rule.
ghost use Rattle.std.specs.Prelude.{◌≡◌, ◌++◌, if◌then◌else◌, Some, None, IfOk};
ghost use Rattle.std.specs.List.{flat_map};
ghost use Rattle.scenario_tree.specs.declared.tree.Scenario.{Scenario as AnyScenario};
ghost use Rattle.scenario_rules.specs.declared.mention.Mention.{Mention as AnyMention};
ghost use Rattle.scenario_rules.specs.Declarations.{declarations, different, given_by, given_names, named_functions, named_objects, parameters, repeated};
ghost use Rattle.scenario_rules.specs.Mention.{mentions};
ghost use Rattle.scenario_rules.specs.Rules.{first_after, function_refusals, is_wrong_head, most_functions, most_objects, past, place_of, refused, refused_names, word_refusals};
ghost use Rattle.scenario_rules.specs.declared.limits.TheConstants.{MOST_LOCAL_NAMES};
ghost use Rattle.scenario_tree.specs.declared.limits.TheConstants.{MOST_PARAMETERS};
ghost use Rattle.name_table.specs.Tables.{Holds};

use crate::blocks::function_mentions;
use crate::different::sort_names;
use crate::lists::{add_all_given, add_functions, add_names, add_objects, declarations};
use crate::places::{noted, noted_names, noted_past, noted_words};
use name_table::Names;
use scenario_grammar::{Place, RuleReason};
use scenario_lang::is_main;
use scenario_rules::{Declared, MOST_LOCAL_NAMES, Mention};
use scenario_tree::{
    Function, Items, MOST_DECLARED, MOST_FUNCTIONS, MOST_OBJECTS, MOST_PARAMETERS, Scenario,
};
use std::alloc::{AllocError, Global};

fn is_wrong_head(function: &Function) -> bool
    ensures { result ≡ is_wrong_head function.now }
{
    let count = function.parameters.len();
    if function.is_raw {
        count != 1
    } else {
        is_main(function) && count != 0
    }
}

fn head_reason(function: &Function) -> Option<RuleReason>
    ensures { result ≡ (if is_wrong_head function.now then Some RuleReason.WrongCount else None) }
{
    if is_wrong_head(function) {
        Some(RuleReason::WrongCount)
    } else {
        None
    }
}

/// The parameters of a function and its head.
fn judge_head(
    alloc: Global,
    first: Option<Place>,
    function: &Function,
) -> Result<Option<Place>, AllocError>
    ensures { IfOk result (λ p. p ≡ first_after first (refused_names RuleReason.DeclaredTwice (repeated (parameters function.now))
        ++ refused RuleReason.WrongCount function.now.line (is_wrong_head function.now) ++ refused_names RuleReason.TooMany (past MOST_PARAMETERS (parameters function.now)))) }
{
    let mut parameters = Items::new(alloc);
    add_names(
        &mut parameters,
        function.line,
        function.parameters.as_slice(),
    )?;
    let sorted = sort_names(alloc, parameters.as_slice())?;
    let repeated = noted_names(first, RuleReason::DeclaredTwice, sorted.repeated.as_slice());
    let head = noted(repeated, function.line, head_reason(function));
    Ok(noted_past(head, MOST_PARAMETERS, parameters.as_slice()))
}

/// The words of a function, which are these, and its local names.
fn judge_body(
    alloc: Global,
    first: Option<Place>,
    names: &Names<Declared>,
    function: &Function,
    said: &[Mention],
) -> Result<Option<Place>, AllocError>
    requires { said.now ≡ mentions function.now }
    ensures { (s : AnyScenario) → Holds names.now (declarations s) → IfOk result (λ p. p ≡ first_after first (refused_names RuleReason.TooMany (past MOST_LOCAL_NAMES (different (given_names function.now)))
        ++ flat_map (word_refusals s function.now) (mentions function.now))) }
{
    let mut given = Items::new(alloc);
    add_all_given(&mut given, said)?;
    let locals = sort_names(alloc, given.as_slice())?;
    let past = noted_past(first, MOST_LOCAL_NAMES, locals.different.as_slice());
    Ok(noted_words(past, names, &locals.names, function.is_raw, said))
}

fn judge_function(
    alloc: Global,
    first: Option<Place>,
    names: &Names<Declared>,
    function: &Function,
) -> Result<Option<Place>, AllocError>
    ensures { (s : AnyScenario) → Holds names.now (declarations s) → IfOk result (λ p. p ≡ first_after first (function_refusals s function.now)) }
{
    let said = function_mentions(alloc, function)?;
    let head = judge_head(alloc, first, function)?;
    Ok(judge_body(alloc, head, names, function, said.as_slice())?)
}

fn judge_functions(
    alloc: Global,
    first: Option<Place>,
    names: &Names<Declared>,
    functions: &[Function],
) -> Result<Option<Place>, AllocError>
    ensures { (s : AnyScenario) → Holds names.now (declarations s) → IfOk result (λ p. p ≡ first_after first (flat_map (function_refusals s) functions.now)) }
{
    let mut least = first;
    for function in functions {
        least = judge_function(alloc, least, names, function)?;
    }
    Ok(least)
}

/// The most objects of a scenario of this profile.
fn most_objects(profile: u8) -> usize
    ensures { result ≡ most_objects profile }
{
    if profile < 3 {
        MOST_OBJECTS
    } else {
        MOST_DECLARED
    }
}

/// The most functions of a scenario of this profile.
fn most_functions(profile: u8) -> usize
    ensures { result ≡ most_functions profile }
{
    if profile < 3 {
        MOST_FUNCTIONS
    } else {
        MOST_DECLARED
    }
}

/// The declarations of objects and functions.
fn judge_declarations(alloc: Global, scenario: &Scenario) -> Result<Option<Place>, AllocError>
    ensures { IfOk result (λ p. p ≡ first_after None (refused_names RuleReason.TooMany (past (most_objects scenario.now.profile) (named_objects scenario.now))
        ++ refused_names RuleReason.TooMany (past (most_functions scenario.now.profile) (named_functions scenario.now))
        ++ refused_names RuleReason.DeclaredTwice (repeated (named_objects scenario.now ++ named_functions scenario.now)))) }
{
    let mut names = Items::new(alloc);
    let mut functions = Items::new(alloc);
    add_objects(&mut names, scenario.objects.as_slice())?;
    add_functions(&mut functions, scenario.functions.as_slice())?;
    let past_objects = noted_past(None, most_objects(scenario.profile), names.as_slice());
    let past_functions = noted_past(
        past_objects,
        most_functions(scenario.profile),
        functions.as_slice(),
    );
    names.append(functions)?;
    let sorted = sort_names(alloc, names.as_slice())?;
    Ok(noted_names(
        past_functions,
        RuleReason::DeclaredTwice,
        sorted.repeated.as_slice(),
    ))
}

/// Where the scenario is refused, if it is.
pub(crate) fn place(alloc: Global, scenario: &Scenario) -> Result<Option<Place>, AllocError>
    ensures { IfOk result (λ p. p ≡ place_of scenario.now) }
{
    let names = declarations(alloc, scenario)?;
    let first = judge_declarations(alloc, scenario)?;
    Ok(judge_functions(alloc, first, &names, scenario.functions.as_slice())?)
}
