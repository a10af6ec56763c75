//! The printed form of a whole scenario.
#![tactic(auto, using(crate::proofs::Words::through, gv_values::proofs::Fronts::fronts))]

ghost use Rattle.std.specs.Prelude.{◌≡◌, ◌++◌, List, ℕ, OnOk, OnErr};
ghost use Rattle.scenario_grammar.specs.Blocks.{declaration_lines, function_lines, profile_lines};
ghost use Rattle.scenario_grammar.specs.Printed.{printed};
ghost use Rattle.scenario_grammar.specs.Spells.{Spells};
ghost use Rattle.scenario_grammar.specs.Token.{each};
ghost use Rattle.scenario_tree.specs.declared.tree.Scenario.{Scenario};
ghost use Rattle.scenario_print.specs.TreeLines.{Laid, WroteScenario};
ghost use Rattle.scenario_print.specs.Texts.{HasText};

use crate::block::push_block;
use crate::tree_line::{
    push_declaration_line, push_fixed_line, push_function_line, push_profile_line,
};
use scenario_grammar::Keyword;
use scenario_tree::{Declaration, Function, Scenario};
use std::alloc::AllocError;

/// A tree that a text spells has a text.
pub fn spelt_trees_have_text()
    ensures { (s : Scenario) (bytes : List ℕ) → Spells s bytes → HasText s }
{}

/// Appends the printed form of a scenario that has a text: its one text with two blanks for each
/// open block and no line that carries nothing, after the line of its profile where that is not 1.
/// Where there is no memory for it, nothing is appended.
pub fn print(s: &Scenario, out: &mut Vec<u8>) -> Result<(), AllocError>
    ensures ok { OnOk result (HasText s.now → out.new.items ≡ out.old.items ++ printed s.now) }
    ensures err { OnErr result (out.new.items ≡ out.old.items) }
{
    let before = out.len();
    let pushed = push_scenario(s, out);
    if pushed.is_err() {
        out.truncate(before);
    }
    pushed
}

fn push_scenario(s: &Scenario, out: &mut Vec<u8>) -> Result<(), AllocError>
    ensures { WroteScenario out.old.items out.new.items result s.now }
{
    push_profile(s.profile, out)?;
    push_declarations(s.objects.as_slice(), out)?;
    push_functions(s.functions.as_slice(), out)
}

/// The line of the profile, which a scenario of profile 1 does not have.
fn push_profile(profile: u8, out: &mut Vec<u8>) -> Result<(), AllocError>
    ensures { Laid out.old.items out.new.items result 0 0 (profile_lines profile) }
{
    if profile == 1 {
        return Ok(());
    }
    push_profile_line(profile, out)
}

fn push_declarations(declarations: &[Declaration], out: &mut Vec<u8>) -> Result<(), AllocError>
    ensures { Laid out.old.items out.new.items result 0 0 (each declaration_lines declarations.now) }
{
    for declaration in declarations {
        push_declaration_line(declaration, out)?;
    }
    Ok(())
}

fn push_functions(functions: &[Function], out: &mut Vec<u8>) -> Result<(), AllocError>
    ensures { Laid out.old.items out.new.items result 0 0 (each function_lines functions.now) }
{
    for function in functions {
        push_function(function, out)?;
    }
    Ok(())
}

fn push_function(function: &Function, out: &mut Vec<u8>) -> Result<(), AllocError>
    ensures { Laid out.old.items out.new.items result 0 0 (function_lines function.now) }
{
    push_function_line(function, out)?;
    push_block(function.body.as_slice(), 1, out)?;
    push_fixed_line(0, Keyword::End, out)
}
