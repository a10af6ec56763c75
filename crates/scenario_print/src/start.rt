//! The first words of a line, in the forms that several statements have.
#![tactic(auto, using(crate::proofs::Words::through))]

ghost use Rattle.std.specs.Prelude.{◌≡◌, ℕ};
ghost use Rattle.gv_values.specs.Fronts.{BeginsWith};
ghost use Rattle.scenario_grammar.specs.Expressions.{expression};
ghost use Rattle.scenario_grammar.specs.Phrase.{timed_tokens, wait_tokens, with_fault};
ghost use Rattle.scenario_grammar.specs.Token.{◌⊕◌, name};
ghost use Rattle.scenario_grammar.specs.Token.{number as in_range};
ghost use Rattle.scenario_print.specs.Written.{Started};

use crate::expression::push_expression;
use crate::part::{push_marked, push_timed, push_wait};
use crate::word::{push_first, push_name, push_number};
use gv_values::Name;
use scenario_grammar::Keyword;
use scenario_tree::{Expression, Timed, Wait};
use std::alloc::AllocError;

/// A first word, and a name.
pub(crate) fn start_name(word: Keyword, n: &Name, out: &mut Vec<u8>) -> Result<(), AllocError>
    ensures { Started out.old.items out.new.items result word (name n.now) }
{
    push_first(word, out)?;
    push_name(n, out)
}

/// A first word and a number, which is to be from least to greatest.
pub(crate) fn start_number(word: Keyword, number: u32, out: &mut Vec<u8>) -> Result<(), AllocError>
    ensures words { (least greatest : ℕ) → Started out.old.items out.new.items result word (in_range least greatest number) }
    ensures front { BeginsWith out.new.items out.old.items }
{
    push_first(word, out)?;
    push_number(u64::from(number), out)
}

/// A first word, and an expression.
pub(crate) fn start_expression(
    word: Keyword,
    e: &Expression,
    out: &mut Vec<u8>,
) -> Result<(), AllocError>
    ensures { Started out.old.items out.new.items result word (expression e.now) }
{
    push_first(word, out)?;
    push_expression(e, out)
}

/// A first word, and two expressions.
pub(crate) fn start_expressions(
    word: Keyword,
    e: &Expression,
    f: &Expression,
    out: &mut Vec<u8>,
) -> Result<(), AllocError>
    ensures { Started out.old.items out.new.items result word (expression e.now ⊕ expression f.now) }
{
    start_expression(word, e, out)?;
    push_expression(f, out)
}

/// A first word, a name, and an expression.
pub(crate) fn start_name_expression(
    word: Keyword,
    n: &Name,
    e: &Expression,
    out: &mut Vec<u8>,
) -> Result<(), AllocError>
    ensures { Started out.old.items out.new.items result word (name n.now ⊕ expression e.now) }
{
    start_name(word, n, out)?;
    push_expression(e, out)
}

/// A first word, a name, and how long is waited.
pub(crate) fn start_name_wait(
    word: Keyword,
    n: &Name,
    wait: Wait,
    out: &mut Vec<u8>,
) -> Result<(), AllocError>
    ensures { Started out.old.items out.new.items result word (name n.now ⊕ wait_tokens wait) }
{
    start_name(word, n, out)?;
    push_wait(wait, out)
}

/// A first word, a name, and at most how long is waited.
pub(crate) fn start_name_timed(
    word: Keyword,
    n: &Name,
    time: Timed,
    out: &mut Vec<u8>,
) -> Result<(), AllocError>
    ensures { Started out.old.items out.new.items result word (name n.now ⊕ timed_tokens time) }
{
    start_name(word, n, out)?;
    push_timed(time, out)
}

/// A kill of what the expression names, with a fault or without.
pub(crate) fn start_kill(
    word: Keyword,
    e: &Expression,
    fault: &Option<Expression>,
    wait: Wait,
    out: &mut Vec<u8>,
) -> Result<(), AllocError>
    ensures { Started out.old.items out.new.items result word (expression e.now ⊕ with_fault fault.now ⊕ wait_tokens wait) }
{
    start_expression(word, e, out)?;
    push_marked(Keyword::With, fault, out)?;
    push_wait(wait, out)
}
