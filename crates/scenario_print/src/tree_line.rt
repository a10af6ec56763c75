//! Lines, with their leading blanks and their end.
#![tactic(auto, using(crate::proofs::Words::through))]

ghost use Rattle.std.specs.Prelude.{◌*◌, ◌∷◌, [], replicate};
ghost use Rattle.scenario_grammar.specs.declared.phrase.Phrase.TheVariants as phrase;
ghost use Rattle.scenario_print.specs.TreeLines.{WroteFixedLine, WroteTreeLine};
ghost use Rattle.scenario_print.specs.Written.{Appended};

use crate::command::push_command;
use crate::giving::push_given;
use crate::head::{push_except, push_head, push_object, push_timeout};
use crate::start::{start_expression, start_number};
use crate::word::push_first;
use gv_values::{Class, Name};
use scenario_grammar::Keyword;
use scenario_tree::{Command, Declaration, Expression, Function, Giving};
use std::alloc::AllocError;

/// Two blanks for each open block.
fn push_indent(level: usize, out: &mut Vec<u8>) -> Result<(), AllocError>
    ensures { Appended out.old.items out.new.items result (replicate (2 * level) 32) }
{
    for _ in 0..level {
        push_two_blanks(out)?;
    }
    Ok(())
}

fn push_two_blanks(out: &mut Vec<u8>) -> Result<(), AllocError>
    ensures { Appended out.old.items out.new.items result (32 ∷ 32 ∷ []) }
{
    out.extend_from_slice(b"  ")
}

fn push_line_end(out: &mut Vec<u8>) -> Result<(), AllocError>
    ensures { Appended out.old.items out.new.items result (10 ∷ []) }
{
    out.extend_from_slice(b"\n")
}

/// The line that names the profile.
pub(crate) fn push_profile_line(profile: u8, out: &mut Vec<u8>) -> Result<(), AllocError>
    ensures { WroteTreeLine out.old.items out.new.items result 0 (phrase.Profile profile) }
{
    start_number(Keyword::Profile, u32::from(profile), out)?;
    push_line_end(out)
}

/// The line of a declaration.
pub(crate) fn push_declaration_line(
    declaration: &Declaration,
    out: &mut Vec<u8>,
) -> Result<(), AllocError>
    ensures { WroteTreeLine out.old.items out.new.items result 0 (phrase.Declaration declaration.now.name declaration.now.object) }
{
    push_object(declaration.object, &declaration.name, out)?;
    push_line_end(out)
}

/// The line that begins a function.
pub(crate) fn push_function_line(function: &Function, out: &mut Vec<u8>) -> Result<(), AllocError>
    ensures { WroteTreeLine out.old.items out.new.items result 0 (phrase.Function function.now.is_raw function.now.name function.now.parameters) }
{
    push_head(
        function.is_raw,
        &function.name,
        function.parameters.as_slice(),
        out,
    )?;
    push_line_end(out)
}

/// The line of a statement that gives no value.
pub(crate) fn push_command_line(
    level: usize,
    command: &Command,
    out: &mut Vec<u8>,
) -> Result<(), AllocError>
    ensures { WroteTreeLine out.old.items out.new.items result level (phrase.Command command.now) }
{
    push_indent(level, out)?;
    push_command(command, out)?;
    push_line_end(out)
}

/// The line of a statement that gives a value.
pub(crate) fn push_giving_line(
    level: usize,
    target: &Option<Name>,
    giving: &Giving,
    out: &mut Vec<u8>,
) -> Result<(), AllocError>
    ensures { WroteTreeLine out.old.items out.new.items result level (phrase.Giving target.now giving.now) }
{
    push_indent(level, out)?;
    push_given(target, giving, out)?;
    push_line_end(out)
}

/// The line that opens an `if`.
pub(crate) fn push_if_line(
    level: usize,
    e: &Expression,
    out: &mut Vec<u8>,
) -> Result<(), AllocError>
    ensures { WroteTreeLine out.old.items out.new.items result level (phrase.If e.now) }
{
    push_indent(level, out)?;
    start_expression(Keyword::If, e, out)?;
    push_line_end(out)
}

/// The line that opens a `while`.
pub(crate) fn push_while_line(
    level: usize,
    e: &Expression,
    out: &mut Vec<u8>,
) -> Result<(), AllocError>
    ensures { WroteTreeLine out.old.items out.new.items result level (phrase.While e.now) }
{
    push_indent(level, out)?;
    start_expression(Keyword::While, e, out)?;
    push_line_end(out)
}

/// A line of one fixed word.
pub(crate) fn push_fixed_line(
    level: usize,
    word: Keyword,
    out: &mut Vec<u8>,
) -> Result<(), AllocError>
    ensures { WroteFixedLine out.old.items out.new.items result level word }
{
    push_indent(level, out)?;
    push_first(word, out)?;
    push_line_end(out)
}

/// The line of an except.
pub(crate) fn push_except_line(
    level: usize,
    class: Class,
    n: &Option<Name>,
    out: &mut Vec<u8>,
) -> Result<(), AllocError>
    ensures { WroteTreeLine out.old.items out.new.items result level (phrase.Except class n.now) }
{
    push_indent(level, out)?;
    push_except(class, n, out)?;
    push_line_end(out)
}

/// The line that opens a timeout block.
pub(crate) fn push_timeout_line(
    level: usize,
    after: Option<u32>,
    is_silent: bool,
    out: &mut Vec<u8>,
) -> Result<(), AllocError>
    ensures { WroteTreeLine out.old.items out.new.items result level (phrase.Timeout after is_silent) }
{
    push_indent(level, out)?;
    push_timeout(after, is_silent, out)?;
    push_line_end(out)
}
