//! Statements and blocks, indented.
#![tactic(auto, using(crate::proofs::Words::through))]

ghost use Rattle.scenario_print.specs.TreeLines.{Deeper, WroteBlock, WroteExcepts, WroteStatement};

use crate::tree_line::{
    push_command_line, push_except_line, push_fixed_line, push_giving_line, push_if_line,
    push_timeout_line, push_while_line,
};
use scenario_grammar::Keyword;
use scenario_tree::{Action, Except, Statement};
use std::alloc::AllocError;

/// The level inside a block on this level. A tree that has a text has at most `MOST_LEVELS`.
fn deeper(level: usize) -> usize
    ensures { Deeper level result }
{
    level.saturating_add(1)
}

/// The lines of a block on this level.
#[cycle(statements)]
pub(crate) fn push_block(
    statements: &[Statement],
    level: usize,
    out: &mut Vec<u8>,
) -> Result<(), AllocError>
    ensures { WroteBlock out.old.items out.new.items result level statements.now }
{
    for statement in statements {
        push_statement(statement, level, out)?;
    }
    Ok(())
}

#[cycle(statements)]
fn push_statement(statement: &Statement, level: usize, out: &mut Vec<u8>) -> Result<(), AllocError>
    ensures { WroteStatement out.old.items out.new.items result level statement.now }
{
    let inside = deeper(level);
    match &statement.action {
        Action::Command(command) => push_command_line(level, command, out),
        Action::Giving(target, giving) => push_giving_line(level, target, giving, out),
        Action::If(e, then_part, else_part) => {
            push_if_line(level, e, out)?;
            push_block(then_part.as_slice(), inside, out)?;
            match else_part {
                None => push_fixed_line(level, Keyword::End, out),
                Some(body) => {
                    push_fixed_line(level, Keyword::Else, out)?;
                    push_block(body.as_slice(), inside, out)?;
                    push_fixed_line(level, Keyword::End, out)
                }
            }
        }
        Action::While(e, body) => {
            push_while_line(level, e, out)?;
            push_block(body.as_slice(), inside, out)?;
            push_fixed_line(level, Keyword::End, out)
        }
        Action::Try(body, excepts, finally) => {
            push_fixed_line(level, Keyword::Try, out)?;
            push_block(body.as_slice(), inside, out)?;
            push_excepts(excepts.as_slice(), level, out)?;
            match finally {
                None => push_fixed_line(level, Keyword::End, out),
                Some(body) => {
                    push_fixed_line(level, Keyword::Finally, out)?;
                    push_block(body.as_slice(), inside, out)?;
                    push_fixed_line(level, Keyword::End, out)
                }
            }
        }
        Action::Timeout(after, is_silent, body) => {
            push_timeout_line(level, *after, *is_silent, out)?;
            push_block(body.as_slice(), inside, out)?;
            push_fixed_line(level, Keyword::End, out)
        }
    }
}

#[cycle(statements)]
fn push_excepts(excepts: &[Except], level: usize, out: &mut Vec<u8>) -> Result<(), AllocError>
    ensures { WroteExcepts out.old.items out.new.items result level excepts.now }
{
    for except in excepts {
        push_except_line(level, except.class, &except.name, out)?;
        push_block(except.body.as_slice(), deeper(level), out)?;
    }
    Ok(())
}
