//! Statements that give no value.
#![tactic(auto, using(crate::proofs::Words::through))]

ghost use Rattle.std.specs.Prelude.{◌≡◌};
ghost use Rattle.scenario_grammar.specs.Phrase.{command_tokens};
ghost use Rattle.scenario_print.specs.Written.{WroteLine};

use crate::part::{push_flag, push_marked, push_timed, push_wait};
use crate::start::{
    start_expression, start_expressions, start_kill, start_name, start_name_expression,
    start_name_timed, start_number,
};
use scenario_grammar::Keyword;
use scenario_tree::Command;
use std::alloc::AllocError;

/// The words of a statement that gives no value.
pub(crate) fn push_command(command: &Command, out: &mut Vec<u8>) -> Result<(), AllocError>
    ensures { WroteLine out.old.items out.new.items result (command_tokens command.now) }
{
    match command {
        Command::Print(e) => start_expression(Keyword::Print, e, out),
        Command::Let(n, e) => start_name_expression(Keyword::Let, n, e, out),
        Command::Return(e) => start_expression(Keyword::Return, e, out),
        Command::Raise(e) => start_expression(Keyword::Raise, e, out),
        Command::Start(e) => start_expression(Keyword::Start, e, out),
        Command::Sleep(ms) => start_number(Keyword::Sleep, *ms, out),
        Command::Join(e, time) => {
            start_expression(Keyword::Join, e, out)?;
            push_timed(*time, out)
        }
        Command::Kill(e, fault, wait) => start_kill(Keyword::Kill, e, fault, *wait, out),
        Command::KillAll(e, fault, wait) => start_kill(Keyword::KillAll, e, fault, *wait, out),
        Command::Unlink(e) => start_expression(Keyword::Unlink, e, out),
        Command::Set(n) => start_name(Keyword::Set, n, out),
        Command::Clear(n) => start_name(Keyword::Clear, n, out),
        Command::ResultSet(n, e) => start_name_expression(Keyword::ResultSet, n, e, out),
        Command::ResultFail(n, e) => start_name_expression(Keyword::ResultFail, n, e, out),
        Command::Release(n) => start_name(Keyword::Release, n, out),
        Command::QueuePut(n, e, wait) => {
            start_name_expression(Keyword::QueuePut, n, e, out)?;
            push_wait(*wait, out)
        }
        Command::QueueDone(n) => start_name(Keyword::QueueDone, n, out),
        Command::GroupJoin(n, time) => start_name_timed(Keyword::GroupJoin, n, *time, out),
        Command::GroupKill(n, fault, is_now) => {
            start_name(Keyword::GroupKill, n, out)?;
            push_marked(Keyword::With, fault, out)?;
            push_flag(Keyword::Now, *is_now, out)
        }
        Command::SetParent(e, parent) => { start_expressions(Keyword::SetParent, e, parent, out) }
        Command::ChannelPut(n, e) => start_name_expression(Keyword::ChannelPut, n, e, out),
        Command::QueueShut(n, is_immediate) => {
            start_name(Keyword::QueueShut, n, out)?;
            push_flag(Keyword::Immediate, *is_immediate, out)
        }
    }
}
