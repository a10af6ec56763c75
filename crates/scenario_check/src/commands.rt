//! Statements of one line that give no value.
ghost use Rattle.std.specs.Prelude.{◌≡◌, ◌++◌, OnOk};
ghost use Rattle.scenario_rules.specs.Mention.{command_says, on};

use crate::expressions::{say, say_expression};
use crate::parts::{say_hub, say_object, say_perhaps, say_row};
use scenario_rules::{Mention, Says, Wanted};
use scenario_tree::{Command, Items};
use std::alloc::AllocError;

/// What each of them says: the table of these statements, one row each.
pub(crate) fn say_command(
    said: &mut Items<Mention>,
    line: u32,
    command: &Command,
) -> Result<(), AllocError>
    ensures { OnOk result (said.new ≡ said.old ++ on line (command_says command.now)) }
{
    match command {
        Command::Print(e) => say_row!(said, line: say_expression(e)),
        Command::Let(x, e) => say_row!(said, line: say(Says::Gives(*x)), say_expression(e)),
        Command::Return(e) => say_row!(said, line: say_expression(e)),
        Command::Raise(e) => say_row!(said, line: say_expression(e)),
        Command::Start(e) => say_row!(said, line: say_hub(), say_expression(e)),
        Command::Sleep(_) => say_row!(said, line: say_hub()),
        Command::Join(e, _) => say_row!(said, line: say_hub(), say_expression(e)),
        Command::Kill(e, f, _) =>
            say_row!(said, line: say_hub(), say_expression(e), say_perhaps(f)),
        Command::KillAll(e, f, _) =>
            say_row!(said, line: say_hub(), say_expression(e), say_perhaps(f)),
        Command::Unlink(e) => say_row!(said, line: say_hub(), say_expression(e)),
        Command::Set(x) => say_row!(said, line: say_hub(), say_object(Wanted::Event, x)),
        Command::Clear(x) => say_row!(said, line: say_hub(), say_object(Wanted::Event, x)),
        Command::ResultSet(x, e) =>
            say_row!(said, line: say_hub(), say_object(Wanted::Result, x), say_expression(e)),
        Command::ResultFail(x, e) =>
            say_row!(said, line: say_hub(), say_object(Wanted::Result, x), say_expression(e)),
        Command::Release(x) =>
            say_row!(said, line: say_hub(), say_object(Wanted::SemaphoreOrLock, x)),
        Command::QueuePut(x, e, _) =>
            say_row!(said, line: say_hub(), say_object(Wanted::Queue, x), say_expression(e)),
        Command::QueueDone(x) => say_row!(said, line: say_hub(), say_object(Wanted::JoinQueue, x)),
        Command::GroupJoin(x, _) =>
            say_row!(said, line: say_hub(), say_object(Wanted::GroupOrPool, x)),
        Command::GroupKill(x, f, _) =>
            say_row!(said, line: say_hub(), say_object(Wanted::GroupOrPool, x), say_perhaps(f)),
        Command::SetParent(e, f) => say_row!(said, line: say_expression(e), say_expression(f)),
        Command::ChannelPut(x, e) =>
            say_row!(said, line: say_hub(), say_object(Wanted::Channel, x), say_expression(e)),
        Command::QueueShut(x, _) => say_row!(said, line: say_hub(), say_object(Wanted::Queue, x)),
    }
}
