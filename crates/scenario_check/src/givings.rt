//! Statements of one line that give a value.
ghost use Rattle.std.specs.Prelude.{◌≡◌, ◌++◌, OnOk};
ghost use Rattle.scenario_rules.specs.Mention.{giving_says, on};

use crate::expressions::{say, say_expression};
use crate::parts::{say_call, say_hub, say_object, say_perhaps, say_row};
use scenario_rules::{Mention, Says, Wanted};
use scenario_tree::{Giving, Items};
use std::alloc::AllocError;

/// What each of them says: the table of these statements, one row each.
pub(crate) fn say_giving(
    said: &mut Items<Mention>,
    line: u32,
    giving: &Giving,
) -> Result<(), AllocError>
    ensures { OnOk result (said.new ≡ said.old ++ on line (giving_says giving.now)) }
{
    match giving {
        Giving::Spawn(f, es) => say_row!(said, line: say_hub(), say_call(f, es)),
        Giving::SpawnLater(_, f, es) => say_row!(said, line: say_hub(), say_call(f, es)),
        Giving::New(f, es) => say_row!(said, line: say_hub(), say_call(f, es)),
        Giving::Get(e, _) => say_row!(said, line: say_hub(), say_expression(e)),
        Giving::JoinAll(e, _, _) => say_row!(said, line: say_hub(), say_expression(e)),
        Giving::Link(_, e, f) =>
            say_row!(said, line: say_hub(), say_expression(e), say(Says::Calls(1, *f))),
        Giving::LinkMark(e, _) => say_row!(said, line: say_hub(), say_expression(e)),
        Giving::LinkSet(e, x) =>
            say_row!(said, line: say_hub(), say_expression(e), say_object(Wanted::Event, x)),
        Giving::WaitEvent(x, _) => say_row!(said, line: say_hub(), say_object(Wanted::Event, x)),
        Giving::ResultGet(x, _) => say_row!(said, line: say_hub(), say_object(Wanted::Result, x)),
        Giving::ResultWait(x, _) => say_row!(said, line: say_hub(), say_object(Wanted::Result, x)),
        Giving::Acquire(x, _) =>
            say_row!(said, line: say_hub(), say_object(Wanted::SemaphoreOrLock, x)),
        Giving::QueueGet(x, _) => say_row!(said, line: say_hub(), say_object(Wanted::Queue, x)),
        Giving::QueuePeek(x, _) => say_row!(said, line: say_hub(), say_object(Wanted::Queue, x)),
        Giving::QueueJoin(x, _) =>
            say_row!(said, line: say_hub(), say_object(Wanted::JoinQueue, x)),
        Giving::GroupSpawn(x, f, es) =>
            say_row!(said, line: say_hub(), say_object(Wanted::GroupOrPool, x), say_call(f, es)),
        Giving::Map(x, f, e) => say_row!(
            said, line: say_hub(), say_object(Wanted::GroupOrPool, x), say(Says::Calls(1, *f)),
            say_expression(e)
        ),
        Giving::NativeSpawn(x, _, e, _) =>
            say_row!(said, line: say_hub(), say_object(Wanted::NativePool, x), say_expression(e)),
        Giving::Raw(f, e) => say_row!(said, line: say(Says::Runs(*f)), say_perhaps(e)),
        Giving::Switch(e, f) => say_row!(said, line: say_expression(e), say_expression(f)),
        Giving::Throw(e, f) => say_row!(said, line: say_expression(e), say_perhaps(f)),
        Giving::ChannelGet(x) => say_row!(said, line: say_hub(), say_object(Wanted::Channel, x)),
    }
}
