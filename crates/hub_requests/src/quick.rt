//! Requests that are answered at once.
ghost use Rattle.std.specs.Prelude.{◌≡◌, None, OnOk};
ghost use Rattle.machine.specs.Request.{performs};
ghost use Rattle.machine.specs.declared.request.Request.{Request as Asked};
ghost use Rattle.machine_rooms.specs.Rooms.{HasRoom, room_of_move};
ghost use Rattle.machine.specs.Deeds.{request_at};
ghost use Rattle.hub_objects.specs.Releases.{refused};

use gv_values::{FaultKind, Value};
use hub_objects::Change;
use hub_state::Hub;
use machine::deed::Deed;
use std::alloc::AllocError;
use trace_text::Line;

/// Does this at the object for the greenlet, whose request is answered with none, or refused by this fault.
#[inline(always)]
#[tactic(auto, unfolding(machine::specs::Request::performs))]
pub fn do_at(hub: &mut Hub, g: u32, o: u32, deed: Deed) -> Option<FaultKind>
    requires { HasRoom room_of_move hub.old }
    ensures { performs (request_at o deed) g hub.old ≡ refused result hub.new }
{
    match deed {
        Deed::Set => {
            hub.change(o, Change::Flag(true));
            None
        }
        Deed::Clear => {
            hub.change(o, Change::Flag(false));
            None
        }
        Deed::Release => hub.release(g, o),
        Deed::QueueDone => hub.finish(o),
    }
}

/// Prints the value for the greenlet, whose request is answered with none. `AllocError`: memory is wanting for the line;
/// the hub is given up.
#[inline(always)]
#[tactic(auto, unfolding(machine::specs::Request::performs))]
pub fn say_print(hub: &mut Hub, g: u32, value: Value) -> Result<(), AllocError>
    ensures { OnOk result (performs (Asked.Print value) g hub.old ≡ refused None hub.new) }
{
    hub.say(Line::Print { greenlet: g, value })
}
