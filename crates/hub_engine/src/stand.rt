//! Where the hub stands between two steps.
ghost use Rattle.std.specs.Prelude.{◌≡◌, IsTrue};
ghost use Rattle.machine.specs.Run.{silent};

use body_frames::Moving;
use gv_values::Outcome;
use hub_requests::Performed;
use hub_state::Hub;
use machine::request::Request;
use trace_text::StopCause;

/// Where the hub stands between two steps.
#[derive(Drop)]
pub enum Stand {
    /// The greenlet is under way, with this body at its next move.
    Going(u32, Moving),
    /// No greenlet is under way.
    Resting,
    /// The run is over, for this cause.
    Over(StopCause),
}

/// Where the hub stands, or what goes up to the parent of a raw greenlet that has ended.
#[derive(Drop)]
pub enum Hop {
    /// The hub stands here.
    At(Stand),
    /// This input is to land at this greenlet.
    Up(u32, Outcome),
}

/// What is left of the step of a greenlet after its move, whose body stays where it is.
#[derive(Drop)]
pub enum Progress {
    /// The body is at its next move.
    Stays,
    /// Nothing: the body has ended, and the hub stands here.
    At(Stand),
    /// The body waits for the answer to its request, of which this came.
    Waits(Performed),
    /// The body waits for the answer to this request, which is not performed yet.
    Asks(Request),
}

/// Whether a part of the run came to rest, or the run is over.
#[derive(Drop)]
pub enum Came {
    /// No greenlet is under way, and the run goes on.
    ToRest,
    /// The run is over, for this cause.
    ToAnEnd(StopCause),
}

/// Whether the step under way said and posted nothing.
pub fn is_silent(hub: &Hub) -> bool
    ensures { IsTrue result → hub.now ≡ silent hub.now }
{
    if !hub.lines().is_empty() {
        return false;
    }
    hub.posts().is_empty()
}
