ghost use Rattle.std.specs.Prelude.{◌≡◌, option_map};
ghost use Rattle.std.specs.Option.{option_copied};
ghost use Rattle.machine.specs.Soundness.{phase_of};
ghost use Rattle.hub_state.specs.Phases.{phase_of_stage};
ghost use Rattle.hub_requests.specs.Far.{far_of};

use hub_state::{Hub, Stage};

/// How far a greenlet has come and no more: neither its arguments, nor its body, nor its outcome.
#[derive(Clone, Copy, Debug, PartialEq, Eq)]
pub enum Far {
    /// It has not started.
    New,
    /// It has started and not ended.
    Live,
    /// It has ended, or was never made.
    Done,
}

fn far_of(stage: Option<&Stage>) -> Far
    ensures { result ≡ far_of (option_map phase_of_stage (option_copied stage.entry)) }
{
    match stage {
        None => Far::Done,
        Some(Stage::New(_)) => Far::New,
        Some(Stage::Parked(_)) => Far::Live,
        Some(Stage::UnderWay) => Far::Live,
        Some(Stage::Done(_)) => Far::Done,
    }
}

/// How far the greenlet has come.
pub fn how_far(hub: &Hub, g: u32) -> Far
    ensures { result ≡ far_of (phase_of g hub.now.greenlets) }
{
    far_of(hub.stage(g))
}
