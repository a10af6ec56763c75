//! What the steps of the hub do to its greenlets.
ghost use Rattle.std.specs.Prelude.{◌≡◌, ◌<◌, ◌||◌, length, option_map, unwrap_or, is_some, OnOk, IfOk, IfSome, IfNone};
ghost use Rattle.std.specs.Option.{option_copied};
ghost use Rattle.machine.specs.declared.state.Phase.{Phase};
ghost use Rattle.machine.specs.Holds.{is_done, outcome_of_phase};
ghost use Rattle.machine.specs.Soundness.{phase_of as phase_of_greenlet};
ghost use Rattle.machine.specs.Greenlets.{no_frame, greenlet, with_phase, frame_of, add_greenlet, has_greenlet_left};
ghost use Rattle.machine.specs.Deliveries.{arguments};
ghost use Rattle.hub_state.specs.Phases.{phase_of_stage};
ghost use Rattle.machine.specs.declared.limits.TheConstants.{MOST_GREENLETS};

use crate::greenlets::{Greenlet, Stage};
use crate::hub::Hub;
use crate::order::items_stand_in_order;
use body_entries::Parked;
use gv_values::Value;
use scenario_tree::Items;
use std::alloc::{AllocError, Global};

impl Hub {
    /// The number of the greenlet's function.
    pub fn function_of(&self, g: u32) -> u32
        ensures { result ≡ (greenlet g self.now).function }
    {
        match self.base.greenlets.get(g) {
            Some(greenlet) => greenlet.function(),
            None => 0,
        }
    }

    /// How far the greenlet has come.
    pub fn stage(&self, g: u32) -> Option<&Stage>
        ensures { option_map phase_of_stage (option_copied result) ≡ phase_of_greenlet g self.now.greenlets }
    {
        match self.base.greenlets.get(g) {
            Some(greenlet) => Some(greenlet.stage()),
            None => None,
        }
    }

    /// Whether the greenlet has ended, or does where it comes so far.
    fn is_end(&self, g: u32, stage: &Stage) -> bool
        ensures { result ≡ (is_done self.now g || is_some (outcome_of_phase (phase_of_stage stage.now))) }
    {
        match stage {
            Stage::Done(_) => true,
            _ => self.is_done(g),
        }
    }

    /// Lets the greenlet have come so far; in its place is then how far it had come before, if it was made.
    fn swap_stage(&mut self, g: u32, stage: &mut Stage)
        ensures set { self.new ≡ with_phase g (phase_of_stage stage.old) self.old }
        ensures was { phase_of_stage stage.new ≡ unwrap_or (phase_of_greenlet g self.old.greenlets) (phase_of_stage stage.old) }
    {
        let ended = self.is_end(g, stage);
        self.touched.touch_end(ended, g);
        items_stand_in_order(&self.held);
        self.base.greenlets.swap(g, stage);
    }

    /// Lets the greenlet have come so far.
    pub fn set_stage(&mut self, g: u32, stage: Stage)
        ensures { self.new ≡ with_phase g (phase_of_stage stage) self.old }
    {
        let mut stage = stage;
        self.swap_stage(g, &mut stage);
        drop(stage);
    }

    /// Takes the body of the greenlet, which is then under way. None only where no body of it waits for
    /// an answer.
    #[tactic(auto, using(crate::proofs::PhaseSets::frame_was))]
    pub fn take_body(&mut self, g: u32) -> Option<Parked>
        ensures body { IfSome result (λ body. body ≡ frame_of (greenlet g self.old).phase) }
        ensures none { IfNone result (frame_of (greenlet g self.old).phase ≡ no_frame) }
        ensures taken { self.new ≡ with_phase g (Phase.Live no_frame) self.old }
    {
        let mut stage = Stage::UnderWay;
        self.swap_stage(g, &mut stage);
        let before = stage;
        match before {
            Stage::Parked(body) => Some(body),
            other => {
                drop(other);
                None
            }
        }
    }

    /// Takes the arguments of a greenlet that has not started, which is then under way.
    #[tactic(auto, using(crate::proofs::PhaseSets::arguments_were))]
    pub fn take_arguments(&mut self, alloc: Global, g: u32) -> Items<Value>
        ensures arguments { result ≡ arguments (greenlet g self.old).phase }
        ensures taken { self.new ≡ with_phase g (Phase.Live no_frame) self.old }
    {
        let mut stage = Stage::UnderWay;
        self.swap_stage(g, &mut stage);
        let before = stage;
        match before {
            Stage::New(arguments) => arguments,
            other => {
                drop(other);
                Items::new(alloc)
            }
        }
    }

    /// Whether one more greenlet may be made.
    pub fn has_greenlet_left(&self) -> bool
        ensures { result ≡ has_greenlet_left self.now }
    {
        self.base.greenlets.has_room()
    }

    /// How many greenlets were made.
    pub fn greenlets_len(&self) -> u32
        ensures { result ≡ length self.now.greenlets }
    {
        self.base.greenlets.len()
    }

    /// Makes a greenlet that has not started, and gives its number. `AllocError`: memory is wanting; the hub is given
    /// up.
    pub fn add_greenlet(
        &mut self,
        raw: bool,
        parent: u32,
        function: u32,
        arguments: Items<Value>,
    ) -> Result<u32, AllocError>
        requires { length self.old.greenlets < MOST_GREENLETS }
        ensures made { OnOk result (self.new ≡ add_greenlet raw parent function arguments self.old) }
        ensures number { IfOk result (λ g. g ≡ length self.old.greenlets) }
    {
        items_stand_in_order(&self.held);
        let number = self.base.greenlets.len();
        self.base
            .greenlets
            .push(Greenlet::new(raw, parent, function, arguments))?;
        Ok(number)
    }
}
