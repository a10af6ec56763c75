//! The greenlets in order of making, and how far each has come.
ghost use Rattle.std.specs.Prelude.{◌≡◌, ◌<◌, ◌≤◌, [], ◌∷◌, ◌++◌, false, length, slice_get, slice_set, unwrap_or, nat_lt, OnOk, OnErr, IfOk};
ghost use Rattle.std.specs.Option.{option_copied};
ghost use Rattle.machine.specs.declared.state.Phase.{Phase};
ghost use Rattle.machine.specs.Holds.{outcome_of_phase};
ghost use Rattle.machine.specs.Soundness.{phase_of as phase_of_greenlet};
ghost use Rattle.machine.specs.Greenlets.{nobody};
ghost use Rattle.hub_state.specs.Phases.{phase_of_stage, shown};
ghost use Rattle.machine.specs.declared.limits.TheConstants.{MOST_GREENLETS};

use body_entries::Parked;
use gv_values::{Outcome, Value};
use machine::limits::MOST_GREENLETS;
use scenario_tree::Items;
use std::alloc::{AllocError, Global};
use std::marker::Model;
use std::mem;

/// How far a greenlet has come, as the hub keeps it: it has the body of one that is parked, and not of the one that
/// moves.
#[derive(Drop)]
pub enum Stage {
    /// Not started, with the arguments of its function.
    New(Items<Value>),
    /// Its body waits for an answer.
    Parked(Parked),
    /// It makes its moves; its body is with the step of the hub.
    UnderWay,
    /// It ended so.
    Done(Outcome),
}

/// What the hub keeps of a greenlet: its function, where its outcome goes if it is raw, and how far it has come.
#[derive(Drop)]
pub struct Greenlet {
    raw: bool,
    /// Where the outcome of a raw greenlet goes.
    parent: u32,
    function: u32,
    stage: Stage,
}

impl Model for Greenlet {
    ghost use Rattle.machine.specs.declared.state.Greenlet.{Greenlet as Shown};
    ghost use Rattle.hub_state.specs.Phases.{phase_of_stage, shown};
    ghost use Rattle.scenario_tree.specs.Trees.{trees};

    ghost Value = { Shown };

    ghost coded = { Prim.hlevel trees };

    ghost view = { λ g. shown g.raw g.parent g.function (phase_of_stage g.stage) };
}

impl Greenlet {
    /// One that has not started.
    pub(crate) fn new(raw: bool, parent: u32, function: u32, arguments: Items<Value>) -> Greenlet
        ensures { result ≡ shown raw parent function (Phase.New arguments) }
    {
        Greenlet {
            raw,
            parent,
            function,
            stage: Stage::New(arguments),
        }
    }

    pub(crate) fn function(&self) -> u32
        ensures { result ≡ self.now.function }
    {
        self.function
    }

    pub(crate) fn is_raw(&self) -> bool
        ensures { result ≡ self.now.raw }
    {
        self.raw
    }

    pub(crate) fn parent(&self) -> u32
        ensures { result ≡ self.now.parent }
    {
        self.parent
    }

    /// How far it has come.
    pub(crate) fn stage(&self) -> &Stage
        ensures { phase_of_stage result.now ≡ self.now.phase }
    {
        &self.stage
    }

    fn set_parent(&mut self, parent: u32)
        ensures { self.new ≡ record self.old { parent = parent } }
    {
        self.parent = parent;
    }

    /// What it ended with, if it did.
    pub(crate) fn outcome(&self) -> Option<&Outcome>
        ensures { option_copied result ≡ outcome_of_phase self.now.phase }
    {
        match &self.stage {
            Stage::Done(outcome) => Some(outcome),
            _ => None,
        }
    }

    /// Gives it this stage, in whose place is then the one that it had.
    fn swap(&mut self, stage: &mut Stage)
        ensures set { self.new ≡ record self.old { phase = phase_of_stage stage.old } }
        ensures was { phase_of_stage stage.new ≡ self.old.phase }
    {
        mem::swap(&mut self.stage, stage);
    }
}

/// The greenlets in order of making; a greenlet's number is its place.
#[derive(Drop)]
pub struct Greenlets {
    all: Vec<Greenlet>,
}

impl Model for Greenlets {
    ghost use Rattle.std.specs.Prelude.{◌≤◌, List, length};
    ghost use Rattle.machine.specs.declared.limits.TheConstants.{MOST_GREENLETS};
    ghost use Rattle.machine.specs.declared.state.Greenlet.{Greenlet as Shown};
    ghost use Rattle.scenario_tree.specs.Trees.{trees};

    ghost Value = { List Shown };

    ghost coded = { Prim.hlevel trees };

    ghost view = { λ gs. gs.all.items };

    ghost invariant = { λ gs. length gs.all.items ≤ MOST_GREENLETS };
}

impl Greenlets {
    /// Main alone, which runs this function and has not started.
    pub(crate) fn first(alloc: Global, function: u32) -> Result<Greenlets, AllocError>
        ensures { IfOk result (λ gs. gs ≡ shown false 0 function (Phase.New []) ∷ []) }
    {
        let mut all = Vec::new(alloc);
        all.push(Greenlet::new(false, 0, function, Items::new(alloc)))?;
        Ok(Greenlets { all })
    }

    /// The greenlet of this number.
    pub(crate) fn get(&self, g: u32) -> Option<&Greenlet>
        ensures { option_copied result ≡ slice_get self.now g }
    {
        self.all.get(g as usize)
    }

    /// How many were made.
    pub(crate) fn len(&self) -> u32
        ensures { result ≡ length self.now }
    {
        self.all.len() as u32
    }

    /// Whether one more may be made.
    pub(crate) fn has_room(&self) -> bool
        ensures { result ≡ nat_lt (length self.now) MOST_GREENLETS }
    {
        self.all.len() < MOST_GREENLETS
    }

    /// One more, the newest. `AllocError`: memory is wanting; nothing has changed.
    pub(crate) fn push(&mut self, greenlet: Greenlet) -> Result<(), AllocError>
        requires { length self.old < MOST_GREENLETS }
        ensures ok { OnOk result (self.new ≡ self.old ++ greenlet ∷ []) }
        ensures err { OnErr result (self.new ≡ self.old) }
    {
        self.all.push(greenlet)?;
        Ok(())
    }

    /// All of them.
    pub(crate) fn as_slice(&self) -> &[Greenlet]
        ensures { result.now ≡ self.now }
    {
        self.all.as_slice()
    }

    /// Gives the greenlet this parent.
    pub(crate) fn set_parent(&mut self, g: u32, parent: u32)
        ensures { self.new ≡ slice_set self.old g (record (unwrap_or (slice_get self.old g) nobody) { parent = parent }) }
    {
        set_parent_at(&mut self.all, g, parent);
    }

    /// Gives the greenlet this stage, in whose place is then the one that it had, if it was made.
    pub(crate) fn swap(&mut self, g: u32, stage: &mut Stage)
        ensures set { self.new ≡ slice_set self.old g (record (unwrap_or (slice_get self.old g) nobody) { phase = phase_of_stage stage.old }) }
        ensures was { phase_of_stage stage.new ≡ unwrap_or (phase_of_greenlet g self.old) (phase_of_stage stage.old) }
    {
        swap_stage(&mut self.all, g, stage);
    }
}

/// Gives the greenlet this parent.
#[tactic(auto, using(crate::proofs::PhaseSets::parent_set, crate::proofs::PhaseSets::phase_out))]
fn set_parent_at(greenlets: &mut [Greenlet], g: u32, parent: u32)
    ensures { greenlets.new ≡ slice_set greenlets.old g (record (unwrap_or (slice_get greenlets.old g) nobody) { parent = parent }) }
{
    if g as usize >= greenlets.len() {
        return;
    }
    let greenlet = &mut greenlets[g as usize];
    greenlet.set_parent(parent);
}

/// Gives the greenlet this stage, in whose place is then the one that it had, if it was made.
#[tactic(auto, using(crate::proofs::PhaseSets::phase_set, crate::proofs::PhaseSets::phase_was, crate::proofs::PhaseSets::phase_none, crate::proofs::PhaseSets::phase_out))]
fn swap_stage(greenlets: &mut [Greenlet], g: u32, stage: &mut Stage)
    ensures set { greenlets.new ≡ slice_set greenlets.old g (record (unwrap_or (slice_get greenlets.old g) nobody) { phase = phase_of_stage stage.old }) }
    ensures was { phase_of_stage stage.new ≡ unwrap_or (phase_of_greenlet g greenlets.old) (phase_of_stage stage.old) }
{
    if g as usize >= greenlets.len() {
        return;
    }
    let greenlet = &mut greenlets[g as usize];
    greenlet.swap(stage);
}
