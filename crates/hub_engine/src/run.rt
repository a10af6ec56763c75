//! The engine as its callers see it: a scenario is compiled, and the engine prepared and then run once.
ghost use Rattle.std.specs.Prelude.{◌≡◌, ◌≢◌, ◌≤◌, true, [], IfOk, IfErr, OnOk};
ghost use Rattle.std.specs.List.{list_all};
ghost use Rattle.gv_values.specs.Counts.{HasRisen};
ghost use Rattle.scenario_rules.specs.Rules.{IsWellFormed};
ghost use Rattle.machine.specs.Quiet.{is_quiet};
ghost use Rattle.machine.specs.Blocked.{blocked_states};
ghost use Rattle.machine.specs.Run.{Source, first_state, run};
ghost use Rattle.machine.specs.TraceLaws.{meets_laws};
ghost use Rattle.machine_well_formed.specs.Texts.{HasMain};
ghost use Rattle.machine_rooms.specs.Counts.{AreCountable};
ghost use Rattle.body_values.specs.Small.{IsSmall};
ghost use Rattle.world.specs.Outside.{WorldGoesOn};
ghost use Rattle.world_rules.specs.Legal.{AreLegal};
ghost use Rattle.hub_objects.specs.Counted.{AreCounted};
ghost use Rattle.hub_engine.specs.Ends.{HasLogged, HasNumbers, RanTo};
ghost use Rattle.hub_engine.specs.Run.{WroteAhead};
ghost use Rattle.hub_engine.specs.Outside.{WritesPart};
ghost use Rattle.hub_engine.specs.Within.{AreFewBudgets, IsRefusedFor};
ghost use Rattle.hub_engine.specs.declared.run.EngineEnd.TheVariants as ends;
ghost use Rattle.hub_engine.specs.declared.run.EngineRefusal.TheVariants as refusals;

use crate::turns::{ended_as, run};
use body_values::Code;
use gv_io::Sink;
use gv_values::{FaultKind, MOST_MOVES, MOST_TURNS};
use hub_state::Hub;
use machine_arguments::calls_have_few;
use machine_trace_laws::{blocks_are_quiet, runs_are_lawful};
use scenario_check::Checked;
use std::alloc::{AllocError, Global};
use std::marker::Model;
use world::World;

/// How a run ends.
#[derive(Clone, Copy, Debug, PartialEq, Eq)]
pub enum EngineEnd {
    /// The main greenlet ended with a value.
    MainValue,
    /// The main greenlet ended by a fault.
    MainFault(FaultKind),
    /// One more turn would pass the budget.
    NoTurns,
    /// One more move would pass the budget.
    NoMoves,
    /// One more greenlet would pass the limit.
    NoGreenlets,
    /// One more link would pass the limit.
    NoLinks,
    /// One more kill would pass the limit.
    NoKills,
    /// The trace could not be written.
    WriteFault,
    /// Memory ran out.
    Memory,
}

/// How many turns and moves a run may make.
#[derive(Clone, Copy, Debug, PartialEq, Eq)]
pub struct Budgets {
    /// The most turns.
    pub turns: u64,
    /// The most moves.
    pub moves: u64,
}

/// Why an engine was not prepared.
#[derive(Clone, Copy, Debug, PartialEq, Eq)]
pub enum EngineRefusal {
    /// The budgets are more than a run may be given: `MOST_TURNS` turns and `MOST_MOVES` moves.
    Budgets,
    /// Memory ran out.
    Memory,
}

impl From<AllocError> for EngineRefusal {
    ghost use Rattle.std.specs.Prelude.{◌≡◌};
    ghost use Rattle.hub_engine.specs.declared.run.EngineRefusal.TheVariants.{Memory};

    ghost from_gives = { λ _ e. e ≡ Memory };

    fn from(_: AllocError) -> EngineRefusal {
        EngineRefusal::Memory
    }
}

/// How a run ended, and the counts and the moment of its last state.
#[derive(Clone, Copy, Debug, PartialEq, Eq)]
pub struct Ran {
    /// How the run ended.
    pub end: EngineEnd,
    /// How many greenlets were made, with main.
    pub greenlets: u32,
    /// How many turns began.
    pub turns: u64,
    /// How many moves were made.
    pub moves: u64,
    /// The moment, in milliseconds from the beginning of the run.
    pub moment: u64,
}

/// A scenario that is to be run within these budgets.
#[derive(Drop)]
pub struct Engine {
    hub: Hub,
    budgets: Budgets,
}

impl Model for Engine {
    ghost use Rattle.hub_engine.specs.Prepared.{Prepared};
    ghost use Rattle.hub_engine.specs.Within.{IsGiven};
    ghost use Rattle.scenario_tree.specs.Trees.{trees};

    ghost Value = { Prepared };

    ghost coded = { Prim.hlevel trees };

    ghost view = { λ e. record { scenario = e.hub.scenario; turns = e.budgets.turns; moves = e.budgets.moves } };

    ghost invariant = { λ e. IsGiven e.budgets.turns e.budgets.moves e.hub };
}

impl Engine {
    /// Gives up a run that was not begun. What a value's drop does is proved in each crate that drops one, and that of an
    /// engine is long: it is proved here for all that call this.
    pub fn give_up(self) {
        drop(self);
    }

    /// The scenario before its run.
    ///
    /// # Errors
    ///
    /// `Budgets` exactly where these are more than a run may be given; `Memory` where memory ran out. The scenario is
    /// given up.
    pub fn new(alloc: Global, checked: Checked, budgets: Budgets) -> Result<Engine, EngineRefusal>
        ensures prepared { IfOk result (λ engine. engine ≡ record { scenario = checked; turns = budgets.turns; moves = budgets.moves }) }
        ensures few { OnOk result (AreFewBudgets budgets.turns budgets.moves) }
        ensures refused { IfErr result (IsRefusedFor budgets.turns budgets.moves) }
    {
        may_run(&checked);
        let code = compile_within(alloc, checked, budgets)?;
        let hub = Hub::new(alloc, code)?;
        Ok(Engine { hub, budgets })
    }

    /// The whole run under the answers of the world, which runs and stands for the empty log: nothing was posted or
    /// asked since it began. The trace is given out to the sink step by step, each line before the next question: whole
    /// with every end but a fault of the sink and want of memory, and with these a prefix of it. The world then stands
    /// for the log of the run, or for a first part of it that has all its answers.
    pub fn run<W: World, K: Sink>(self, alloc: Global, world: &mut W, sink: &mut K) -> Ran
        requires runs { (W.meaning world.old).runs ≡ true }
        requires begun { W.stands_for world.old [] }
        ensures written { RanTo result.end (run self.scenario self.turns self.moves (W.meaning world.new).answers) (K.written sink.old) (K.written sink.new) }
        // each line of which anything was written, or tried, is one that its type has
        ensures tried { WritesPart (K.written sink.old) (K.written sink.new) (run self.scenario self.turns self.moves (W.meaning world.new).answers).lines }
        ensures ahead { WroteAhead (run self.scenario self.turns self.moves) (W.meaning world.new).answers (K.written sink.old) (K.written sink.new) }
        // in a world that may wait, what stood in the sink before a question had been handed on
        ensures handed { W.waits ≡ true → WroteAhead (run self.scenario self.turns self.moves) (W.meaning world.new).answers (K.written sink.old) (K.handed sink.new) }
        ensures numbers { HasNumbers result (run self.scenario self.turns self.moves (W.meaning world.new).answers).state }
        ensures log { HasLogged result.end (run self.scenario self.turns self.moves (W.meaning world.new).answers).log (W.meaning world.new).answers (W.stands_for world.new) }
        ensures legal { AreLegal [] [] (run self.scenario self.turns self.moves (W.meaning world.new).answers).log }
        ensures rule { WorldGoesOn (W.meaning world.old) (W.meaning world.new) }
        ensures write_fault { result.end ≡ ends.WriteFault → HasRisen (K.faults sink.old) (K.faults sink.new) }
        ensures unfailed { result.end ≢ ends.WriteFault → K.faults sink.new ≡ K.faults sink.old }
        ensures never_falls { K.faults sink.old ≤ K.faults sink.new }
        // the lines meet the laws of a trace, and at each block line nothing that waits could go on
        ensures lawful { meets_laws (run self.scenario self.turns self.moves (W.meaning world.new).answers).lines ≡ true }
        ensures quiet { list_all is_quiet (blocked_states (Source.Given (W.meaning world.new).answers) self.turns self.moves self.scenario) ≡ true }
    {
        runs_are_lawful();
        blocks_are_quiet();
        let Engine { hub, budgets } = self;
        let mut hub = hub;
        let ran = run(alloc, &mut hub, world, sink, budgets.turns, budgets.moves);
        Ran {
            end: ended_as(ran),
            greenlets: hub.greenlets_len(),
            turns: hub.turns(),
            moves: hub.moves(),
            moment: hub.moment(),
        }
    }
}

/// The code of a scenario, which is given up, with its blocks by number. `AllocError`: memory is wanting.
#[tactic(auto, using(crate::proofs::Limits::well_formed_is_small))]
pub fn compile(alloc: Global, checked: Checked) -> Result<Code, AllocError>
    ensures { IfOk result (λ code. code ≡ checked) }
{
    calls_have_few();
    Ok(Code::new(alloc, checked.into_tree())?)
}

/// The code of a scenario that may be run within these budgets. They are looked at where the code is made: what goes
/// where they are too many is code then, and no tree, whose drop would be proved in this crate.
fn compile_within(alloc: Global, checked: Checked, budgets: Budgets) -> Result<Code, EngineRefusal>
    ensures code { IfOk result (λ code. code ≡ checked) }
    ensures few { OnOk result (AreFewBudgets budgets.turns budgets.moves) }
    ensures refused { IfErr result (IsRefusedFor budgets.turns budgets.moves) }
{
    let made = compile(alloc, checked);
    may_be_given(budgets)?;
    match made {
        Ok(code) => Ok(code),
        Err(_) => Err(EngineRefusal::Memory),
    }
}

/// A scenario that is checked may be run: its main has a number, its objects are few, and what they count fits, by far.
#[tactic(auto, using(crate::proofs::Mains::main_there, crate::proofs::Limits::well_formed_is_small))]
fn may_run(checked: &Checked)
    ensures well_formed { IsWellFormed checked.now }
    ensures main { HasMain checked.now }
    ensures small { IsSmall checked.now }
    ensures counted { AreCounted (first_state checked.now).objects }
    ensures countable { AreCountable (first_state checked.now).objects }
{
    // That the scenario is one of a text is known of a tree that is looked at.
    let _written = checked.scenario().tree();
}

/// A run may be given no more turns and moves than the limits say; these are refused exactly if they are more.
fn may_be_given(budgets: Budgets) -> Result<(), EngineRefusal>
    ensures few { OnOk result (AreFewBudgets budgets.turns budgets.moves) }
    ensures refused { IfErr result (λ refusal. (refusal ≡ refusals.Budgets) × (AreFewBudgets budgets.turns budgets.moves → ⊥)) }
{
    if budgets.turns > MOST_TURNS {
        return Err(EngineRefusal::Budgets);
    }
    if budgets.moves > MOST_MOVES {
        return Err(EngineRefusal::Budgets);
    }
    Ok(())
}
