//! Runs of a scenario in a world.
ghost use Rattle.gv_io.specs.Streams.{Extends};
ghost use Rattle.std.specs.Prelude.{◌≡◌, ◌≢◌, ◌≤◌, ◌<◌, ◌⊎◌, ℕ, true, false, IfNone, IfSome};
ghost use Rattle.gv_values.specs.Counts.{HasRisen};
ghost use Rattle.gv_values.specs.declared.limits.TheConstants.{MOST_WORKERS};
ghost use Rattle.machine.specs.Budgets.{AreBudgets};
ghost use Rattle.machine.specs.Run.{run, script_run};
ghost use Rattle.machine.specs.TraceLaws.{meets_laws};
ghost use Rattle.command_words.specs.Ranges.{IsWorldInRange};
ghost use Rattle.hub_engine.specs.Ends.{RanTo};
ghost use Rattle.hub_engine.specs.Run.{WroteAhead};
ghost use Rattle.scenario_rules.specs.Rules.{IsWellFormed};
ghost use Rattle.run_command.specs.Ends.{HadNoMemory, is_broken_off};
ghost use Rattle.run_command.specs.Faults.{Counts};
ghost use Rattle.run_command.specs.Inner.{RanInWorld};
ghost use Rattle.run_command.specs.Running.{BeganSo, IsBegun, IsHeldAhead, IsNativeAhead, RanHeld, RanNatively, is_native_world, run_of};

use command_words::{RunOptions, RunWorld};
use gv_io::Sink;
use hub_engine::{Budgets, Engine, EngineEnd, EngineRefusal};
use machine_scripts::followers_run_scripts;
use machine_told::posts_and_answers_are_told;
use machine_trace_laws::{runs_are_lawful, scripts_run_lawfully};
use scenario_check::Checked;
use std::alloc::Global;
use world::{Held, ScriptWorld, World};

/// The workers of a script, which has none to start.
const SCRIPT_WORKERS: u32 = 1;

/// The run was broken off: its trace could not be written, or memory ran out.
pub fn is_broken_off(end: EngineEnd) -> bool
    ensures { result ≡ is_broken_off end }
{
    matches!(end, EngineEnd::WriteFault | EngineEnd::Memory)
}

/// The end of the run, once out has handed on what was written to it.
#[tactic(auto, using(gv_io::proofs::StreamLaws::hands))]
fn handed_on<K: Sink>(end: EngineEnd, out: &mut K) -> EngineEnd
    ensures same { K.written out.new ≡ K.written out.old }
    ensures hands { result ≢ EngineEnd.WriteFault → result ≢ EngineEnd.Memory → K.handed out.new ≡ K.written out.new }
    ensures never_taken_back { Extends (K.handed out.old) (K.handed out.new) }
    ensures end { (result ≡ end) ⊎ (result ≡ EngineEnd.WriteFault) }
    ensures failed { result ≡ EngineEnd.WriteFault → (end ≡ EngineEnd.WriteFault) ⊎ HasRisen (K.faults out.old) (K.faults out.new) }
    ensures unfailed { result ≢ EngineEnd.WriteFault → K.faults out.new ≡ K.faults out.old }
    ensures never_falls { K.faults out.old ≤ K.faults out.new }
{
    if is_broken_off(end) {
        return end;
    }
    match out.flush() {
        Ok(()) => end,
        Err(_) => EngineEnd::WriteFault,
    }
}

/// Runs the engine in the world, which is begun with so many workers before the run and finished after it. None: there
/// was no memory for the world to begin, and nothing was done.
fn run_in_world<K: Sink, W: World>(
    alloc: Global,
    engine: Engine,
    workers: u32,
    world: &mut W,
    out: &mut K,
) -> Option<EngineEnd>
    requires rests { (W.meaning world.old).runs ≡ false }
    requires some { 0 < workers }
    requires few { workers ≤ MOST_WORKERS }
    ensures ran { IfSome result (λ end. RanInWorld end (run engine.scenario engine.turns engine.moves) workers
        (W.meaning world.old) (W.meaning world.new) (W.stands_for world.new) (K.written out.old) (K.written out.new)) }
    ensures counts { IfSome result (λ end. Counts (end ≡ EngineEnd.WriteFault) (K.faults out.old) (K.faults out.new)) }
    ensures ahead { IfSome result (λ end. W.waits ≡ true → WroteAhead (run engine.scenario engine.turns engine.moves) (W.meaning world.new).answers (K.written out.old) (K.handed out.new)) }
    ensures hands { IfSome result (λ end. end ≢ EngineEnd.WriteFault → end ≢ EngineEnd.Memory → K.handed out.new ≡ K.written out.new) }
    ensures kept { IfNone result (W.meaning world.new ≡ W.meaning world.old) }
    ensures unwritten { IfNone result (K.written out.new ≡ K.written out.old) }
    ensures untried { IfNone result (K.faults out.new ≡ K.faults out.old) }
{
    let Ok(()) = world.begin(workers) else {
        engine.give_up();
        return None;
    };
    let end = engine.run(alloc, world, out).end;
    world.finish();
    Some(handed_on(end, out))
}

/// Runs the engine under the rule of a script of this tick.
fn run_script<K: Sink>(alloc: Global, engine: Engine, tick: u64, out: &mut K) -> EngineEnd
    requires well_formed { IsWellFormed engine.scenario }
    ensures written { RanTo result (script_run engine.scenario engine.turns engine.moves tick) (K.written out.old) (K.written out.new) }
    ensures lawful { meets_laws (script_run engine.scenario engine.turns engine.moves tick).lines ≡ true }
    ensures hands { result ≢ EngineEnd.WriteFault → result ≢ EngineEnd.Memory → K.handed out.new ≡ K.written out.new }
    ensures counts { Counts (result ≡ EngineEnd.WriteFault) (K.faults out.old) (K.faults out.new) }
{
    followers_run_scripts();
    scripts_run_lawfully();
    let mut world = ScriptWorld::new(alloc, tick);
    match run_in_world(alloc, engine, SCRIPT_WORKERS, &mut world, out) {
        Some(end) => end,
        None => EngineEnd::Memory,
    }
}

/// Runs the engine with native workers, so many of them.
fn run_natively<K: Sink, W: World>(
    alloc: Global,
    engine: Engine,
    workers: u32,
    native: &mut W,
    out: &mut K,
) -> EngineEnd
    requires rests { (W.meaning native.old).runs ≡ false }
    requires some { 0 < workers }
    requires few { workers ≤ MOST_WORKERS }
    requires well_formed { IsWellFormed engine.scenario }
    ensures begun { ((meets_laws (run engine.scenario engine.turns engine.moves (W.meaning native.new).answers).lines ≡ true)
        × WroteAhead (run engine.scenario engine.turns engine.moves) (W.meaning native.new).answers (K.written out.old) (K.written out.new))
        ⊎ HadNoMemory result (K.written out.old) (K.written out.new) }
    ensures began { IsNativeAhead W.waits (run engine.scenario engine.turns engine.moves) (W.meaning native.new) (K.written out.old) (K.written out.new) (K.handed out.new)
        ⊎ ((W.meaning native.new ≡ W.meaning native.old) × HadNoMemory result (K.written out.old) (K.written out.new)) }
    ensures written { RanTo result (run engine.scenario engine.turns engine.moves (W.meaning native.new).answers) (K.written out.old) (K.written out.new) }
    ensures native { result ≢ EngineEnd.WriteFault → result ≢ EngineEnd.Memory →
        RanNatively workers (run engine.scenario engine.turns engine.moves (W.meaning native.new).answers) (W.meaning native.new) (W.stands_for native.new) }
    ensures rests { (W.meaning native.new).runs ≡ false }
    ensures hands { result ≢ EngineEnd.WriteFault → result ≢ EngineEnd.Memory → K.handed out.new ≡ K.written out.new }
    ensures counts { Counts (result ≡ EngineEnd.WriteFault) (K.faults out.old) (K.faults out.new) }
{
    posts_and_answers_are_told();
    runs_are_lawful();
    match run_in_world(alloc, engine, workers, native, out) {
        Some(end) => end,
        None => EngineEnd::Memory,
    }
}

/// Runs the engine with native workers, so many of them, whose results are told in the order of a script.
fn run_held<K: Sink, W: World>(
    alloc: Global,
    engine: Engine,
    workers: u32,
    native: &mut W,
    out: &mut K,
) -> EngineEnd
    requires rests { (W.meaning native.old).runs ≡ false }
    requires some { 0 < workers }
    requires few { workers ≤ MOST_WORKERS }
    requires well_formed { IsWellFormed engine.scenario }
    ensures written { RanTo result (script_run engine.scenario engine.turns engine.moves 0) (K.written out.old) (K.written out.new) }
    ensures lawful { meets_laws (script_run engine.scenario engine.turns engine.moves 0).lines ≡ true }
    ensures began { IsHeldAhead W.waits (run engine.scenario engine.turns engine.moves) (W.meaning native.new) (K.written out.old) (K.written out.new) (K.handed out.new)
        ⊎ HadNoMemory result (K.written out.old) (K.written out.new) }
    ensures native { result ≢ EngineEnd.WriteFault → result ≢ EngineEnd.Memory →
        RanHeld workers (script_run engine.scenario engine.turns engine.moves 0) (W.meaning native.new) (W.stands_for native.new) }
    ensures rests { (W.meaning native.new).runs ≡ false }
    ensures hands { result ≢ EngineEnd.WriteFault → result ≢ EngineEnd.Memory → K.handed out.new ≡ K.written out.new }
    ensures counts { Counts (result ≡ EngineEnd.WriteFault) (K.faults out.old) (K.faults out.new) }
{
    followers_run_scripts();
    scripts_run_lawfully();
    posts_and_answers_are_told();
    let mut held = Held::new(alloc, native);
    let ran = run_in_world(alloc, engine, workers, &mut held, out);
    // What the world that was lent stands for is known once it is given back.
    let _ = held.into_inner();
    match ran {
        Some(end) => end,
        None => EngineEnd::Memory,
    }
}

/// Runs the scenario with these options, and writes its trace to out.
pub fn run_scenario<K: Sink, W: World>(
    alloc: Global,
    checked: Checked,
    options: RunOptions,
    native: &mut W,
    out: &mut K,
) -> EngineEnd
    requires budgets { AreBudgets options.turns options.moves }
    requires range { IsWorldInRange options.world }
    requires rests { (W.meaning native.old).runs ≡ false }
    ensures written { RanTo result (run_of options (W.meaning native.new).answers checked) (K.written out.old) (K.written out.new) }
    ensures native { (workers : ℕ) → options.world ≡ RunWorld.Native workers → result ≢ EngineEnd.WriteFault → result ≢ EngineEnd.Memory →
        RanNatively workers (run_of options (W.meaning native.new).answers checked) (W.meaning native.new) (W.stands_for native.new) }
    ensures held { (workers : ℕ) → options.world ≡ RunWorld.Held workers → result ≢ EngineEnd.WriteFault → result ≢ EngineEnd.Memory →
        RanHeld workers (run_of options (W.meaning native.new).answers checked) (W.meaning native.new) (W.stands_for native.new) }
    ensures begun { IsBegun options checked (W.meaning native.new).answers (K.written out.old) (K.written out.new)
        ⊎ HadNoMemory result (K.written out.old) (K.written out.new) }
    ensures began { BeganSo W.waits options checked (W.meaning native.old) (W.meaning native.new) (K.written out.old) (K.written out.new) (K.handed out.new) (K.faults out.old) (K.faults out.new) }
    ensures untouched { is_native_world options.world ≡ false → native.new ≡ native.old }
    ensures rests { (W.meaning native.new).runs ≡ false }
    ensures hands { result ≢ EngineEnd.WriteFault → result ≢ EngineEnd.Memory → K.handed out.new ≡ K.written out.new }
    ensures counts { Counts (result ≡ EngineEnd.WriteFault) (K.faults out.old) (K.faults out.new) }
{
    let budgets = Budgets {
        turns: options.turns,
        moves: options.moves,
    };
    // That a checked scenario is well formed is known of the one that is looked at.
    let _ = checked.scenario();
    let engine = match Engine::new(alloc, checked, budgets) {
        Ok(engine) => engine,
        Err(EngineRefusal::Memory) => return EngineEnd::Memory,
        // The budgets are within what a run may be given.
        Err(EngineRefusal::Budgets) => unreachable!(),
    };
    match options.world {
        RunWorld::Script(tick) => run_script(alloc, engine, tick, out),
        RunWorld::Native(workers) => run_natively(alloc, engine, workers, native, out),
        RunWorld::Held(workers) => run_held(alloc, engine, workers, native, out),
    }
}
