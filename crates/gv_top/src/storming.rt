//! The storm of many greenlets: its run into a sink that counts lines, and the summary of that.
ghost use Rattle.std.specs.Prelude.{◌≡◌, ◌≢◌, IfOk, IfSome};
ghost use Rattle.machine.specs.Run.{Ran as AnyRan};
ghost use Rattle.gv_top.specs.Answers.{Answer, IsStormAnswer, answer_of_storm};
ghost use Rattle.gv_top.specs.Counted.{WasCounted};
ghost use Rattle.gv_top.specs.Storming.{storm_run, summary};
ghost use Rattle.run_command.specs.Faults.{Counts};
ghost use Rattle.gv_top.specs.Top.{Decided, HandsOn};
ghost use Rattle.gv_top.specs.Status.{verdict_of_run, verdict_status};
ghost use Rattle.gv_top.specs.Inner.{IsExplained};

use crate::status::{Failure, Verdict, verdict_of_run, verdict_of_text};
use crate::top::send;
use gv_io::Sink;
use gv_values::{MOST_MOVES, MOST_TURNS};
use hub_engine::{Budgets, Engine, EngineEnd, EngineRefusal, Ran};
use line_counter::LineCounter;
use machine_scripts::followers_run_scripts;
use run_command::{is_broken_off, storm_text};
use scenario_check::Checked;
use scenario_reading::read_scenario;
use serve_command::push_number_line;
use std::alloc::{AllocError, Global};
use world::{ScriptWorld, World};

/// The budgets of a storm.
const BUDGETS: Budgets = Budgets {
    turns: MOST_TURNS,
    moves: MOST_MOVES,
};

/// The tick of a storm's script, in milliseconds.
const TICK: u64 = 0;

/// The workers of a storm's script, which has none to start.
const WORKERS: u32 = 1;

/// A run whose lines were counted.
#[derive(Clone, Copy)]
struct CountedRun {
    ran: Ran,
    lines: u64,
}

/// The summary of a run as the storm of so many greenlets.
fn summary_text(alloc: Global, size: u32, run: &CountedRun) -> Result<Vec<u8>, AllocError>
    ensures { IfOk result (λ text. (r : AnyRan) → WasCounted run.now.ran run.now.lines r → text.items ≡ summary size r) }
{
    let mut text = Vec::new(alloc);
    push_number_line(b"storm", u64::from(size), &mut text)?;
    push_number_line(b"greenlets", u64::from(run.ran.greenlets), &mut text)?;
    push_number_line(b"turns", run.ran.turns, &mut text)?;
    push_number_line(b"moves", run.ran.moves, &mut text)?;
    push_number_line(b"moment", run.ran.moment, &mut text)?;
    push_number_line(b"lines", run.lines, &mut text)?;
    Ok(text)
}

/// Runs the scenario as a storm, and counts the lines of its trace. None: memory ran out, or there were more lines than
/// 64 bits count.
fn count_run(alloc: Global, checked: Checked) -> Option<CountedRun>
    ensures { IfSome result (λ run. WasCounted run.ran run.lines (storm_run checked)) }
{
    followers_run_scripts();
    let mut world = ScriptWorld::new(alloc, TICK);
    let Ok(()) = world.begin(WORKERS) else {
        checked.give_up();
        return None;
    };
    // The engine is made last, so that no exit has one to drop.
    let engine = match Engine::new(alloc, checked, BUDGETS) {
        Ok(engine) => engine,
        Err(EngineRefusal::Memory) => return None,
        // The budgets are within what a run may be given.
        Err(EngineRefusal::Budgets) => unreachable!(),
    };
    let mut counter = LineCounter::new();
    let ran = engine.run(alloc, &mut world, &mut counter);
    if is_broken_off(ran.end) {
        return None;
    }
    Some(CountedRun {
        ran,
        lines: counter.lines(),
    })
}

/// Runs the scenario as the storm of so many greenlets, and writes its summary to out.
#[tactic(auto, using(gv_io::proofs::StreamLaws::writes))]
fn sum_up<K: Sink>(alloc: Global, size: u32, checked: Checked, out: &mut K) -> EngineEnd
    ensures answer { Decided (verdict_of_run result) (answer_of_storm size (storm_run checked)) (K.written out.old) (K.written out.new) }
    ensures hands { HandsOn (verdict_status (verdict_of_run result)) (K.written out.old) (K.handed out.old) (K.written out.new) (K.handed out.new) }
    ensures counts { Counts (result ≡ EngineEnd.WriteFault) (K.faults out.old) (K.faults out.new) }
{
    let Some(run) = count_run(alloc, checked) else {
        return EngineEnd::Memory;
    };
    let Ok(text) = summary_text(alloc, size, &run) else {
        return EngineEnd::Memory;
    };
    match send(out, text.as_slice()) {
        Ok(()) => run.ran.end,
        Err(_) => EngineEnd::WriteFault,
    }
}

/// Runs the storm of so many greenlets, and writes its summary to out.
pub fn answer_storm<K: Sink>(alloc: Global, size: u32, out: &mut K) -> Verdict
    ensures answer { (a : Answer) → IsStormAnswer size a → Decided result a (K.written out.old) (K.written out.new) }
    ensures command { verdict_status result ≢ 2 }
    ensures read { verdict_status result ≢ 4 }
    ensures no_net { verdict_status result ≢ 10 }
    ensures explained { IsExplained result }
    ensures hands { HandsOn (verdict_status result) (K.written out.old) (K.handed out.old) (K.written out.new) (K.handed out.new) }
    ensures writes { Counts (verdict_status result ≡ 5) (K.faults out.old) (K.faults out.new) }
{
    let Ok(text) = storm_text(alloc, size) else {
        return Verdict::Broke(Failure::Memory);
    };
    match read_scenario(alloc, text.as_slice()) {
        Err(refusal) => verdict_of_text(refusal),
        Ok(checked) => verdict_of_run(sum_up(alloc, size, checked, out)),
    }
}
