//! An example of gvr as a library: runs the scenario of standard input over a world and a sink of its own, and says how
//! many questions the run asked and how many bytes its trace has.
#![tactic(auto)]

mod counting;

use crate::counting::{AskedWorld, CountedSink};
use gv_io::{Sink, StdSink, StdSource, read_limited};
use hub_engine::{Budgets, Engine, EngineEnd};
use scenario_lang::MOST_LONG_TEXT;
use scenario_reading::read_scenario;
use std::io;
use std::process::ExitCode;
use world::{ScriptWorld, World};

/// How many turns and moves the run may make.
const BUDGETS: Budgets = Budgets {
    turns: 1000,
    moves: 100000,
};

/// Reads, checks and runs the scenario; whether its main ended with a value.
fn runs(rt: &HostRuntime) -> io::Result<bool> {
    let alloc = rt.alloc();
    let mut world = AskedWorld {
        world: ScriptWorld::new(alloc, 1),
        questions: 0,
    };
    world.begin(1)?;
    let mut trace = CountedSink {
        sink: StdSink::new(alloc, rt.stdout().lock(), 4096)?,
        bytes: 0,
    };
    let mut input = StdSource::new(rt.reader());
    let Ok(text) = read_limited(alloc, &mut input, MOST_LONG_TEXT) else {
        return Ok(false);
    };
    let Ok(scenario) = read_scenario(alloc, text.as_slice()) else {
        return Ok(false);
    };
    let Ok(engine) = Engine::new(alloc, scenario, BUDGETS) else {
        return Ok(false);
    };
    let ran = engine.run(alloc, &mut world, &mut trace);
    let is_out = trace.flush().is_ok();
    println!(rt;
        "{} questions, {} bytes, moment {}",
        world.questions, trace.bytes, ran.moment
    )?;
    Ok(is_out && ran.end == EngineEnd::MainValue)
}

fn main(rt: HostRuntime) -> ExitCode {
    match runs(&rt) {
        Ok(true) => ExitCode::SUCCESS,
        _ => ExitCode::FAILURE,
    }
}
