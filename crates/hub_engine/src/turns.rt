//! Turns, and the whole run, whose trace is given out step by step.
ghost use Rattle.std.specs.Prelude.{◌≡◌, ◌+◌, ◌<◌, ◌≤◌, ℕ, suc, Bool, true, false, [], OnOk, IfOk, IsSome, None, Some};
ghost use Rattle.trace_text.specs.Line.{text_of};
ghost use Rattle.trace_reader.specs.Ranges.{LinesFit};
ghost use Rattle.gv_io.specs.Streams.{Extends};
ghost use Rattle.gv_values.specs.declared.limits.TheConstants.{MOST_MOVES, MOST_TURNS};
ghost use Rattle.machine.specs.declared.items.Item.{Item as AnyItem};
ghost use Rattle.machine.specs.Deliveries.{deliver};
ghost use Rattle.machine.specs.Questions.{question as question_of};
ghost use Rattle.machine.specs.Run.{GoingOn, Source, after_question, asks, deliveries, least_below, run, runs, runs_on, silent, stopped, turn};
ghost use Rattle.hub_engine.specs.Ends.{end_of};
ghost use Rattle.hub_engine.specs.Outside.{ArePostable, Gives, Passes, PostsOn, out_of, outside, world_alone};
ghost use Rattle.hub_engine.specs.Ready.{IsPrepared};
ghost use Rattle.hub_engine.specs.Stands.{next_at};
ghost use Rattle.hub_engine.specs.Tied.{IsTied, IsTiedAfter, IsTiedAt, IsTiedSomehow};
ghost use Rattle.hub_engine.specs.Within.{AreFewBudgets};
ghost use Rattle.hub_engine.specs.Written.{CameTo, Counts, RunsTo, Rounds, RunsOn, Writes, ended_as, from_turn};

use crate::broken::Broken;
use crate::deliver::{deliver_item, throw_into};
use crate::legs::step_greenlet;
use crate::life::start_body;
use crate::moves::finish;
use crate::run::EngineEnd;
use crate::stand::{Came, Progress, Stand, is_silent};
use body_frames::Running;
use gv_io::Sink;
use gv_values::FaultKind;
use hub_state::Hub;
use machine::state::Post;
use scenario_tree::Items;
use std::alloc::{AllocError, Global};
use trace_reader::line_fits;
use trace_text::{Line, StopCause, write_line};
use world::{Question, World};

/// The text of the lines, each with LF, in place of what the text had.
#[tactic(auto, using(crate::proofs::Texts::text_more, crate::proofs::Texts::fit_more))]
fn write_lines(lines: &[Line], text: &mut Vec<u8>) -> Result<(), AllocError>
    ensures text { OnOk result (text.new.items ≡ text_of lines.now) }
    ensures fit { OnOk result (LinesFit lines.now) }
{
    text.clear();
    for line in lines {
        line_fits(line);
        write_line(line, text)?;
        text.push(b'\n')?;
    }
    Ok(())
}

/// The jobs are posted.
#[tactic(auto, using(crate::proofs::Posting::post_new))]
fn post_all<W: World>(world: &mut W, posts: &[Post]) -> Result<(), AllocError>
    requires runs { (W.meaning world.old).runs ≡ true }
    requires new { ArePostable (W.meaning world.old).posts posts.now }
    ensures posted { PostsOn result (world_alone W.World world.old) (world_alone W.World world.new) posts.now }
{
    for post in posts {
        world.post(post.number, post.job, post.takes)?;
    }
    Ok(())
}

/// The lines and posts of the step under way are given out; mostly there are none. The text is written over: it has room
/// for the lines, so that few steps allocate.
#[tactic(auto, using(crate::proofs::Giving::given_silent))]
fn give_out<W: World, K: Sink>(
    hub: &mut Hub,
    world: &mut W,
    sink: &mut K,
    text: &mut Vec<u8>,
) -> Result<(), Broken>
    requires runs { (W.meaning world.old).runs ≡ true }
    requires new { ArePostable (W.meaning world.old).posts hub.old.posts }
    ensures given { Gives result (outside W.World K.Sink world.old sink.old) (outside W.World K.Sink world.new sink.new) hub.old.lines hub.old.posts }
    ensures silent { OnOk result (hub.new ≡ silent hub.old) }
    ensures counts { Counts result (K.faults sink.old) (K.faults sink.new) }
{
    if is_silent(hub) {
        return Ok(());
    }
    Ok(give_out_said(hub, world, sink, text)?)
}

/// The lines and posts of the step under way are given out.
#[tactic(auto, using(crate::proofs::Trying::tries, crate::proofs::Giving::part_nothing))]
fn give_out_said<W: World, K: Sink>(
    hub: &mut Hub,
    world: &mut W,
    sink: &mut K,
    text: &mut Vec<u8>,
) -> Result<(), Broken>
    requires runs { (W.meaning world.old).runs ≡ true }
    requires new { ArePostable (W.meaning world.old).posts hub.old.posts }
    ensures given { Gives result (outside W.World K.Sink world.old sink.old) (outside W.World K.Sink world.new sink.new) hub.old.lines hub.old.posts }
    ensures silent { OnOk result (hub.new ≡ silent hub.old) }
    ensures counts { Counts result (K.faults sink.old) (K.faults sink.new) }
{
    write_lines(hub.lines(), text)?;
    post_all(world, hub.posts())?;
    hub.forget_step();
    sink.write_all(text.as_slice())?;
    Ok(())
}

/// As `give_out`, with a text of its own.
fn give_out_once<W: World, K: Sink>(
    alloc: Global,
    hub: &mut Hub,
    world: &mut W,
    sink: &mut K,
) -> Result<(), Broken>
    requires runs { (W.meaning world.old).runs ≡ true }
    requires new { ArePostable (W.meaning world.old).posts hub.old.posts }
    ensures given { Gives result (outside W.World K.Sink world.old sink.old) (outside W.World K.Sink world.new sink.new) hub.old.lines hub.old.posts }
    ensures silent { OnOk result (hub.new ≡ silent hub.old) }
    ensures counts { Counts result (K.faults sink.old) (K.faults sink.new) }
{
    let mut text = Vec::new(alloc);
    Ok(give_out(hub, world, sink, &mut text)?)
}

/// As `give_out`, before a question: what was written is handed on where the answer may be long in coming.
#[tactic(auto, using(crate::proofs::Trying::all_handed, crate::proofs::Trying::all_out))]
fn give_out_before<W: World, K: Sink>(
    alloc: Global,
    hub: &mut Hub,
    world: &mut W,
    sink: &mut K,
) -> Result<(), Broken>
    requires runs { (W.meaning world.old).runs ≡ true }
    requires new { ArePostable (W.meaning world.old).posts hub.old.posts }
    ensures given { Gives result (outside W.World K.Sink world.old sink.old) (outside W.World K.Sink world.new sink.new) hub.old.lines hub.old.posts }
    ensures out { OnOk result (out_of W.waits (K.written sink.new) (K.handed sink.new) ≡ K.written sink.new) }
    ensures silent { OnOk result (hub.new ≡ silent hub.old) }
    ensures counts { Counts result (K.faults sink.old) (K.faults sink.new) }
{
    give_out_once(alloc, hub, world, sink)?;
    if world.may_wait() {
        sink.flush()?;
    }
    Ok(())
}

/// The greenlet that is under way moves until it parks or ends, at most so many moves.
fn run_greenlet<W: World, K: Sink>(
    alloc: Global,
    hub: &mut Hub,
    world: &mut W,
    sink: &mut K,
    at: Stand,
    moves: u64,
) -> Result<Came, Broken>
    requires tied { IsTiedSomehow (W.meaning world.old) (next_at at hub.old) }
    requires few { hub.old.moves + moves ≤ MOST_MOVES }
    ensures tied { (may : Bool) (turns : ℕ) → IsTiedAt may turns (W.meaning world.old) (next_at at hub.old) → IfOk result (λ came. IsTiedAfter came may turns (W.meaning world.new) hub.new) }
    ensures given { Passes result (outside W.World K.Sink world.old sink.old) (outside W.World K.Sink world.new sink.new) (runs moves (next_at at hub.old)) }
    ensures next { IfOk result (λ came. CameTo came (runs moves (next_at at hub.old)).next hub.new) }
    ensures counts { Counts result (K.faults sink.old) (K.faults sink.new) }
{
    let mut at = at;
    let mut left = moves;
    let mut text = Vec::new(alloc);
    loop {
        give_out(hub, world, sink, &mut text)?;
        match at {
            Stand::Resting => return Ok(Came::ToRest),
            Stand::Over(cause) => return Ok(Came::ToAnEnd(cause)),
            Stand::Going(g, body) => {
                if left == 0 {
                    return Ok(Came::ToAnEnd(StopCause::NoMoves));
                }
                let mut running = Running::of(alloc, body);
                let mut progress = Progress::Stays;
                let before = step_greenlet(alloc, hub, g, &mut running, left, &mut progress)?;
                left -= before + 1;
                at = finish(alloc, hub, g, running, progress)?;
            }
        }
    }
}

/// What a turn delivers, as of its beginning.
#[derive(Clone, Copy)]
struct Due {
    /// The numbers of its items stand below this.
    mark: u64,
    /// They are at most so many.
    most: usize,
}

/// The items that are due are delivered, the least number first.
fn deliver_below<W: World, K: Sink>(
    alloc: Global,
    hub: &mut Hub,
    world: &mut W,
    sink: &mut K,
    due: Due,
    budget: u64,
) -> Result<Came, Broken>
    requires tied { IsTied true hub.old.turns (W.meaning world.old) hub.old }
    requires few { budget ≤ MOST_MOVES }
    ensures tied { IfOk result (λ came. IsTiedAfter came true hub.old.turns (W.meaning world.new) hub.new) }
    ensures given { Passes result (outside W.World K.Sink world.old sink.old) (outside W.World K.Sink world.new sink.new) (deliveries due.most budget due.mark hub.old) }
    ensures next { IfOk result (λ came. CameTo came (deliveries due.most budget due.mark hub.old).next hub.new) }
    ensures counts { Counts result (K.faults sink.old) (K.faults sink.new) }
{
    let mut left = due.most;
    while left > 0 {
        left -= 1;
        if !hub.has_below(due.mark) {
            return Ok(Came::ToRest);
        }
        match deliver_one(alloc, hub, world, sink, due.mark, budget)? {
            Came::ToRest => {}
            Came::ToAnEnd(cause) => return Ok(Came::ToAnEnd(cause)),
        }
    }
    Ok(Came::ToRest)
}

/// The item with the least number below the mark is delivered, and its greenlet runs until it parks or ends.
#[tactic(auto, using(crate::proofs::Giving::part_nothing, crate::proofs::Tying::tied_delivered))]
fn deliver_one<W: World, K: Sink>(
    alloc: Global,
    hub: &mut Hub,
    world: &mut W,
    sink: &mut K,
    mark: u64,
    budget: u64,
) -> Result<Came, Broken>
    requires there { IsSome (least_below mark hub.old.items) }
    requires tied { IsTied true hub.old.turns (W.meaning world.old) hub.old }
    requires few { budget ≤ MOST_MOVES }
    ensures tied { IfOk result (λ came. IsTiedAfter came true hub.old.turns (W.meaning world.new) hub.new) }
    ensures given { (i : AnyItem) → least_below mark hub.old.items ≡ Some i → Passes result (outside W.World K.Sink world.old sink.old) (outside W.World K.Sink world.new sink.new) (runs_on budget hub.old (deliver i hub.old)) }
    ensures next { (i : AnyItem) → least_below mark hub.old.items ≡ Some i →
        IfOk result (λ came. CameTo came (runs_on budget hub.old (deliver i hub.old)).next hub.new) }
    ensures counts { Counts result (K.faults sink.old) (K.faults sink.new) }
{
    let left = budget.saturating_sub(hub.moves());
    let next = deliver_item(alloc, hub, mark)?;
    Ok(run_greenlet(alloc, hub, world, sink, next, left)?)
}

/// A turn: what has a number by its beginning is delivered.
fn turn<W: World, K: Sink>(
    alloc: Global,
    hub: &mut Hub,
    world: &mut W,
    sink: &mut K,
    budget: u64,
) -> Result<Came, Broken>
    requires tied { IsTied false hub.old.turns (W.meaning world.old) hub.old }
    requires left { hub.old.turns < MOST_TURNS }
    requires few { budget ≤ MOST_MOVES }
    ensures tied { IfOk result (λ came. IsTiedAfter came true (hub.old.turns + 1) (W.meaning world.new) hub.new) }
    ensures given { Passes result (outside W.World K.Sink world.old sink.old) (outside W.World K.Sink world.new sink.new) (turn budget hub.old) }
    ensures next { IfOk result (λ came. CameTo came (turn budget hub.old).next hub.new) }
    ensures counts { Counts result (K.faults sink.old) (K.faults sink.new) }
{
    hub.count_turn();
    let due = Due {
        mark: hub.next_ready(),
        most: hub.items_len(),
    };
    Ok(deliver_below(alloc, hub, world, sink, due, budget)?)
}

/// The question is asked, and its answer taken. The block line before it was given out.
fn take_answer<W: World, K: Sink>(
    alloc: Global,
    hub: &mut Hub,
    world: &mut W,
    sink: &mut K,
    question: Question,
) -> Result<(), Broken>
    requires tied { IsTied true hub.old.turns (W.meaning world.old) hub.old }
    requires asked { question_of hub.old ≡ Some question }
    requires out { out_of W.waits (K.written sink.old) (K.handed sink.old) ≡ K.written sink.old }
    ensures tied { OnOk result (IsTied false hub.old.turns (W.meaning world.new) hub.new) }
    ensures ran { (go : GoingOn) → RunsOn result (outside W.World K.Sink world.old sink.old) (outside W.World K.Sink world.new sink.new)
        (λ later. asks go question (Source.Given later) hub.old) (λ later. go (Source.Given later) hub.new) }
    ensures counts { Counts result (K.faults sink.old) (K.faults sink.new) }
{
    let answer = world.ask(question)?;
    hub.take(answer)?;
    Ok(give_out_once(alloc, hub, world, sink)?)
}

/// The question is asked and answered, after its block line.
fn ask_world<W: World, K: Sink>(
    alloc: Global,
    hub: &mut Hub,
    world: &mut W,
    sink: &mut K,
    question: Question,
) -> Result<(), Broken>
    requires tied { IsTied true hub.old.turns (W.meaning world.old) hub.old }
    requires asked { question_of hub.old ≡ Some question }
    ensures tied { OnOk result (IsTied false hub.old.turns (W.meaning world.new) hub.new) }
    ensures ran { (go : GoingOn) (budget : ℕ) → RunsOn result (outside W.World K.Sink world.old sink.old) (outside W.World K.Sink world.new sink.new)
        (λ later. after_question go budget (Some question) (Source.Given later) hub.old) (λ later. go (Source.Given later) hub.new) }
    ensures counts { Counts result (K.faults sink.old) (K.faults sink.new) }
{
    hub.block()?;
    give_out_before(alloc, hub, world, sink)?;
    Ok(take_answer(alloc, hub, world, sink, question)?)
}

/// LoopExit is thrown into main, after its block line.
fn throw_loop_exit<W: World, K: Sink>(
    alloc: Global,
    hub: &mut Hub,
    world: &mut W,
    sink: &mut K,
    budget: u64,
) -> Result<Came, Broken>
    requires tied { IsTied true hub.old.turns (W.meaning world.old) hub.old }
    requires few { budget ≤ MOST_MOVES }
    ensures tied { IfOk result (λ came. IsTiedAfter came false hub.old.turns (W.meaning world.new) hub.new) }
    ensures ran { (go : GoingOn) → Rounds result (outside W.World K.Sink world.old sink.old) (outside W.World K.Sink world.new sink.new)
        (λ later. after_question go budget None (Source.Given later) hub.old) (λ s later. go (Source.Given later) s) hub.new }
    ensures counts { Counts result (K.faults sink.old) (K.faults sink.new) }
{
    hub.block()?;
    let left = budget.saturating_sub(hub.moves());
    let at = throw_into(alloc, hub, 0, FaultKind::LoopExit)?;
    Ok(run_greenlet(alloc, hub, world, sink, at, left)?)
}

/// The end of a turn: its question, or LoopExit where nothing can come.
fn end_turn<W: World, K: Sink>(
    alloc: Global,
    hub: &mut Hub,
    world: &mut W,
    sink: &mut K,
    budget: u64,
) -> Result<Came, Broken>
    requires tied { IsTied true hub.old.turns (W.meaning world.old) hub.old }
    requires few { budget ≤ MOST_MOVES }
    ensures tied { IfOk result (λ came. IsTiedAfter came false hub.old.turns (W.meaning world.new) hub.new) }
    ensures ran { (go : GoingOn) → Rounds result (outside W.World K.Sink world.old sink.old) (outside W.World K.Sink world.new sink.new)
        (λ later. after_question go budget (question_of hub.old) (Source.Given later) hub.old) (λ s later. go (Source.Given later) s) hub.new }
    ensures counts { Counts result (K.faults sink.old) (K.faults sink.new) }
{
    match hub.question() {
        Some(question) => {
            ask_world(alloc, hub, world, sink, question)?;
            Ok(Came::ToRest)
        }
        None => Ok(throw_loop_exit(alloc, hub, world, sink, budget)?),
    }
}

/// A turn with its end.
fn round<W: World, K: Sink>(
    alloc: Global,
    hub: &mut Hub,
    world: &mut W,
    sink: &mut K,
    budget: u64,
) -> Result<Came, Broken>
    requires tied { IsTied false hub.old.turns (W.meaning world.old) hub.old }
    requires left { hub.old.turns < MOST_TURNS }
    requires few { budget ≤ MOST_MOVES }
    ensures tied { IfOk result (λ came. IsTiedAfter came false (hub.old.turns + 1) (W.meaning world.new) hub.new) }
    ensures ran { (turns : ℕ) → Rounds result (outside W.World K.Sink world.old sink.old) (outside W.World K.Sink world.new sink.new)
        (from_turn (suc turns) budget hub.old) (from_turn turns budget) hub.new }
    ensures counts { Counts result (K.faults sink.old) (K.faults sink.new) }
{
    match turn(alloc, hub, world, sink, budget)? {
        Came::ToAnEnd(cause) => Ok(Came::ToAnEnd(cause)),
        Came::ToRest => Ok(end_turn(alloc, hub, world, sink, budget)?),
    }
}

/// The stop line is given out.
#[tactic(auto, using(crate::proofs::Trying::tries))]
fn stop<K: Sink>(
    alloc: Global,
    hub: &Hub,
    sink: &mut K,
    cause: StopCause,
) -> Result<EngineEnd, Broken>
    ensures written { Writes result (K.written sink.old) (K.written sink.new) (stopped cause hub.now).lines }
    ensures end { IfOk result (λ end. end ≡ end_of cause) }
    ensures out { (waits : Bool) → Extends (out_of waits (K.written sink.old) (K.handed sink.old)) (out_of waits (K.written sink.new) (K.handed sink.new)) }
    ensures counts { Counts result (K.faults sink.old) (K.faults sink.new) }
{
    let end = end_of(&cause);
    let line = Line::Stop {
        cause,
        turns: hub.turns(),
        moves: hub.moves(),
    };
    let mut text = Vec::new(alloc);
    write_lines(&[line], &mut text)?;
    sink.write_all(text.as_slice())?;
    Ok(end)
}

/// The run from the beginning of a turn, for at most so many turns.
fn run_turns<W: World, K: Sink>(
    alloc: Global,
    hub: &mut Hub,
    world: &mut W,
    sink: &mut K,
    turns: u64,
    moves: u64,
) -> Result<EngineEnd, Broken>
    requires tied { IsTied false hub.old.turns (W.meaning world.old) hub.old }
    requires left { hub.old.turns + turns ≤ MOST_TURNS }
    requires few { moves ≤ MOST_MOVES }
    ensures ran { RunsTo result (outside W.World K.Sink world.old sink.old) (outside W.World K.Sink world.new sink.new) (from_turn turns moves hub.old) hub.new }
    ensures counts { Counts result (K.faults sink.old) (K.faults sink.new) }
{
    let mut left = turns;
    while left > 0 {
        left -= 1;
        match round(alloc, hub, world, sink, moves)? {
            Came::ToRest => {}
            Came::ToAnEnd(cause) => return Ok(stop(alloc, hub, sink, cause)?),
        }
    }
    Ok(stop(alloc, hub, sink, StopCause::NoTurns)?)
}

/// The whole run under the answers of the world, within these budgets.
pub fn run<W: World, K: Sink>(
    alloc: Global,
    hub: &mut Hub,
    world: &mut W,
    sink: &mut K,
    turns: u64,
    moves: u64,
) -> Result<EngineEnd, Broken>
    requires prepared { IsPrepared hub.old }
    requires few { AreFewBudgets turns moves }
    requires runs { (W.meaning world.old).runs ≡ true }
    requires no_posts { (W.meaning world.old).posts ≡ [] }
    requires no_answers { (W.meaning world.old).answers ≡ [] }
    ensures ran { RunsTo result (outside W.World K.Sink world.old sink.old) (outside W.World K.Sink world.new sink.new) (run hub.old.scenario turns moves) hub.new }
    ensures counts { Counts result (K.faults sink.old) (K.faults sink.new) }
{
    let at = start_body(alloc, hub, 0, Items::new(alloc))?;
    match run_greenlet(alloc, hub, world, sink, at, moves)? {
        Came::ToAnEnd(cause) => Ok(stop(alloc, hub, sink, cause)?),
        Came::ToRest => Ok(run_turns(alloc, hub, world, sink, turns, moves)?),
    }
}

/// The end that callers are told of this cause.
fn end_of(cause: &StopCause) -> EngineEnd
    ensures { result ≡ end_of cause.now }
{
    match cause {
        StopCause::Value(_) => EngineEnd::MainValue,
        StopCause::Fault(kind) => EngineEnd::MainFault(*kind),
        StopCause::NoTurns => EngineEnd::NoTurns,
        StopCause::NoMoves => EngineEnd::NoMoves,
        StopCause::NoGreenlets => EngineEnd::NoGreenlets,
        StopCause::NoLinks => EngineEnd::NoLinks,
        StopCause::NoKills => EngineEnd::NoKills,
    }
}

/// The end that callers are told of, where the run broke off too.
pub fn ended_as(ran: Result<EngineEnd, Broken>) -> EngineEnd
    ensures { result ≡ ended_as ran }
{
    match ran {
        Ok(end) => end,
        Err(Broken::Memory) => EngineEnd::Memory,
        Err(Broken::Write) => EngineEnd::WriteFault,
    }
}
