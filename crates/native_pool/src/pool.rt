//! The world of native threads.
ghost use Rattle.std.specs.Prelude.{◌≡◌, true, ℕ, ◌<◌, ◌≤◌, ◌-◌, ◌++◌, ◌∷◌, [], vec_len, vec_capacity, length, map, min, IfSome, IfOk, IsNone, is_ok};
ghost use Rattle.std.specs.Arc.{arc_value};
ghost use Rattle.gv_values.specs.declared.limits.TheConstants.{MOST_WORKERS};
ghost use Rattle.native_board.specs.declared.views.HubCell.TheVariants.{Stopped};
ghost use Rattle.native_board.specs.Rules.{begun, hub_cell};
ghost use Rattle.native_board.specs.Boards.{board_id, hub_board, hub_view, worker_view};
ghost use Rattle.native_board.specs.Given.{passes_board, next_cell, passes_left};
ghost use Rattle.world_rules.specs.Legal.{moment_of, IsLegal};
ghost use Rattle.world_rules.specs.declared.limits.TheConstants.{LAST_MOMENT};
ghost use Rattle.native_pool.specs.Desks.{Balances, SameCells, Rests, Settles, Gives, IsDue};
ghost use Rattle.native_pool.specs.Pools.{told_cell, numbers_from, joined_each, RefusedWhereRisen};
ghost use Rattle.native_pool.specs.Views.{desk_view, start_cell};

use crate::clock::Clock;
use crate::desk::Desk;
use crate::ear::Ear;
use crate::history::History;
use crate::spawner::Spawner;
use crate::task::{Gate, WorkerTask};
use gv_values::{Answer, Job, MOST_WORKERS};
use native_board::{Bell, Board, HubPass, Made, WorkerPasses};
use std::alloc::{AllocError, Global};
use std::marker::Model;
use std::mem;
use std::sync::{Arc, Wait};
use world::{Question, World};

/// How long the hub rests at most while it waits for the last jobs, in milliseconds.
const REST: u64 = 1000;

/// What a world of native threads is made of, beside the handle by which it waits.
#[derive(Drop)]
pub struct Parts<R, B, C, G, S> {
    /// What the hub listens with.
    pub ear: R,
    /// What a worker rings.
    pub bell: B,
    /// What the hub reads the time from.
    pub clock: C,
    /// What lets jobs pass.
    pub gate: G,
    /// What starts the workers.
    pub spawner: S,
}

/// The world of native threads: jobs are posted to the cells of a board, and each started worker takes those of its
/// cell. Jobs past the free cells wait in the hub. With no started worker the hub evaluates the oldest job itself when
/// it is asked.
///
/// The moment is the clock's last reading less the one at `begin`. `post` sweeps nothing: what is held stays held, in
/// its order, and the job waits behind the others. `ask` answers with the first held result, or with the first that a
/// sweep found, in the order of the cells. Nothing and Elapsed come only after a sweep in that call, with no result
/// held and no waiting job that could go on, and Elapsed only once the moment asked for has come. `finish` sweeps once
/// more, tells each started worker to end, and joins each; that a join waits for the end of a thread is the system's.
#[derive(Drop)]
pub struct ThreadWorld<H, R, B: Bell + Drop, C: Clock, G: Gate + Drop, S: Spawner<B, G>> {
    rt: H,
    alloc: Global,
    ear: R,
    bell: Arc<B, Global>,
    clock: C,
    gate: Arc<G, Global>,
    spawner: S,
    workers: u32,
    starts: Vec<Result<S::Running, S::Refused>>,
    desk: Option<Desk>,
    // What was known of the board when the workers were last told to end.
    ended: Option<HubPass>,
    history: History,
}

impl<H, R, B: Bell + Drop, C: Clock, G: Gate + Drop, S: Spawner<B, G>> Model
    for ThreadWorld<H, R, B, C, G, S> {
    ghost use Rattle.std.specs.Prelude.{map};
    ghost use Rattle.native_pool.specs.Pools.{Pool, IsSound};
    ghost use Rattle.native_pool.specs.Views.{pool_of, start_cell};

    ghost Value = { Pool };

    ghost view = { λ w. pool_of w.desk w.ended w.history w.workers (C.reading w.clock) (S.refusals w.spawner) (S.joins w.spawner) (map (start_cell S.running_cell S.refused_cell) w.starts.items) };

    ghost invariant = { λ w. IsSound (pool_of w.desk w.ended w.history w.workers (C.reading w.clock) (S.refusals w.spawner) (S.joins w.spawner) (map (start_cell S.running_cell S.refused_cell) w.starts.items)) };
}

impl<
    H: Wait + Drop,
    R: Ear + Drop,
    B: Bell + Drop,
    C: Clock + Drop,
    G: Gate + Drop,
    S: Spawner<B, G> + Drop,
> ThreadWorld<H, R, B, C, G, S> {
    ghost use Rattle.std.specs.Prelude.{false};
    ghost use Rattle.native_pool.specs.Pools.{pool_meaning};

    /// A world of these parts, each by itself, as `of_parts` makes it.
    pub fn new(
        alloc: Global,
        rt: H,
        ear: R,
        bell: B,
        clock: C,
        gate: G,
        spawner: S,
    ) -> Result<ThreadWorld<H, R, B, C, G, S>, AllocError>
        ensures stopped { IfOk result (λ world. (pool_meaning world).runs ≡ false) }
    {
        let parts = Parts {
            ear,
            bell,
            clock,
            gate,
            spawner,
        };
        ThreadWorld::of_parts(alloc, rt, parts)
    }

    /// A world that doesn't run yet. It keeps the handle, and shares bell and gate with the workers. `AllocError`:
    /// memory is wanting, and all that was handed in is given up.
    pub fn of_parts(
        alloc: Global,
        rt: H,
        parts: Parts<R, B, C, G, S>,
    ) -> Result<ThreadWorld<H, R, B, C, G, S>, AllocError>
        ensures stopped { IfOk result (λ world. (pool_meaning world).runs ≡ false) }
    {
        let Parts {
            ear,
            bell,
            clock,
            gate,
            spawner,
        } = parts;
        let bell = Arc::new(alloc, bell)?;
        let gate = Arc::new(alloc, gate)?;
        Ok(ThreadWorld {
            rt,
            alloc,
            ear,
            bell,
            clock,
            gate,
            spawner,
            workers: 0,
            starts: Vec::new(alloc),
            desk: None,
            ended: None,
            history: History::new(alloc),
        })
    }
}

/// The tasks of the workers whose passes these are, by cell.
fn tasks<B: Bell + Drop, G: Gate + Drop>(
    alloc: Global,
    board: &Arc<Board, Global>,
    mut passes: WorkerPasses,
    bell: &Arc<B, Global>,
    gate: &Arc<G, Global>,
) -> Result<Vec<WorkerTask<B, G>>, AllocError>
    requires board { passes_board passes ≡ board_id (arc_value board.now) }
    requires first { next_cell passes ≡ 0 }
    ensures cells { IfOk result (λ tasks. map (λ task. (worker_view task.pass).cell) tasks.items ≡ numbers_from 0 (passes_left passes)) }
    ensures count { IfOk result (λ tasks. vec_len tasks ≡ passes_left passes) }
{
    let mut tasks = Vec::new(alloc);
    while let Some(pass) = passes.next() {
        let task = WorkerTask::new(
            Arc::try_clone(board)?,
            pass,
            Arc::try_clone(bell)?,
            Arc::try_clone(gate)?,
        );
        tasks.push(task)?;
    }
    Ok(tasks)
}

/// A new board with the hub's pass, and the tasks of its workers, by cell.
fn crew<B: Bell + Drop, G: Gate + Drop>(
    alloc: Global,
    workers: u32,
    bell: &Arc<B, Global>,
    gate: &Arc<G, Global>,
) -> Result<(Arc<Board, Global>, HubPass, Vec<WorkerTask<B, G>>), AllocError>
    requires { (0 < workers) × (workers ≤ MOST_WORKERS) }
    ensures board { IfOk result (λ it. hub_board it.1 ≡ board_id (arc_value it.0)) }
    ensures view { IfOk result (λ it. hub_view it.1 ≡ begun workers workers) }
    ensures cells { IfOk result (λ it. map (λ task. (worker_view task.pass).cell) it.2.items ≡ numbers_from 0 workers) }
    ensures count { IfOk result (λ it. vec_len it.2 ≡ workers) }
{
    let Made {
        board,
        hub,
        workers: passes,
    } = Board::new(alloc, workers)?;
    let board = Arc::new(alloc, board)?;
    let tasks = tasks(alloc, &board, passes, bell, gate)?;
    Ok((board, hub, tasks))
}

/// Starts each task in order, and keeps what each start answered.
fn start_all<B: Bell + Drop, G: Gate + Drop, S: Spawner<B, G>>(
    spawner: &mut S,
    mut tasks: Vec<WorkerTask<B, G>>,
    starts: &mut Vec<Result<S::Running, S::Refused>>,
    started: &mut Vec<bool>,
)
    requires starts { vec_len tasks ≤ vec_capacity starts.old }
    requires started { vec_len tasks ≤ vec_capacity started.old }
    requires none { (starts.old.items ≡ []) × (started.old.items ≡ []) }
    ensures cells { map told_cell (map (start_cell S.running_cell S.refused_cell) starts.new.items) ≡ map (λ task. (worker_view task.pass).cell) tasks.items }
    ensures started { started.new.items ≡ map (λ start. is_ok start) (map (start_cell S.running_cell S.refused_cell) starts.new.items) }
    ensures count { vec_len started.new ≡ vec_len tasks }
    ensures risen { RefusedWhereRisen (S.refusals spawner.old) (S.refusals spawner.new) (map (start_cell S.running_cell S.refused_cell) starts.new.items) }
{
    while tasks.len() > 0 {
        let start = spawner.start(tasks.remove(0));
        started.push_reserved(start.is_ok());
        starts.push_reserved(start);
    }
}

/// Waits for the worker to end where it was started, and counts it.
fn join_start<B: Bell + Drop, G: Gate + Drop, S: Spawner<B, G>>(
    spawner: &mut S,
    start: Result<S::Running, S::Refused>,
)
    ensures { S.joins spawner.new ≡ joined_each (start_cell S.running_cell S.refused_cell start ∷ []) (S.joins spawner.old) }
{
    if let Ok(running) = start {
        spawner.join(running);
    }
}

/// Waits for each started worker to end, and counts them.
fn join_all<B: Bell + Drop, G: Gate + Drop, S: Spawner<B, G>>(
    spawner: &mut S,
    mut starts: Vec<Result<S::Running, S::Refused>>,
)
    ensures { S.joins spawner.new ≡ joined_each (map (start_cell S.running_cell S.refused_cell) starts.items) (S.joins spawner.old) }
{
    while starts.len() > 0 {
        join_start(spawner, starts.remove(0));
    }
}

/// What may be answered now, at this moment.
fn offered(desk: &mut Desk, question: Question, moment: u64) -> Option<Answer>
    requires made { (hub_view desk.old.pass).made ≡ length (hub_view desk.old.pass).cells }
    ensures at { IfSome result (λ answer. moment_of answer ≡ moment) }
    ensures gives { IfSome result (λ answer. Gives (desk_view desk.old) (desk_view desk.new) answer) }
    ensures due { IfSome result (λ answer. IsDue (desk_view desk.old) (desk_view desk.new) question answer) }
    ensures same { SameCells (desk_view desk.old) (desk_view desk.new) }
    ensures none { IsNone result → Settles (desk_view desk.old) (desk_view desk.new) }
{
    if let Some(finished) = desk.next() {
        return Some(Answer::Done {
            number: finished.number,
            outcome: finished.outcome,
            at: moment,
        });
    }
    match question {
        Question::Poll => Some(Answer::Nothing { at: moment }),
        Question::Wait(Some(until)) if until <= moment => Some(Answer::Elapsed { at: moment }),
        Question::Wait(_) => None,
    }
}

/// Goes on to the moment that the clock says now, and stores what may be answered then, if anything. Room was made for
/// it.
fn try_answer<C: Clock>(
    clock: &mut C,
    desk: &mut Desk,
    history: &mut History,
    question: Question,
) -> Option<Answer>
    requires room { vec_len history.old.answers < vec_capacity history.old.answers }
    requires made { (hub_view desk.old.pass).made ≡ length (hub_view desk.old.pass).cells }
    requires jobs { Balances (desk_view desk.old) history.old.posts.items history.old.answers.items }
    requires timely { history.old.moment ≤ C.reading clock.old - history.old.began }
    ensures timely { history.new.moment ≡ min (C.reading clock.new - history.old.began) LAST_MOMENT }
    ensures began { history.new.began ≡ history.old.began }
    ensures later { history.old.moment ≤ history.new.moment }
    ensures posts { history.new.posts.items ≡ history.old.posts.items }
    ensures legal { IfSome result (λ answer. IsLegal history.old.posts.items history.old.answers.items question answer) }
    ensures answers { IfSome result (λ answer. history.new.answers.items ≡ history.old.answers.items ++ answer ∷ []) }
    ensures at { IfSome result (λ answer. history.new.moment ≡ moment_of answer) }
    ensures gives { IfSome result (λ answer. Gives (desk_view desk.old) (desk_view desk.new) answer) }
    ensures same { SameCells (desk_view desk.old) (desk_view desk.new) }
    ensures jobs { Balances (desk_view desk.new) history.new.posts.items history.new.answers.items }
    ensures none { IsNone result → Settles (desk_view desk.old) (desk_view desk.new) × (history.new.answers ≡ history.old.answers) }
{
    history.advance(clock.now());
    let Some(answer) = offered(desk, question, history.moment) else {
        return None;
    };
    history.store(answer);
    Some(answer)
}

/// How long the hub may rest at this moment.
fn rest_of(question: Question, moment: u64) -> Option<u64> {
    match question {
        Question::Poll => Some(0),
        Question::Wait(Some(until)) => Some(until.saturating_sub(moment)),
        Question::Wait(None) => None,
    }
}

/// Answers the question, and stores the answer, once there is one. Room was made for it.
fn await_answer<H: Wait, R: Ear, C: Clock>(
    rt: &H,
    ear: &mut R,
    clock: &mut C,
    desk: &mut Desk,
    history: &mut History,
    question: Question,
) -> Answer
    requires room { vec_len history.old.answers < vec_capacity history.old.answers }
    requires made { (hub_view desk.old.pass).made ≡ length (hub_view desk.old.pass).cells }
    requires jobs { Balances (desk_view desk.old) history.old.posts.items history.old.answers.items }
    requires timely { history.old.moment ≤ C.reading clock.old - history.old.began }
    ensures timely { history.new.moment ≡ min (C.reading clock.new - history.old.began) LAST_MOMENT }
    ensures began { history.new.began ≡ history.old.began }
    ensures later { history.old.moment ≤ history.new.moment }
    ensures posts { history.new.posts.items ≡ history.old.posts.items }
    ensures legal { IsLegal history.old.posts.items history.old.answers.items question result }
    ensures answers { history.new.answers.items ≡ history.old.answers.items ++ result ∷ [] }
    ensures at { history.new.moment ≡ moment_of result }
    ensures gives { Gives (desk_view desk.old) (desk_view desk.new) result }
    ensures same { SameCells (desk_view desk.old) (desk_view desk.new) }
    ensures jobs { Balances (desk_view desk.new) history.new.posts.items history.new.answers.items }
{
    for _ in rt.forever() {
        if let Some(answer) = try_answer(clock, desk, history, question) {
            return answer;
        }
        ear.rest(rest_of(question, history.moment));
    }
    // `forever` has no end: the loop is left by a return alone.
    unreachable!()
}

/// Waits until no worker has a job, and tells the workers to end. What is known of the board then is answered.
fn wind_down<H: Wait, R: Ear>(rt: &H, ear: &mut R, mut desk: Desk) -> HubPass
    ensures same_board { hub_board result ≡ hub_board desk.pass }
    ensures posts { (hub_view result).posts ≡ (hub_view desk.pass).posts }
    ensures swept { (hub_view desk.pass).sweeps < (hub_view result).sweeps }
    ensures stopped { (i : ℕ) → i < vec_len desk.started → hub_cell (hub_view result) i ≡ Stopped }
{
    for _ in rt.forever() {
        desk.give_up();
        if !desk.is_busy() {
            return desk.stop();
        }
        ear.rest(Some(REST));
    }
    // `forever` has no end: the loop is left by a return alone.
    unreachable!()
}

impl<
    H: Wait + Drop,
    R: Ear + Drop,
    B: Bell + Drop,
    C: Clock + Drop,
    G: Gate + Drop,
    S: Spawner<B, G> + Drop,
> World for ThreadWorld<H, R, B, C, G, S> {
    ghost use Rattle.std.specs.Prelude.{ℕ, ◌≤◌, ◌<◌, ◌↔◌, true, false, List, Option, OnOk, OnErr};
    ghost use Rattle.world_rules.specs.declared.question.LogEntry.{LogEntry};
    ghost use Rattle.world_rules.specs.declared.question.LogEntry.TheVariants as entry;
    ghost use Rattle.world_rules.specs.Legal.{is_posted, MayAsk};
    ghost use Rattle.world.specs.Outside.{Begins, Posts, Stores};
    ghost use Rattle.native_pool.specs.Desks.{WaitsBehind, KeepsResults};
    ghost use Rattle.native_pool.specs.Pools.{pool_meaning, pool_log, IsTimely, HasCome, WhileRunning, Between, KeepsStarts, HasStopped, joined_each};

    ghost meaning = { pool_meaning };

    ghost stands_for = { pool_log };

    ghost log_is = { λ p log h. h };

    ghost waits = { true };

    fn begin(&mut self, workers: u32) -> Result<(), AllocError>
        requires stopped { (pool_meaning self.old).runs ≡ false }
        requires some { 0 < workers }
        requires few { workers ≤ MOST_WORKERS }
        ensures begins { OnOk result (Begins (pool_meaning self.old) (pool_meaning self.new) workers) }
        ensures log { OnOk result (pool_log self.new []) }
        ensures refused { OnErr result (pool_meaning self.new ≡ pool_meaning self.old) }
        ensures refused_log { OnErr result ((log : List LogEntry) → pool_log self.old log ↔ pool_log self.new log) }
        ensures starts { OnOk result (WhileRunning KeepsStarts self.new) }
        ensures risen { OnOk result (RefusedWhereRisen self.old.refusals self.new.refusals self.new.starts) }
        ensures began { OnOk result (self.new.began ≡ self.new.reading) }
        ensures unchanged { OnErr result (self.new ≡ self.old) }
    {
        let mut started = Vec::with_capacity(self.alloc, MOST_WORKERS as usize)?;
        let mut starts = Vec::with_capacity(self.alloc, MOST_WORKERS as usize)?;
        let held = Vec::with_capacity(self.alloc, MOST_WORKERS as usize)?;
        let (board, hub, tasks) = crew(self.alloc, workers, &self.bell, &self.gate)?;
        start_all(&mut self.spawner, tasks, &mut starts, &mut started);
        self.history.restart(self.clock.now());
        self.workers = workers;
        self.starts = starts;
        self.desk = Some(Desk::new(self.alloc, board, hub, started, held));
        Ok(())
    }

    fn post(&mut self, number: u32, job: Job, takes: u64) -> Result<(), AllocError>
        requires runs { (pool_meaning self.old).runs ≡ true }
        requires new { is_posted number (pool_meaning self.old).posts ≡ false }
        ensures posted { OnOk result (Posts (pool_meaning self.old) (pool_meaning self.new) number job) }
        ensures log { OnOk result ((log : List LogEntry) → pool_log self.old log → pool_log self.new (log ++ entry.Post number job takes ∷ [])) }
        ensures refused { OnErr result (pool_meaning self.new ≡ pool_meaning self.old) }
        ensures refused_log { OnErr result ((log : List LogEntry) → pool_log self.old log ↔ pool_log self.new log) }
        ensures moment { OnOk result (IsTimely self.new) }
        ensures starts { OnOk result (WhileRunning KeepsStarts self.new) }
        ensures waits { OnOk result (Between (WaitsBehind number job) self.old.desk self.new.desk) }
        ensures held { OnOk result (Between KeepsResults self.old.desk self.new.desk) }
        ensures unchanged { OnErr result (self.new ≡ self.old) }
        ensures same_starts { self.new.starts ≡ self.old.starts }
        ensures same_began { self.new.began ≡ self.old.began }
    {
        let Some(desk) = &mut self.desk else {
            // The requires says that it runs, and then it has a desk.
            unreachable!()
        };
        self.history.reserve_post()?;
        desk.add(number, job)?;
        desk.fill();
        self.history.add(number, job);
        self.history.advance(self.clock.now());
        Ok(())
    }

    fn ask(&mut self, question: Question) -> Result<Answer, AllocError>
        requires runs { (pool_meaning self.old).runs ≡ true }
        requires asks { MayAsk (pool_meaning self.old).posts (pool_meaning self.old).answers question }
        ensures legal { IfOk result (λ answer. IsLegal (pool_meaning self.old).posts (pool_meaning self.old).answers question answer) }
        ensures stored { IfOk result (λ answer. Stores (pool_meaning self.old) (pool_meaning self.new) answer) }
        ensures log { IfOk result (λ answer. (log : List LogEntry) → pool_log self.old log → pool_log self.new (log ++ entry.Asked question answer ∷ [])) }
        ensures refused { OnErr result (pool_meaning self.new ≡ pool_meaning self.old) }
        ensures refused_log { OnErr result ((log : List LogEntry) → pool_log self.old log ↔ pool_log self.new log) }
        ensures moment { OnOk result (IsTimely self.new) }
        ensures come { IfOk result (λ answer. HasCome self.new question answer) }
        ensures gives { IfOk result (λ answer. Between (λ d e. Gives d e answer) self.old.desk self.new.desk) }
        ensures unchanged { OnErr result (self.new ≡ self.old) }
        ensures starts { OnOk result (WhileRunning KeepsStarts self.new) }
        ensures same_starts { self.new.starts ≡ self.old.starts }
        ensures same_began { self.new.began ≡ self.old.began }
    {
        let Some(desk) = &mut self.desk else {
            // The requires says that it runs, and then it has a desk.
            unreachable!()
        };
        self.history.reserve()?;
        Ok(await_answer(
            &self.rt,
            &mut self.ear,
            &mut self.clock,
            desk,
            &mut self.history,
            question,
        ))
    }

    fn may_wait(&self) -> bool {
        true
    }

    fn finish(&mut self)
        requires runs { (pool_meaning self.old).runs ≡ true }
        ensures ended { pool_meaning self.new ≡ record (pool_meaning self.old) { runs = false } }
        ensures log { (log : List LogEntry) → pool_log self.old log ↔ pool_log self.new log }
        ensures starts { self.new.starts ≡ [] }
        ensures told { WhileRunning (λ pool desk. HasStopped pool self.new.ended desk) self.old }
        ensures joined { self.new.joins ≡ joined_each self.old.starts self.old.joins }
    {
        let Some(desk) = self.desk.take() else {
            // The requires says that it runs, and then it has a desk.
            unreachable!()
        };
        self.ended = Some(wind_down(&self.rt, &mut self.ear, desk));
        let starts = mem::replace(&mut self.starts, Vec::new(self.alloc));
        join_all(&mut self.spawner, starts);
    }
}

/// A world of native threads may be long in answering, so what stands in the output is handed on before it is asked.
pub fn thread_worlds_wait<
    H: Wait + Drop,
    R: Ear + Drop,
    B: Bell + Drop,
    C: Clock + Drop,
    G: Gate + Drop,
    S: Spawner<B, G> + Drop,
>()
    ensures { ⟦<ThreadWorld<H, R, B, C, G, S> as World>⟧.waits ≡ true }
{}
