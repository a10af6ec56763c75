//! The single steps on a cell's words.
ghost use Rattle.std.specs.Prelude.{◌≡◌, ℕ, ◌+◌, ◌<◌, [], length};
ghost use Rattle.native_board.specs.declared.views.HubCell.TheVariants.{Vacant, Ordered, Filled, Sent, Taking, Stopped};
ghost use Rattle.native_board.specs.declared.views.WorkerStage.TheVariants.{Idle, Asked, Numbered, Holds, Valued, Owes};
ghost use Rattle.native_board.specs.declared.views.View.TheVariants.{Hub, Worker};
ghost use Rattle.native_board.specs.declared.views.CellState.TheVariants.{Done};
ghost use Rattle.native_board.specs.declared.views.Ended.{Ended};
ghost use Rattle.gv_values.specs.declared.job.Job.{Job};
ghost use Rattle.native_board.specs.Rules.{hub_cell};
ghost use Rattle.native_board.specs.Words.{state_in, number_in, kind_in, signed_in, ended_of, value_of};
ghost use Rattle.gv_values.specs.JobParts.{kind_of};
ghost use Rattle.gv_values.specs.Job.{job_of};
ghost use Rattle.world_rules.specs.Evaluate.{eval};
ghost use Rattle.native_board.specs.Plays.{asked, saw, IsJob};
ghost use Rattle.native_board.specs.Passes.{hub_of, worker_of, lowers, BecomesHub, HoldsOf, ValuedOf, IsValuedOf, IsHubAt, IsMarked, IsSent, IsWorkerAt, IsStaged, HasLooked};

use crate::rule::{
    BoardRule, LoadArgument, LoadNext, LoadOrder, LoadState, LoadValue, StoreArgument, StoreDone,
    StoreFree, StoreOrder, StorePosted, StoreStop, StoreValue, SwapHigh, SwapLow,
};
use crate::views::{CellState, View};
use crate::words::{
    ARGUMENT, CELL_WORDS, FREE, HIGH, LOW, ORDER, POSTED, SIGNAL, STATE, STOP, VALUE, argument_of,
    done_word, ended_of, kind_in, number_in, order_word, signed_in, signed_word, state_in,
    value_of,
};
use atomic_table::{Seat, Shared};
use gv_values::{Job, JobKind, JobOutcome, job_of};

pub(crate) type Top = Shared<(), View, u32, BoardRule>;

pub(crate) fn store_order(
    top: &Top,
    hub: &mut Seat<(), View>,
    cell: usize,
    number: u32,
    kind: JobKind,
)
    requires board { hub.old.table_id ≡ top.now.table_id }
    requires vacant { IsHubAt hub.old cell Vacant }
    ensures { IsMarked hub.old hub.new cell (Ordered number kind) }
{
    top.store::<StoreOrder>(hub, CELL_WORDS * cell + ORDER, order_word(number, kind));
}

pub(crate) fn store_argument(
    top: &Top,
    hub: &mut Seat<(), View>,
    cell: usize,
    number: u32,
    job: Job,
)
    requires board { hub.old.table_id ≡ top.now.table_id }
    requires ordered { IsHubAt hub.old cell (Ordered number (kind_of job)) }
    ensures { IsMarked hub.old hub.new cell (Filled number job) }
{
    top.store::<StoreArgument>(
        hub,
        CELL_WORDS * cell + ARGUMENT,
        signed_word(argument_of(job)),
    );
}

pub(crate) fn store_posted(
    top: &Top,
    hub: &mut Seat<(), View>,
    cell: usize,
    _number: u32,
    _job: Job,
)
    requires board { hub.old.table_id ≡ top.now.table_id }
    requires filled { IsHubAt hub.old cell (Filled _number _job) }
    ensures { IsSent hub.old hub.new cell _number _job }
{
    top.store::<StorePosted>(hub, CELL_WORDS * cell + STATE, POSTED);
}

pub(crate) fn store_stop(top: &Top, hub: &mut Seat<(), View>, cell: usize)
    requires board { hub.old.table_id ≡ top.now.table_id }
    requires vacant { IsHubAt hub.old cell Vacant }
    ensures { IsMarked hub.old hub.new cell Stopped }
{
    top.store::<StoreStop>(hub, CELL_WORDS * cell + STATE, STOP);
}

pub(crate) fn load_state(top: &Top, worker: &mut Seat<(), View>, cell: usize) -> CellState
    requires board { worker.old.table_id ≡ top.now.table_id }
    requires idle { IsWorkerAt worker.old cell Idle }
    ensures { HasLooked worker.old worker.new result }
{
    state_in(top.load::<LoadState>(worker, CELL_WORDS * cell + STATE))
}

pub(crate) fn load_order(top: &Top, worker: &mut Seat<(), View>, cell: usize) -> (u32, JobKind)
    requires board { worker.old.table_id ≡ top.now.table_id }
    requires asked { IsWorkerAt worker.old cell Asked }
    ensures { IsStaged worker.old worker.new (Numbered result.0 result.1) }
{
    let order = top.load::<LoadOrder>(worker, CELL_WORDS * cell + ORDER);
    (number_in(order), kind_in(order))
}

pub(crate) fn load_argument(
    top: &Top,
    worker: &mut Seat<(), View>,
    cell: usize,
    _number: u32,
    kind: JobKind,
) -> Job
    requires board { worker.old.table_id ≡ top.now.table_id }
    requires numbered { IsWorkerAt worker.old cell (Numbered _number kind) }
    ensures { IsStaged worker.old worker.new (Holds _number result) }
{
    job_of(
        kind,
        signed_in(top.load::<LoadArgument>(worker, CELL_WORDS * cell + ARGUMENT)),
    )
}

pub(crate) fn store_value(top: &Top, worker: &mut Seat<(), View>, cell: usize, outcome: JobOutcome)
    requires board { worker.old.table_id ≡ top.now.table_id }
    requires holds { HoldsOf worker.old cell outcome }
    ensures { ValuedOf worker.old worker.new outcome }
{
    top.store::<StoreValue>(
        worker,
        CELL_WORDS * cell + VALUE,
        signed_word(value_of(outcome)),
    );
}

pub(crate) fn store_done(top: &Top, worker: &mut Seat<(), View>, cell: usize, outcome: JobOutcome)
    requires board { worker.old.table_id ≡ top.now.table_id }
    requires valued { IsValuedOf worker.old cell outcome }
    ensures { IsStaged worker.old worker.new Owes }
{
    top.store::<StoreDone>(
        worker,
        CELL_WORDS * cell + STATE,
        done_word(ended_of(outcome)),
    );
}

/// Whether the signal was low.
pub(crate) fn swap_high(top: &Top, worker: &mut Seat<(), View>, _cell: usize) -> bool
    requires board { worker.old.table_id ≡ top.now.table_id }
    requires owes { IsWorkerAt worker.old _cell Owes }
    ensures { IsStaged worker.old worker.new Idle }
{
    top.swap::<SwapHigh>(worker, SIGNAL, HIGH) == LOW
}

pub(crate) fn swap_low(top: &Top, hub: &mut Seat<(), View>)
    requires board { hub.old.table_id ≡ top.now.table_id }
    requires hub { (hub.old.me ≡ (Hub (hub_of hub.old), [])) × (0 < hub.old.table_id.words) }
    ensures { BecomesHub hub.old hub.new (lowers (hub_of hub.old)) }
{
    top.swap::<SwapLow>(hub, SIGNAL, LOW);
}

pub(crate) fn load_next(top: &Top, hub: &mut Seat<(), View>, cell: usize) -> CellState
    requires board { hub.old.table_id ≡ top.now.table_id }
    requires next { IsHubAt hub.old cell (hub_cell (hub_of hub.old) cell) × (cell ≡ length (hub_of hub.old).seen) }
    ensures seat { BecomesHub hub.old hub.new (saw (hub_of hub.old) result) }
    ensures job { (e : Ended) → result ≡ Done e → IsJob (hub_cell (hub_of hub.old) cell) }
    ensures ended { (k : ℕ) (j : Job) (e : Ended) → hub_cell (hub_of hub.old) cell ≡ Sent k j → result ≡ Done e → e ≡ ended_of (eval j) }
{
    state_in(top.load::<LoadNext>(hub, CELL_WORDS * cell + STATE))
}

pub(crate) fn load_value(
    top: &Top,
    hub: &mut Seat<(), View>,
    cell: usize,
    _number: u32,
    _job: Job,
) -> i64
    requires board { hub.old.table_id ≡ top.now.table_id }
    requires taking { IsHubAt hub.old cell (Taking _number _job) }
    ensures seat { BecomesHub hub.old hub.new (hub_of hub.old) }
    ensures value { result ≡ value_of (eval _job) }
{
    signed_in(top.load::<LoadValue>(hub, CELL_WORDS * cell + VALUE))
}

pub(crate) fn store_free(top: &Top, hub: &mut Seat<(), View>, cell: usize, _number: u32, _job: Job)
    requires board { hub.old.table_id ≡ top.now.table_id }
    requires taking { IsHubAt hub.old cell (Taking _number _job) }
    ensures { IsMarked hub.old hub.new cell Vacant }
{
    top.store::<StoreFree>(hub, CELL_WORDS * cell + STATE, FREE);
}
