use crate::arguments::Arguments;
use gv_values::{JobKind, LinkKind, Value};
use scenario_tree::Wait;

/// What a body asks of its hub: one variant for each word, with its operands' values in order, objects and
/// functions as their numbers.
#[derive(Drop)]
pub enum Request {
    Print(Value),
    /// A new greenlet of this function with these arguments; its handle is the answer.
    Spawn(u32, Arguments),
    /// The same, started after so many milliseconds.
    SpawnLater(u32, u32, Arguments),
    /// The same, not started.
    New(u32, Arguments),
    Start(Value),
    Sleep(u32),
    Join(Value, Wait),
    Get(Value, Wait),
    /// The fault stands after `with`.
    Kill(Value, Option<Value>, Wait),
    KillAll(Value, Option<Value>, Wait),
    /// The number stands after `count`.
    JoinAll(Value, Option<u64>, Wait),
    /// The greenlet, the kind of the link, and the function that is called, 0 where none is.
    Link(Value, LinkKind, u32),
    Unlink(Value),
    Set(u32),
    Clear(u32),
    WaitEvent(u32, Wait),
    ResultSet(u32, Value),
    ResultFail(u32, Value),
    ResultGet(u32, Wait),
    ResultWait(u32, Wait),
    Acquire(u32, Wait),
    Release(u32),
    QueuePut(u32, Value, Wait),
    QueueGet(u32, Wait),
    QueuePeek(u32, Wait),
    QueueDone(u32),
    QueueJoin(u32, Wait),
    /// The group or pool, the function, and its arguments.
    GroupSpawn(u32, u32, Arguments),
    GroupJoin(u32, Wait),
    GroupKill(u32, Option<Value>, Wait),
    /// The group or pool, the function, and the list of its arguments.
    Map(u32, u32, Value),
    /// The native pool, the job, its argument, and how many milliseconds it takes.
    NativeSpawn(u32, JobKind, Value, u64),
    /// The function, and the parent that stands after `under`.
    Raw(u32, Option<Value>),
    Switch(Value, Value),
    /// The fault stands after `with`.
    Throw(Value, Option<Value>),
    SetParent(Value, Value),
    ChannelPut(u32, Value),
    ChannelGet(u32),
    /// Whether the items of the queue go too.
    QueueShut(u32, bool),
}
