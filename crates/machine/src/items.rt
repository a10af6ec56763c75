use crate::queued::Queued;
use crate::ready::ReadyNumber;
use gv_values::{FaultKind, Job, LinkKind, Scalar, Value, Whom};
use scenario_tree::{Boxed, Items};

/// What a parked greenlet waits for. Greenlets, objects and functions are named by their numbers.
#[derive(Drop)]
pub enum Waiting {
    /// A moment.
    Sleep(u64),
    /// The end of a greenlet.
    Join(u32),
    /// The end of a greenlet or job, for what it ended with.
    Get(Whom),
    /// The end of all these greenlets, to which a kill was sent.
    Kill(Items<u32>),
    /// The end of at least so many of these greenlets.
    JoinAll(Items<u32>, u32),
    /// The set of an event that had been set so many times.
    Event(u32, u64),
    /// What is put into a result.
    ResultGet(u32),
    /// That something is put into a result.
    ResultWait(u32),
    /// A unit of a semaphore.
    Acquire(u32),
    /// The ownership of a lock.
    Lock(u32),
    /// A free place of a queue, for this value.
    Put(u32, Queued),
    /// An item of a queue, to take it.
    Take(u32),
    /// An item of a queue, to read it.
    Peek(u32),
    /// That no task of a queue is unfinished.
    Tasks(u32),
    /// A place in a group or pool, for this function and these arguments.
    Place(u32, u32, Items<Value>),
    /// The same for a map: its function, the elements still to go, the members made. The lists are boxed, so that every
    /// other wait takes less room.
    MapPlace(u32, u32, Boxed<Items<Scalar>>, Boxed<Items<u32>>),
    /// The end of all members that a map made.
    MapEnd(u32, Items<u32>),
    /// That a group or pool has no member.
    Members(u32),
    /// A slot of a native pool, for this job that takes so many milliseconds.
    Slot(u32, Job, u64),
    /// That what it offered on a channel is taken.
    Offered(u32),
    /// An offer of a channel, to take it.
    TakeOffer(u32),
}

/// What an item delivers.
#[derive(Drop)]
pub enum Delivery {
    /// The start of a greenlet, with a deadline or at once.
    Start(u32, Option<u64>),
    /// The completion of what a greenlet waits for.
    Wake(u32, Waiting),
    /// The end of a greenlet's wait at its deadline, and the number of the Timeout that this raises, 0 where it raises
    /// none.
    Late(u32, u64, u32),
    /// A greenlet's timeout with its number and its deadline.
    Timeout(u32, u32, u64),
    /// A kill of a greenlet by a fault.
    Kill(u32, FaultKind),
    /// The call of a link: its number, its greenlet, its kind and its function.
    Link(u32, u32, LinkKind, u32),
}

/// An item of the hub's one list.
#[derive(Drop)]
pub struct Item {
    /// Its place in order of making.
    pub since: u64,
    pub delivery: Delivery,
    /// Its place in order of delivery, where its condition holds.
    pub ready: ReadyNumber,
}
