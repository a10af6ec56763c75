use gv_values::{Answer, FaultKind, Job, Name, Outcome, Value, Whom};

/// A line of the trace. Greenlets, jobs, links and turns are named by their numbers, moments are milliseconds.
#[derive(Drop)]
pub enum Line {
    /// The body of a greenlet starts, which is this function.
    Start {
        greenlet: u32,
        function: Name,
    },
    /// A greenlet prints a value.
    Print {
        greenlet: u32,
        value: Value,
    },
    /// A greenlet parks, until a moment at most where its wait has a deadline.
    Park {
        greenlet: u32,
        awaited: Awaited,
        until: Option<u64>,
    },
    /// The wait of a greenlet ends.
    Resume {
        greenlet: u32,
        by: Resumed,
    },
    /// A kill, a timeout or LoopExit arrives at a greenlet.
    Throw {
        greenlet: u32,
        fault: FaultKind,
    },
    /// A switch of a raw greenlet, or of its host, is resumed with a value or a fault.
    Into {
        greenlet: u32,
        input: Outcome,
    },
    /// A greenlet ends.
    End {
        greenlet: u32,
        outcome: Outcome,
    },
    /// A link of an ended greenlet is called.
    Link {
        number: u32,
        greenlet: u32,
        call: LinkCall,
    },
    /// A greenlet posts a job to native threads.
    Job {
        number: u32,
        greenlet: u32,
        job: Job,
    },
    /// The hub blocks.
    Block(Blocked),
    /// What the world answers at the end of a turn.
    Turn {
        number: u64,
        answer: Answer,
    },
    /// The run stops, after so many turns and moves were begun.
    Stop {
        cause: StopCause,
        turns: u64,
        moves: u64,
    },
}

/// What a greenlet parks in: the word of its statement, and what it waits on.
#[derive(Clone, Copy, PartialEq, Eq)]
pub enum Awaited {
    Sleep,
    Join(Whom),
    Get(Whom),
    Kill(Whom),
    JoinAll,
    KillAll,
    Wait(Name),
    ResultGet(Name),
    ResultWait(Name),
    Acquire(Name),
    QueuePut(Name),
    QueueGet(Name),
    QueuePeek(Name),
    QueueJoin(Name),
    GroupSpawn(Name),
    GroupJoin(Name),
    GroupKill(Name),
    Map(Name),
    NativeSpawn(Name),
    ChannelPut(Name),
    ChannelGet(Name),
}

/// How a wait ends: what it waited for has come, or its deadline has.
#[derive(Clone, Copy, PartialEq, Eq)]
pub enum Resumed {
    Wake,
    Late,
}

/// What the call of a link does.
#[derive(Clone, Copy, PartialEq, Eq)]
pub enum LinkCall {
    /// Its function runs as this new greenlet.
    Greenlet(u32),
    /// It leaves this mark in the trace alone.
    Mark(u32),
    /// It sets the event of this name.
    Set(Name),
}

/// Until when the hub blocks.
#[derive(Clone, Copy, PartialEq, Eq)]
pub enum Blocked {
    /// Until this moment, or until a job ends.
    Until(u64),
    /// Until a job ends.
    Jobs,
    /// Nothing can come any more: LoopExit is next.
    Nothing,
}

/// Why a run stops.
#[derive(Drop)]
pub enum StopCause {
    /// The main greenlet ended with a value.
    Value(Value),
    /// The main greenlet ended by a fault.
    Fault(FaultKind),
    NoTurns,
    NoMoves,
    NoGreenlets,
    NoLinks,
    NoKills,
}
