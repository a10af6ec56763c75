//! How a call ends: its status and its line on err.
ghost use Rattle.std.specs.Prelude.{◌≡◌, IfOk};
ghost use Rattle.gv_top.specs.Status.{verdict_line, verdict_of_check, verdict_of_connection, verdict_of_run, verdict_of_server, verdict_of_text, verdict_status};
ghost use Rattle.gv_top.specs.Inner.{IsExplained};

use gv_values::{FaultKind, decimal_text, fault_text};
use hub_engine::EngineEnd;
use scenario_grammar::{Place, reason_text};
use scenario_lang::ParseRefusal;
use serve_command::Served;
use std::alloc::{AllocError, Global};
use trace_check::Unverified;
use trace_laws::Cause;
use wsgi_connection::ConnectionEnd;

/// What broke a call off.
#[derive(Clone, Copy)]
pub enum Failure {
    /// The input could not be read.
    Read,
    /// Out could not be written.
    Write,
    /// The net could not listen, or its listener failed.
    Net,
    /// Memory ran out.
    Memory,
}

impl Failure {
    /// The status that the call answers.
    fn number(self) -> u8
        ensures { result ≡ verdict_status (Verdict.Broke self) }
    {
        match self {
            Failure::Read => 4,
            Failure::Write => 5,
            Failure::Net => 10,
            Failure::Memory => 7,
        }
    }

    /// The line on err, which takes no memory.
    pub fn line(self) -> &'static [u8]
        ensures { result.now ≡ verdict_line (Verdict.Broke self) }
    {
        match self {
            Failure::Read => b"gvr: read fault\n",
            Failure::Write => b"gvr: write fault\n",
            Failure::Net => b"gvr: network fault\n",
            Failure::Memory => b"gvr: out of memory\n",
        }
    }
}

/// What a call that nothing broke off came to.
#[derive(Clone, Copy)]
pub enum Conclusion {
    /// All was done, and there is nothing to say of it.
    Finished,
    /// The words are no command.
    Usage,
    /// The run's main ended by this fault.
    MainFault(FaultKind),
    /// The run would begin one more turn than its budget.
    NoTurns,
    /// The run would begin one more move than its budget.
    NoMoves,
    /// The run would make one more greenlet than there may be.
    NoGreenlets,
    /// The run would make one more link than there may be.
    NoLinks,
    /// The run would make one more kill item than there may be.
    NoKills,
    /// The connection had one more byte than it may have.
    TooLong,
    /// One more job was asked for than have numbers.
    NoJobs,
    /// The input spells no well-formed scenario; where it is refused.
    Refused(Place),
    /// The input of a check is too long; the line of the first byte too many.
    Overlong { line: u64 },
    /// The input of a check has no line of four equals signs; its last line.
    Unmarked { line: u64 },
    /// From this line on the trace is not the run, for this cause.
    Wrong { line: u64, cause: Cause },
    /// With this line the trace breaks this law.
    Lawless { line: u64, law: u8 },
}

impl Conclusion {
    /// The status that the call answers.
    pub fn number(self) -> u8
        ensures { result ≡ verdict_status (Verdict.Did self) }
    {
        match self {
            Conclusion::Finished => 0,
            Conclusion::Usage => 2,
            Conclusion::MainFault(_) => 1,
            Conclusion::NoTurns => 6,
            Conclusion::NoMoves => 6,
            Conclusion::NoGreenlets => 8,
            Conclusion::NoLinks => 8,
            Conclusion::NoKills => 8,
            Conclusion::TooLong => 8,
            Conclusion::NoJobs => 8,
            Conclusion::Refused(_) => 3,
            Conclusion::Overlong { line: _ } => 3,
            Conclusion::Unmarked { line: _ } => 3,
            Conclusion::Wrong { line: _, cause: _ } => 9,
            Conclusion::Lawless { line: _, law: _ } => 9,
        }
    }

    /// The line on err, and nothing where it has none.
    pub fn line(self, alloc: Global) -> Result<Vec<u8>, AllocError>
        requires { IsExplained (Verdict.Did self) }
        ensures { IfOk result (λ line. line.items ≡ verdict_line (Verdict.Did self)) }
    {
        match self {
            Conclusion::Finished => Ok(Vec::new(alloc)),
            Conclusion::Usage => line_with(
                alloc,
                b"usage: gvr run, fmt, wsgi, serve, storm or verify",
            ),
            Conclusion::MainFault(kind) => fault_line(alloc, kind),
            Conclusion::NoTurns => line_with(alloc, b"budget of turns spent"),
            Conclusion::NoMoves => line_with(alloc, b"budget of moves spent"),
            Conclusion::NoGreenlets => line_with(alloc, b"limit of greenlets"),
            Conclusion::NoLinks => line_with(alloc, b"limit of links"),
            Conclusion::NoKills => line_with(alloc, b"limit of kills"),
            Conclusion::TooLong => line_with(alloc, b"limit of the connection"),
            Conclusion::NoJobs => line_with(alloc, b"limit of jobs"),
            Conclusion::Refused(place) => refusal_line(alloc, place),
            Conclusion::Overlong { line } => place_line(
                alloc,
                line,
                25,
                b"input longer than 67108864 bytes",
            ),
            Conclusion::Unmarked { line } => place_line(
                alloc,
                line,
                24,
                b"no line of four equals signs",
            ),
            Conclusion::Wrong { line, cause } => cause_line(alloc, line, cause),
            Conclusion::Lawless { line, law } => law_line(alloc, line, law),
        }
    }
}

/// How a call ends.
#[derive(Clone, Copy)]
pub enum Verdict {
    /// It came to this.
    Did(Conclusion),
    /// This broke it off.
    Broke(Failure),
}

impl Verdict {
    /// The status that the call answers.
    pub fn number(self) -> u8
        ensures { result ≡ verdict_status self }
    {
        match self {
            Verdict::Did(conclusion) => conclusion.number(),
            Verdict::Broke(failure) => failure.number(),
        }
    }
}

/// The verdict on a run that came to this end.
pub fn verdict_of_run(end: EngineEnd) -> Verdict
    ensures { result ≡ verdict_of_run end }
{
    match end {
        EngineEnd::MainValue => Verdict::Did(Conclusion::Finished),
        EngineEnd::MainFault(kind) => Verdict::Did(Conclusion::MainFault(kind)),
        EngineEnd::NoTurns => Verdict::Did(Conclusion::NoTurns),
        EngineEnd::NoMoves => Verdict::Did(Conclusion::NoMoves),
        EngineEnd::NoGreenlets => Verdict::Did(Conclusion::NoGreenlets),
        EngineEnd::NoLinks => Verdict::Did(Conclusion::NoLinks),
        EngineEnd::NoKills => Verdict::Did(Conclusion::NoKills),
        EngineEnd::WriteFault => Verdict::Broke(Failure::Write),
        EngineEnd::Memory => Verdict::Broke(Failure::Memory),
    }
}

/// The verdict on a connection that came to this end.
pub fn verdict_of_connection(end: ConnectionEnd) -> Verdict
    ensures { result ≡ verdict_of_connection end }
{
    match end {
        ConnectionEnd::Closed => Verdict::Did(Conclusion::Finished),
        ConnectionEnd::TooLong => Verdict::Did(Conclusion::TooLong),
        ConnectionEnd::ReadFault => Verdict::Broke(Failure::Read),
        ConnectionEnd::WriteFault => Verdict::Broke(Failure::Write),
        ConnectionEnd::Memory => Verdict::Broke(Failure::Memory),
    }
}

/// The verdict on a server that came to this end.
pub fn verdict_of_server(end: Served) -> Verdict
    ensures { result ≡ verdict_of_server end }
{
    match end {
        Served::Finished => Verdict::Did(Conclusion::Finished),
        Served::NoJobs => Verdict::Did(Conclusion::NoJobs),
        Served::Listener => Verdict::Broke(Failure::Net),
        Served::WriteFault => Verdict::Broke(Failure::Write),
        Served::Memory => Verdict::Broke(Failure::Memory),
    }
}

/// The verdict on a text that no scenario was read of.
pub fn verdict_of_text(refusal: ParseRefusal) -> Verdict
    ensures { result ≡ verdict_of_text refusal }
{
    match refusal {
        ParseRefusal::Refused(place) => Verdict::Did(Conclusion::Refused(place)),
        ParseRefusal::Memory => Verdict::Broke(Failure::Memory),
    }
}

/// The verdict on an input that was not verified.
pub fn verdict_of_check(refusal: Unverified) -> Verdict
    ensures { result ≡ verdict_of_check refusal }
{
    match refusal {
        Unverified::Overlong { line } => Verdict::Did(Conclusion::Overlong { line }),
        Unverified::Unmarked { line } => Verdict::Did(Conclusion::Unmarked { line }),
        Unverified::Refused(place) => Verdict::Did(Conclusion::Refused(place)),
        Unverified::Wrong { line, cause } => Verdict::Did(Conclusion::Wrong { line, cause }),
        Unverified::Lawless { line, law } => Verdict::Did(Conclusion::Lawless { line, law }),
        Unverified::Memory => Verdict::Broke(Failure::Memory),
    }
}

ghost use Rattle.machine.specs.Status.{err_line};
ghost use Rattle.trace_text.specs.declared.line.StopCause.{StopCause};
ghost use Rattle.gv_top.specs.Answers.{line, place_text, refused_answer};
ghost use Rattle.gv_top.specs.Verifying.{trace_text, unverified};
ghost use Rattle.scenario_reading.specs.Judged.{HasReason};

fn line_with(alloc: Global, text: &[u8]) -> Result<Vec<u8>, AllocError>
    ensures { IfOk result (λ made. made.items ≡ line text.now) }
{
    let mut line = Vec::new(alloc);
    line.extend_from_slice(b"gvr: ")?;
    line.extend_from_slice(text)?;
    line.push(b'\n')?;
    Ok(line)
}

fn fault_line(alloc: Global, kind: FaultKind) -> Result<Vec<u8>, AllocError>
    ensures { IfOk result (λ made. made.items ≡ err_line (StopCause.Fault kind)) }
{
    let mut text = Vec::new(alloc);
    text.extend_from_slice(b"main ended by ")?;
    match kind {
        FaultKind::LoopExit => {
            text.extend_from_slice(b"LoopExit: This operation would block forever")?
        }
        kind => fault_text(kind, &mut text)?,
    }
    Ok(line_with(alloc, text.as_slice())?)
}

fn refusal_line(alloc: Global, place: Place) -> Result<Vec<u8>, AllocError>
    requires { HasReason place }
    ensures { IfOk result (λ made. made.items ≡ (refused_answer place).err) }
{
    place_line(
        alloc,
        u64::from(place.line),
        place.reason,
        reason_text(place.reason).as_bytes(),
    )
}

fn place_line(alloc: Global, number: u64, reason: u8, text: &[u8]) -> Result<Vec<u8>, AllocError>
    ensures { IfOk result (λ made. made.items ≡ line (place_text number reason text.now)) }
{
    let mut made = Vec::new(alloc);
    made.extend_from_slice(b"line ")?;
    decimal_text(number, &mut made)?;
    made.extend_from_slice(b": reason ")?;
    decimal_text(u64::from(reason), &mut made)?;
    made.extend_from_slice(b": ")?;
    made.extend_from_slice(text)?;
    line_with(alloc, made.as_slice())
}

fn trace_line(alloc: Global, number: u64, text: &[u8]) -> Result<Vec<u8>, AllocError>
    ensures { IfOk result (λ made. made.items ≡ line (trace_text number text.now)) }
{
    let mut made = Vec::new(alloc);
    made.extend_from_slice(b"trace line ")?;
    decimal_text(number, &mut made)?;
    made.extend_from_slice(b": ")?;
    made.extend_from_slice(text)?;
    line_with(alloc, made.as_slice())
}

fn cause_line(alloc: Global, number: u64, cause: Cause) -> Result<Vec<u8>, AllocError>
    ensures { IfOk result (λ made. made.items ≡ (unverified (Unverified.Wrong number cause)).err) }
{
    let mut text = Vec::new(alloc);
    text.extend_from_slice(b"cause ")?;
    decimal_text(u64::from(cause.number()), &mut text)?;
    text.extend_from_slice(b": ")?;
    text.extend_from_slice(cause.text().as_bytes())?;
    trace_line(alloc, number, text.as_slice())
}

fn law_line(alloc: Global, number: u64, law: u8) -> Result<Vec<u8>, AllocError>
    ensures { IfOk result (λ made. made.items ≡ (unverified (Unverified.Lawless number law)).err) }
{
    let mut text = Vec::new(alloc);
    text.extend_from_slice(b"law ")?;
    decimal_text(u64::from(law), &mut text)?;
    trace_line(alloc, number, text.as_slice())
}
