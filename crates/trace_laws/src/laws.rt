//! Whether lines that come one after another keep the laws of a trace.
ghost use Rattle.std.specs.Prelude.{◌≡◌, ℕ, List, None, nat_eq, nat_lt, IfErr, IfSome, IsSome, OnOk, OnErr};
ghost use Rattle.std.specs.HashMap.{get};
ghost use Rattle.world_rules.specs.Legal.{moment_of};
ghost use Rattle.trace_text.specs.declared.line.Line.{Line as AnyLine};
ghost use Rattle.machine.specs.TraceLaws.{greenlet_of};
ghost use Rattle.trace_laws.specs.Kept.{breaks_if, is_due, kept_answer, kept_break, kept_stage, or_other, stage_of, was_done};
ghost use Rattle.trace_text.specs.declared.line.LinkCall.{LinkCall};

use gv_values::{Answer, Job, JobOutcome};
use std::alloc::{AllocError, Global};
use std::collections::{HashMap, HashSet};
use thiserror::Error;
use trace_text::Line;
use world_rules::eval;

/// Why a line was not counted.
#[derive(Clone, Copy, Debug, PartialEq, Eq, Error)]
pub enum LawRefusal {
    /// The lines with this one break the law of this number, and none of a lower one.
    #[error("law {0} is broken")]
    Broken(u8),
    /// Memory ran out. All is as before.
    #[error("out of memory")]
    Memory,
}

impl From<AllocError> for LawRefusal {
    ghost use Rattle.std.specs.Prelude.{◌≡◌};
    ghost use Rattle.trace_laws.specs.declared.laws.LawRefusal.TheVariants.{Memory};

    ghost from_gives = { λ _ e. e ≡ Memory };

    fn from(_: AllocError) -> LawRefusal {
        LawRefusal::Memory
    }
}

/// How a greenlet is left by its last line.
#[derive(Clone, Copy, PartialEq, Eq)]
pub(crate) enum GreenletStage {
    /// No line was its.
    Unseen,
    Moving,
    Parked,
    Ended,
}

/// What is kept of a job.
#[derive(Clone, Copy)]
pub(crate) struct JobNote {
    /// The job of its last job line.
    job: Job,
    /// There was a job line before that.
    again: bool,
    /// Its done line has come.
    done: bool,
}

/// What is kept of the lines so far.
#[derive(Drop)]
pub struct Laws {
    greenlets: HashMap<u32, GreenletStage>,
    links: HashSet<u32>,
    jobs: HashMap<u32, JobNote>,
    // The moment of the last turn line.
    moment: u64,
    // The law that a line broke.
    broken: Option<u8>,
}

impl Laws {
    ghost use Rattle.std.specs.Prelude.{[]};
    ghost use Rattle.trace_laws.specs.Kept.{BreaksOn, ChangesNote, ChangesStage, EndsJob, IsJudgedNext, KeepsMore, KeepsSame, StandsFor};

    /// No line was counted.
    pub fn new(alloc: Global) -> Laws
        ensures { StandsFor result [] }
    {
        Laws {
            greenlets: HashMap::new(alloc),
            links: HashSet::new(alloc),
            jobs: HashMap::new(alloc),
            moment: 0,
            broken: None,
        }
    }

    /// Counts the line, where the lines with it keep the laws. `Broken`: they break the law of this number and none of
    /// a lower one; the same is answered from then on. `Memory`: memory ran out, and the line is not counted.
    pub fn step(&mut self, line: &Line) -> Result<(), LawRefusal>
        ensures judged { (lines : List AnyLine) → StandsFor self.old lines → IsJudgedNext self.new lines line.now result }
        ensures stays { IfSome self.old.broken (λ number. (result ≡ Err (LawRefusal.Broken number)) × (self.new ≡ self.old)) }
        ensures broken { IfErr result (BreaksOn self.new) }
    {
        if let Some(number) = self.broken {
            return Err(LawRefusal::Broken(number));
        }
        if let Some(number) = self.broken_by(line) {
            self.broken = Some(number);
            return Err(LawRefusal::Broken(number));
        }
        self.count(line)?;
        Ok(())
    }

    /// The law that this line breaks.
    fn broken_by(&self, line: &Line) -> Option<u8>
        ensures { result ≡ kept_break self.now line.now }
    {
        match line {
            Line::End {
                greenlet,
                outcome: _,
            } => breaks_if(1, self.stage(*greenlet) == GreenletStage::Ended),
            Line::Throw { greenlet, fault: _ } => {
                let stage = self.stage(*greenlet);
                breaks_if(2, stage == GreenletStage::Ended).or(breaks_if(
                    3,
                    stage == GreenletStage::Moving,
                ))
            }
            Line::Link {
                number,
                greenlet,
                call: _,
            } => {
                let ended = self.stage(*greenlet) == GreenletStage::Ended;
                breaks_if(4, !ended || self.links.contains(number))
            }
            Line::Turn { number: _, answer } => self.broken_by_answer(*answer),
            _ => match greenlet_of(line) {
                None => None,
                Some(greenlet) => breaks_if(2, self.stage(greenlet) == GreenletStage::Ended),
            },
        }
    }

    /// The law that this answer breaks.
    fn broken_by_answer(&self, answer: Answer) -> Option<u8>
        ensures { result ≡ or_other (breaks_if 5 (nat_lt (moment_of answer) self.now.moment)) (kept_answer self.now answer) }
    {
        breaks_if(5, moment_of(answer) < self.moment).or(match answer {
            Answer::Done {
                number,
                outcome,
                at: _,
            } => breaks_if(6, !is_due(outcome, self.jobs.get(&number).copied())),
            Answer::Elapsed { at: _ } | Answer::Nothing { at: _ } => None,
        })
    }

    /// How the greenlet is left by its last line.
    fn stage(&self, greenlet: u32) -> GreenletStage
        ensures { result ≡ kept_stage self.now greenlet }
    {
        self.greenlets
            .get(&greenlet)
            .copied()
            .unwrap_or(GreenletStage::Unseen)
    }

    /// Counts the line, which breaks no law.
    fn count(&mut self, line: &Line) -> Result<(), AllocError>
        ensures ok { OnOk result (KeepsMore self.old self.new line.now) }
        ensures err { OnErr result (KeepsSame self.old self.new) }
    {
        match line {
            Line::Job {
                number,
                greenlet,
                job,
            } => self.count_job(*number, *greenlet, *job),
            Line::Link {
                number,
                greenlet: _,
                call: _,
            } => self.count_link(*number),
            Line::Turn { number: _, answer } => self.count_answer(*answer),
            _ => match greenlet_of(line) {
                None => Ok(()),
                Some(greenlet) => self.leave(greenlet, stage_of(line)),
            },
        }
    }

    /// The greenlet is left so.
    fn leave(&mut self, greenlet: u32, stage: GreenletStage) -> Result<(), AllocError>
        ensures ok { OnOk result (ChangesStage self.old self.new greenlet stage) }
        ensures err { OnErr result (KeepsSame self.old self.new) }
        ensures absent { OnErr result (get nat_eq self.old.greenlets greenlet ≡ None) }
    {
        self.greenlets.insert(greenlet, stage)?;
        Ok(())
    }

    /// There is a place for how the greenlet is left.
    fn make_place(&mut self, greenlet: u32) -> Result<(), AllocError>
        ensures same { KeepsSame self.old self.new }
        ensures there { OnOk result (IsSome (get nat_eq self.new.greenlets greenlet)) }
    {
        if self.greenlets.contains_key(&greenlet) {
            return Ok(());
        }
        self.leave(greenlet, GreenletStage::Unseen)
    }

    /// This is kept of the job.
    fn keep(&mut self, number: u32, note: JobNote) -> Result<(), AllocError>
        ensures ok { OnOk result (ChangesNote self.old self.new number note) }
        ensures err { OnErr result (KeepsSame self.old self.new) }
    {
        self.jobs.insert(number, note)?;
        Ok(())
    }

    /// Counts the line of a job.
    fn count_job(&mut self, number: u32, greenlet: u32, job: Job) -> Result<(), AllocError>
        ensures ok { OnOk result (KeepsMore self.old self.new (Line.Job number greenlet job)) }
        ensures err { OnErr result (KeepsSame self.old self.new) }
    {
        self.make_place(greenlet)?;
        let before = self.jobs.get(&number).copied();
        let note = JobNote {
            job,
            again: before.is_some(),
            done: was_done(before),
        };
        self.keep(number, note)?;
        match self.leave(greenlet, GreenletStage::Moving) {
            Ok(()) => Ok(()),
            // The place is there, so this takes no memory.
            Err(AllocError) => unreachable!(),
        }
    }

    /// Counts the line of a link.
    fn count_link(&mut self, number: u32) -> Result<(), AllocError>
        ensures ok { (g : ℕ) (call : LinkCall) → OnOk result (KeepsMore self.old self.new (Line.Link number g call)) }
        ensures err { OnErr result (KeepsSame self.old self.new) }
    {
        self.links.insert(number)?;
        Ok(())
    }

    /// Counts a turn line with this answer.
    fn count_answer(&mut self, answer: Answer) -> Result<(), AllocError>
        ensures ok { (k : ℕ) → OnOk result (KeepsMore self.old self.new (Line.Turn k answer)) }
        ensures err { OnErr result (KeepsSame self.old self.new) }
    {
        if let Answer::Done {
            number,
            outcome: _,
            at: _,
        } = answer
        {
            self.end_job(number)?;
        }
        self.moment = moment_of(answer);
        Ok(())
    }

    /// The done line of the job has come.
    fn end_job(&mut self, number: u32) -> Result<(), AllocError>
        ensures ok { OnOk result (EndsJob self.old self.new number) }
        ensures err { OnErr result (KeepsSame self.old self.new) }
    {
        match self.jobs.get(&number).copied() {
            None => Ok(()),
            Some(note) => self.keep(
                number,
                JobNote {
                    job: note.job,
                    again: note.again,
                    done: true,
                },
            ),
        }
    }
}

/// The number, where it is so.
fn breaks_if(number: u8, broken: bool) -> Option<u8>
    ensures { result ≡ breaks_if number broken }
{
    if broken { Some(number) } else { None }
}

/// The moment at which an answer was given.
fn moment_of(answer: Answer) -> u64
    ensures { result ≡ moment_of answer }
{
    match answer {
        Answer::Done {
            number: _,
            outcome: _,
            at,
        } => at,
        Answer::Elapsed { at } => at,
        Answer::Nothing { at } => at,
    }
}

/// Whether the job comes to this outcome, once.
fn is_due(outcome: JobOutcome, note: Option<JobNote>) -> bool
    ensures { result ≡ is_due outcome note }
{
    match note {
        None => false,
        Some(note) => !note.again && !note.done && eval(note.job) == outcome,
    }
}

/// Whether its done line has come.
fn was_done(note: Option<JobNote>) -> bool
    ensures { result ≡ was_done note }
{
    match note {
        None => false,
        Some(note) => note.done,
    }
}

/// The greenlet whose line it is: the one that it names first; a link line is of none.
fn greenlet_of(line: &Line) -> Option<u32>
    ensures { result ≡ greenlet_of line.now }
{
    match line {
        Line::Start {
            greenlet,
            function: _,
        } => Some(*greenlet),
        Line::Print { greenlet, value: _ } => Some(*greenlet),
        Line::Park {
            greenlet,
            awaited: _,
            until: _,
        } => Some(*greenlet),
        Line::Resume { greenlet, by: _ } => Some(*greenlet),
        Line::Throw { greenlet, fault: _ } => Some(*greenlet),
        Line::Into { greenlet, input: _ } => Some(*greenlet),
        Line::End {
            greenlet,
            outcome: _,
        } => Some(*greenlet),
        Line::Job {
            number: _,
            greenlet,
            job: _,
        } => Some(*greenlet),
        _ => None,
    }
}

/// How the line leaves its greenlet.
fn stage_of(line: &Line) -> GreenletStage
    ensures { result ≡ stage_of line.now }
{
    match line {
        Line::Park {
            greenlet: _,
            awaited: _,
            until: _,
        } => GreenletStage::Parked,
        Line::End {
            greenlet: _,
            outcome: _,
        } => GreenletStage::Ended,
        _ => GreenletStage::Moving,
    }
}
