//! The jobs that were posted and not answered yet.
ghost use Rattle.std.specs.Prelude.{◌≡◌, ◌↔◌, IsTrue, nat_eq};
ghost use Rattle.std.specs.HashMap.{get};
ghost use Rattle.world.specs.Outstanding.{IsNamed, IsRanked, has_rank};

use gv_values::{Answer, JobOutcome};
use std::alloc::{AllocError, Global};
use std::collections::{BTreeSet, HashMap};
use world_rules::{DueJob, eval};

/// The outstanding jobs. One is found by its number in constant time; one is added or taken off, and the one that is
/// done first is found, in a time that grows with the logarithm of how many there are.
#[derive(Drop)]
pub(crate) struct OutstandingJobs {
    by_number: HashMap<u32, DueJob>,
    // The due moment and the number of each, so that the least is that of the job that is done first.
    ranks: BTreeSet<(u64, u32)>,
    ghost named: { IsNamed (get nat_eq by_number) },
    ghost ranked: { IsRanked (get nat_eq by_number) (has_rank ranks) },
}

fn is_same(a: JobOutcome, b: JobOutcome) -> bool
    ensures { IsTrue result ↔ (a ≡ b) }
{
    a == b
}

impl OutstandingJobs {
    ghost use Rattle.std.specs.Prelude.{◌≡◌, ℕ, ◌↔◌, ◌==◌, IsTrue, nat_eq, List, Some, None, if◌then◌else◌, OnOk, OnErr};
    ghost use Rattle.std.specs.HashMap.{get};
    ghost use Rattle.world_rules.specs.declared.question.DueJob.{DueJob};
    ghost use Rattle.world_rules.specs.Legal.{is_done_of};
    ghost use Rattle.world.specs.Ruled.{IsEndOf};
    ghost use Rattle.world.specs.Outstanding.{IsFirstOf, Finds};

    /// No jobs.
    pub(crate) fn new(alloc: Global) -> OutstandingJobs
        ensures { (number : ℕ) → get nat_eq result.by_number number ≡ None }
    {
        OutstandingJobs {
            by_number: HashMap::new(alloc),
            ranks: BTreeSet::new(alloc),
        }
    }

    /// Takes all off.
    pub(crate) fn clear(&mut self)
        ensures { (number : ℕ) → get nat_eq self.new.by_number number ≡ None }
    {
        self.by_number.clear();
        self.ranks.clear();
    }

    /// Adds a job whose number none of the others has.
    pub(crate) fn add(&mut self, job: DueJob) -> Result<(), AllocError>
        requires new { get nat_eq self.old.by_number job.number ≡ None }
        ensures added { OnOk result ((number : ℕ) → get nat_eq self.new.by_number number ≡ (if job.number == number then Some job else get nat_eq self.old.by_number number)) }
        ensures refused { OnErr result ((number : ℕ) → get nat_eq self.new.by_number number ≡ get nat_eq self.old.by_number number) }
    {
        self.by_number.insert(job.number, job)?;
        if self.ranks.insert((job.due, job.number)).is_err() {
            self.by_number.remove(&job.number);
            return Err(AllocError);
        }
        Ok(())
    }

    /// Takes off the job that the answer names.
    pub(crate) fn take_off(&mut self, answer: Answer)
        ensures { (number : ℕ) → get nat_eq self.new.by_number number ≡ (if is_done_of number answer then None else get nat_eq self.old.by_number number) }
    {
        match answer {
            Answer::Done { number, .. } => self.remove(number),
            Answer::Elapsed { .. } => {}
            Answer::Nothing { .. } => {}
        }
    }

    /// Takes off the job of this number, if it is there.
    pub(crate) fn remove(&mut self, number: u32)
        ensures { (n : ℕ) → get nat_eq self.new.by_number n ≡ (if number == n then None else get nat_eq self.old.by_number n) }
    {
        if let Some(job) = self.by_number.remove(&number) {
            self.ranks.remove(&(job.due, number));
        }
    }

    /// The job that is done first.
    pub(crate) fn first(&self) -> Option<DueJob>
        ensures { IsFirstOf (get nat_eq self.now.by_number) result }
    {
        let rank = *self.ranks.first()?;
        self.by_number.get(&rank.1).copied()
    }

    /// Whether the job of this number is outstanding and comes to this outcome.
    pub(crate) fn has_end(&self, number: u32, outcome: JobOutcome) -> bool
        ensures { (jobs : List DueJob) → Finds (get nat_eq self.now.by_number) jobs → IsTrue result ↔ IsEndOf number outcome jobs }
    {
        match self.by_number.get(&number) {
            Some(job) => is_same(outcome, eval(job.job)),
            None => false,
        }
    }
}
