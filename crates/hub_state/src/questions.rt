//! What the hub asks between two turns, and what the answer does.
ghost use Rattle.std.specs.Prelude.{◌≡◌, ◌+◌, ◌≤◌, ◌^◌, ℕ, Option, length, OnOk};
ghost use Rattle.machine.specs.Questions.{question, block_line, arrives, take_answer};
ghost use Rattle.machine.specs.Holds.{job_at};
ghost use Rattle.hub_objects.specs.Jobs.{job_came};
ghost use Rattle.world_rules.specs.Legal.{moment_of};
ghost use Rattle.hub_state.specs.Forgotten.{came};

use crate::hub::Hub;
use crate::order::items_stand_in_order;
use gv_values::{Answer, JobOutcome};
use hub_objects::{Change, Posted, any_outstanding, arrive_at, job_at};
use std::alloc::AllocError;
use trace_text::{Blocked, Line};
use world_rules::{LAST_MOMENT, Question};

/// The job of this number has come to this.
fn arrive_in(jobs: &mut Vec<Posted>, j: u32, outcome: JobOutcome)
    ensures { (pool : Option ℕ) × job_came j outcome jobs.old.items pool jobs.new.items }
{
    arrive_at(jobs, j, outcome);
}

impl Hub {
    /// What the turn asks at its end, and none where nothing can come. Looks at each job where no item has a number or
    /// a deadline.
    pub fn question(&self) -> Option<Question>
        ensures { result ≡ question self.now }
    {
        if self.held.any_numbered() {
            return Some(Question::Poll);
        }
        match self.held.least_deadline() {
            Some(moment) => Some(Question::Wait(Some(moment.min(LAST_MOMENT)))),
            None => {
                if any_outstanding(&self.base.jobs) {
                    Some(Question::Wait(None))
                } else {
                    None
                }
            }
        }
    }

    /// Writes the block line, where no item has a number. Looks at the same as the question. `AllocError`: memory is
    /// wanting; the hub is given up.
    pub fn block(&mut self) -> Result<(), AllocError>
        ensures { OnOk result (self.new ≡ block_line self.old) }
    {
        if self.held.any_numbered() {
            return Ok(());
        }
        let blocked = match self.held.least_deadline() {
            Some(moment) => Blocked::Until(moment),
            None => {
                if any_outstanding(&self.base.jobs) {
                    Blocked::Jobs
                } else {
                    Blocked::Nothing
                }
            }
        };
        self.base.lines.push(Line::Block(blocked))?;
        Ok(())
    }

    /// The job that the answer names has come to this, and its slot is free.
    fn arrive(&mut self, j: u32, outcome: JobOutcome)
        ensures { self.new ≡ arrives j outcome (job_at j self.old.jobs) self.old }
    {
        let Some(job) = job_at(&self.base.jobs, j) else {
            return;
        };
        let pool = job.pool();
        items_stand_in_order(&self.held);
        self.touched.touch_end(true, j);
        self.touched.touch(Some(pool));
        self.base.objects.change(pool, Change::SlotFreed);
        arrive_in(&mut self.base.jobs, j, outcome);
    }

    /// The moment of the answer is reached, and its job has come.
    fn come(&mut self, answer: Answer)
        requires { moment_of answer ≤ LAST_MOMENT }
        ensures { self.new ≡ came answer self.old }
    {
        match answer {
            Answer::Done {
                number,
                outcome,
                at,
            } => {
                self.reach(at);
                self.arrive(number, outcome);
            }
            Answer::Elapsed { at } => self.reach(at),
            Answer::Nothing { at } => self.reach(at),
        }
    }

    /// Takes an answer: it sets the moment, brings its job's outcome, and is written. Settles all items.
    ///
    /// # Errors
    ///
    /// Memory is wanting for the line; the hub is given up, and has the answer already.
    #[tactic(auto, using(crate::proofs::Forgetting::taken_so))]
    pub fn take(&mut self, answer: Answer) -> Result<(), AllocError>
        requires room { self.old.next_ready + length self.old.items ≤ 2 ^ 63 }
        requires moment { moment_of answer ≤ LAST_MOMENT }
        ensures { OnOk result (self.new ≡ take_answer answer self.old) }
    {
        let number = self.turns();
        self.come(answer);
        self.say(Line::Turn { number, answer })?;
        self.settle();
        Ok(())
    }
}
