//! A world that answers from a list.
ghost use Rattle.std.specs.Prelude.{◌≡◌, OnOk};
ghost use Rattle.world.specs.Kept.{script_meaning};

use crate::outside::World;
use crate::script::ScriptWorld;
use gv_values::{Answer, Job};
use std::alloc::{AllocError, Global};
use std::collections::VecDeque;
use std::snapshot::Snapshot;
use world_rules::Question;

/// A world that gives the first answer of its list, where that is legal, and takes it off. Else it answers as a script
/// that doesn't tick, and the list stays.
#[derive(Drop)]
pub struct ListWorld {
    script: ScriptWorld,
    listed: VecDeque<Answer>,
    // The list with which it began, which exists in proofs alone.
    begun_with: Snapshot<VecDeque<Answer>>,
    ghost no_tick: { (script_meaning script).tick ≡ 0 },
}

impl ListWorld {
    ghost use Rattle.std.specs.Prelude.{◌∷◌, List, false, MatchOption};
    ghost use Rattle.world_rules.specs.Legal.{IsLegal};
    ghost use Rattle.world_rules.specs.declared.question.Question.{Question};
    ghost use Rattle.gv_values.specs.declared.job.Answer.{Answer};
    ghost use Rattle.world.specs.Listed.{list_meaning, still_listed, FirstLegal};

    /// A world that doesn't run yet, with these answers.
    pub fn new(alloc: Global, answers: Vec<Answer>) -> ListWorld
        ensures tick { (list_meaning result).tick ≡ 0 }
        ensures listed { still_listed result ≡ answers.items }
        ensures stopped { (list_meaning result).runs ≡ false }
    {
        let listed = VecDeque::from(answers);
        let begun_with = Snapshot::of(&listed);
        ListWorld {
            script: ScriptWorld::new(alloc, 0),
            listed,
            begun_with,
        }
    }

    /// The first answer of the list, where that is legal.
    fn first_legal(&self, question: Question) -> Option<Answer>
        ensures { FirstLegal self.now question result }
    {
        let first = *self.listed.front()?;
        if self.script.is_legal(question, first) {
            Some(first)
        } else {
            None
        }
    }
}

impl World for ListWorld {
    ghost use Rattle.std.specs.Prelude.{◌<◌, ◌≤◌, ◌↔◌, false, List, [], OnErr};
    ghost use Rattle.gv_values.specs.declared.limits.TheConstants.{MOST_WORKERS};
    ghost use Rattle.world_rules.specs.declared.question.LogEntry.{LogEntry};
    ghost use Rattle.world.specs.Outside.{Begins};
    ghost use Rattle.world.specs.Listed.{list_meaning, still_listed, list_log, list_log_is};

    ghost meaning = { list_meaning };

    ghost stands_for = { list_log };

    ghost log_is = { list_log_is };

    ghost waits = { false };

    fn begin(&mut self, workers: u32) -> Result<(), AllocError>
        requires stopped { (list_meaning self.old).runs ≡ false }
        requires some { 0 < workers }
        requires few { workers ≤ MOST_WORKERS }
        ensures begins { OnOk result (Begins (list_meaning self.old) (list_meaning self.new) workers) }
        ensures log { OnOk result (list_log self.new []) }
        ensures refused { OnErr result (list_meaning self.new ≡ list_meaning self.old) }
        ensures refused_log { OnErr result ((log : List LogEntry) → list_log self.old log ↔ list_log self.new log) }
        ensures listed { OnOk result ((list_meaning self.new).listed ≡ still_listed self.old) }
    {
        self.script.restart(workers);
        self.begun_with = Snapshot::of(&self.listed);
        Ok(())
    }

    fn post(&mut self, number: u32, job: Job, takes: u64) -> Result<(), AllocError> {
        self.script.add(number, job, takes)?;
        Ok(())
    }

    fn ask(&mut self, question: Question) -> Result<Answer, AllocError> {
        match self.first_legal(question) {
            Some(answer) => {
                self.script.store(question, answer)?;
                self.listed.pop_front();
                Ok(answer)
            }
            None => {
                let answer = self.script.by_script(question);
                self.script.store(question, answer)?;
                Ok(answer)
            }
        }
    }

    fn may_wait(&self) -> bool {
        false
    }

    fn finish(&mut self) {
        self.script.stop();
    }
}
