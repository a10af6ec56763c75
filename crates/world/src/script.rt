//! A world that answers by a script.
ghost use Rattle.std.specs.Prelude.{nat_eq};
ghost use Rattle.std.specs.HashMap.{get};
ghost use Rattle.world.specs.Ruled.{IsSound};
ghost use Rattle.world.specs.Outstanding.{still_due, ArePosted};

use crate::due::{Upshot, answer_of, decide, due_at, moment_of};
use crate::legal::is_legal;
use crate::outside::World;
use crate::outstanding::OutstandingJobs;
use gv_values::{Answer, Job};
use std::alloc::{AllocError, Global};
use world_rules::{DueJob, PostedJob, Question};

/// A world without threads, in which a job is done so long after its post as it takes, and whose moment grows by a tick
/// at each Poll.
#[derive(Drop)]
pub struct ScriptWorld {
    tick: u64,
    workers: u32,
    running: bool,
    moment: u64,
    posts: Vec<PostedJob>,
    answers: Vec<Answer>,
    outstanding: OutstandingJobs,
    ghost posted: { ArePosted (get nat_eq outstanding.by_number) posts.items },
    ghost sound: { IsSound posts.items answers.items (still_due (get nat_eq outstanding.by_number) posts.items) moment },
}

impl ScriptWorld {
    ghost use Rattle.std.specs.Prelude.{◌≡◌, ◌≤◌, ◌↔◌, IsTrue, List, [], true, false, OnOk, OnErr};
    ghost use Rattle.gv_values.specs.declared.job.Answer.{Answer};
    ghost use Rattle.world_rules.specs.Legal.{is_posted, IsLegal, MayAsk};
    ghost use Rattle.world_rules.specs.Rules.{start, rule_after_post, rule_after_answer};
    ghost use Rattle.world_rules.specs.Script.{scripted};
    ghost use Rattle.world.specs.Kept.{script_meaning, due_jobs, rule_state, SameSetting, SameScript};
    ghost use Rattle.world.specs.LegalLogs.{HasLegalLog};
    ghost use Rattle.world.specs.Upshots.{said};
    ghost use Rattle.world.specs.Outside.{Posts};

    /// A world that doesn't run yet, whose moment grows by so many milliseconds at each Poll.
    pub fn new(alloc: Global, tick: u64) -> ScriptWorld
        ensures tick { (script_meaning result).tick ≡ tick }
        ensures stopped { (script_meaning result).runs ≡ false }
        ensures workers { (script_meaning result).workers ≡ 0 }
        ensures state { (listed : List Answer) → rule_state result listed ≡ start listed }
    {
        ScriptWorld {
            tick,
            workers: 0,
            running: false,
            moment: 0,
            posts: Vec::new(alloc),
            answers: Vec::new(alloc),
            outstanding: OutstandingJobs::new(alloc),
        }
    }

    /// Forgets all posts and answers, and begins anew.
    pub(crate) fn restart(&mut self, workers: u32)
        ensures state { (listed : List Answer) → rule_state self.new listed ≡ start listed }
        ensures setting { (self.new.tick ≡ self.old.tick) × (self.new.workers ≡ workers) × (self.new.running ≡ true) }
    {
        self.posts.clear();
        self.answers.clear();
        self.outstanding.clear();
        self.moment = 0;
        self.workers = workers;
        self.running = true;
    }

    /// Runs no longer.
    pub(crate) fn stop(&mut self)
        ensures { self.new ≡ record self.old { running = false } }
    {
        self.running = false;
    }

    /// Adds a job, which is due so long after the moment as it takes.
    pub(crate) fn add(&mut self, number: u32, job: Job, takes: u64) -> Result<(), AllocError>
        requires new { is_posted number self.old.posts.items ≡ false }
        ensures state { OnOk result ((listed : List Answer) → rule_state self.new listed ≡ rule_after_post (rule_state self.old listed) number job takes) }
        ensures setting { OnOk result (SameSetting self.old self.new) }
        ensures refused { OnErr result (SameScript self.old self.new) }
    {
        self.posts.reserve(1)?;
        let due = due_at(self.moment, takes);
        self.outstanding.add(DueJob { number, job, due })?;
        self.posts.push_reserved(PostedJob { number, job });
        Ok(())
    }

    /// Adds a job as `add` does, once the other world was posted it too, where it takes none of that world's own time.
    /// Where either has no memory for it, neither was posted it.
    pub(crate) fn add_beside<W: World>(
        &mut self,
        other: &mut W,
        number: u32,
        job: Job,
        takes: u64,
    ) -> Result<(), AllocError>
        requires new { is_posted number self.old.posts.items ≡ false }
        requires runs { (W.meaning other.old).runs ≡ true }
        requires new_there { is_posted number (W.meaning other.old).posts ≡ false }
        ensures state { OnOk result ((listed : List Answer) → rule_state self.new listed ≡ rule_after_post (rule_state self.old listed) number job takes) }
        ensures setting { OnOk result (SameSetting self.old self.new) }
        ensures refused { OnErr result (SameScript self.old self.new) }
        ensures posted { OnOk result (Posts (W.meaning other.old) (W.meaning other.new) number job) }
        ensures refused_there { OnErr result (W.meaning other.new ≡ W.meaning other.old) }
        ensures logged_there { HasLegalLog (W.meaning other.old) (W.stands_for other.old) → HasLegalLog (W.meaning other.new) (W.stands_for other.new) }
    {
        self.posts.reserve(1)?;
        let due = due_at(self.moment, takes);
        self.outstanding.add(DueJob { number, job, due })?;
        if other.post(number, job, 0).is_err() {
            self.outstanding.remove(number);
            return Err(AllocError);
        }
        self.posts.push_reserved(PostedJob { number, job });
        Ok(())
    }

    /// What the script answers, which is legal where the question may be asked.
    pub(crate) fn by_script(&self, question: Question) -> Answer
        requires { MayAsk self.now.posts.items self.now.answers.items question }
        ensures script { result ≡ scripted self.now.tick (due_jobs self.now) self.now.moment question }
        ensures legal { IsLegal self.now.posts.items self.now.answers.items question result }
    {
        answer_of(self.decide(question))
    }

    /// The same, before the job that it names is evaluated.
    pub(crate) fn decide(&self, question: Question) -> Upshot
        requires { MayAsk self.now.posts.items self.now.answers.items question }
        ensures script { said result ≡ scripted self.now.tick (due_jobs self.now) self.now.moment question }
        ensures legal { IsLegal self.now.posts.items self.now.answers.items question (said result) }
    {
        decide(self.tick, self.outstanding.first(), self.moment, question)
    }

    /// Whether an answer to the question is legal now.
    pub(crate) fn is_legal(&self, question: Question, answer: Answer) -> bool
        ensures { IsTrue result ↔ IsLegal self.now.posts.items self.now.answers.items question answer }
    {
        is_legal(&self.outstanding, self.moment, question, answer)
    }

    /// Stores a legal answer to the question.
    pub(crate) fn store(&mut self, question: Question, answer: Answer) -> Result<(), AllocError>
        requires { IsLegal self.old.posts.items self.old.answers.items question answer }
        ensures state { OnOk result ((old later : List Answer) → rule_state self.new later ≡ rule_after_answer (rule_state self.old old) later answer) }
        ensures moment { OnOk result (self.old.moment ≤ self.new.moment) }
        ensures setting { OnOk result (SameSetting self.old self.new) }
        ensures refused { OnErr result (SameScript self.old self.new) }
    {
        // The contract alone speaks of it.
        let _ = question;
        self.answers.push(answer)?;
        self.outstanding.take_off(answer);
        self.moment = moment_of(answer);
        Ok(())
    }
}

impl World for ScriptWorld {
    ghost use Rattle.std.specs.Prelude.{false};
    ghost use Rattle.world.specs.Kept.{script_meaning, script_log};
    ghost use Rattle.world.specs.Logged.{script_log_is};

    ghost meaning = { script_meaning };

    ghost stands_for = { script_log };

    ghost log_is = { script_log_is };

    ghost waits = { false };

    fn begin(&mut self, workers: u32) -> Result<(), AllocError> {
        self.restart(workers);
        Ok(())
    }

    fn post(&mut self, number: u32, job: Job, takes: u64) -> Result<(), AllocError> {
        self.add(number, job, takes)?;
        Ok(())
    }

    fn ask(&mut self, question: Question) -> Result<Answer, AllocError> {
        let answer = self.by_script(question);
        self.store(question, answer)?;
        Ok(answer)
    }

    fn may_wait(&self) -> bool {
        false
    }

    fn finish(&mut self) {
        self.stop();
    }
}
