//! A world that answers as a script, while another world does its jobs.
ghost use Rattle.std.specs.Prelude.{◌≡◌, ◌≢◌, ℕ, ◌<◌, true, false, if◌then◌else◌, None, length, nat_eq, OnOk, OnErr};
ghost use Rattle.std.specs.HashMap.{get};
ghost use Rattle.world.specs.Kept.{script_meaning};
ghost use Rattle.world.specs.Holding.{IsTied, Leads, Takes};
ghost use Rattle.world.specs.LegalLogs.{HasLegalLog};
ghost use Rattle.world_rules.specs.Legal.{is_answered, is_done_of, is_posted, outstanding};

use crate::due::Upshot;
use crate::outside::World;
use crate::script::ScriptWorld;
use gv_values::{Answer, Job, JobOutcome};
use std::alloc::{AllocError, Global};
use std::collections::HashMap;
use world_rules::Question;

/// A world that gives the answers of a script that doesn't tick. Its jobs are done by the world that is lent to it: it
/// answers that a job is done once the other has answered so, and keeps each result that comes before it is wanted.
#[derive(Drop)]
pub struct Held<'a, W: World> {
    inner: &'a mut W,
    script: ScriptWorld,
    // A place for the result of each job that waits for an answer.
    places: HashMap<u32, Option<JobOutcome>>,
    ghost no_tick: { (script_meaning script).tick ≡ 0 },
    ghost tied: { IsTied (W.meaning inner.now) (script_meaning script) (get nat_eq places) },
    ghost logged: { 0 < (script_meaning script).workers → ∥ HasLegalLog (W.meaning inner.now) (W.stands_for inner.now) ∥₁ },
}

/// Waits for the end of a job, and puts its result into its place.
fn take_result<W: World>(
    inner: &mut W,
    places: &mut HashMap<u32, Option<JobOutcome>>,
) -> Result<(), AllocError>
    requires runs { (W.meaning inner.old).runs ≡ true }
    requires owed { 0 < length (outstanding (W.meaning inner.old).posts (W.meaning inner.old).answers) }
    requires placed { (number : ℕ) → is_posted number (W.meaning inner.old).posts ≡ true → is_answered number (W.meaning inner.old).answers ≡ false
        → get nat_eq places.old number ≢ None }
    ensures took { OnOk result (Takes (W.meaning inner.old) (W.meaning inner.new) (get nat_eq places.old) (get nat_eq places.new)) }
    ensures refused { OnErr result (W.meaning inner.new ≡ W.meaning inner.old) }
    ensures logged { HasLegalLog (W.meaning inner.old) (W.stands_for inner.old) → HasLegalLog (W.meaning inner.new) (W.stands_for inner.new) }
    ensures kept { OnErr result ((number : ℕ) → get nat_eq places.new number ≡ get nat_eq places.old number) }
{
    match inner.ask(Question::Wait(None))? {
        Answer::Done {
            number,
            outcome,
            ..
        } => {
            // A job that is owed has a place, so no memory is needed.
            let Ok(_) = places.insert(number, Some(outcome)) else {
                unreachable!()
            };
            Ok(())
        }
        // A wait with no limit, while a job is owed, is answered with a result.
        Answer::Elapsed { .. } => unreachable!(),
        Answer::Nothing { .. } => unreachable!(),
    }
}

/// Takes the place of the job away that the answer names.
fn clear_place(places: &mut HashMap<u32, Option<JobOutcome>>, answer: Answer)
    ensures { (n : ℕ) → get nat_eq places.new n ≡ (if is_done_of n answer then None else get nat_eq places.old n) }
{
    match answer {
        Answer::Done { number, .. } => {
            places.remove(&number);
        }
        Answer::Elapsed { .. } => {}
        Answer::Nothing { .. } => {}
    }
}

impl<'a, W: World> Held<'a, W> {
    ghost use Rattle.std.specs.Prelude.{Some, IfOk};
    ghost use Rattle.gv_values.specs.declared.job.Answer.TheVariants.{Done};
    ghost use Rattle.gv_values.specs.declared.job.JobOutcome.{JobOutcome};
    ghost use Rattle.world_rules.specs.Legal.{IsLegal, MayAsk};
    ghost use Rattle.world_rules.specs.Script.{scripted};
    ghost use Rattle.world.specs.Kept.{due_jobs};

    /// A world over this one, of which neither runs yet.
    pub fn new(alloc: Global, inner: &'a mut W) -> Held<'a, W>
        requires { (W.meaning inner.old).runs ≡ false }
        ensures same_reference { result.inner.ghost_name ≡ inner.entry.ghost_name }
        ensures same { result.inner.now ≡ inner.old }
        ensures stopped { (script_meaning result.script).runs ≡ false }
    {
        Held {
            inner,
            script: ScriptWorld::new(alloc, 0),
            places: HashMap::new(alloc),
        }
    }

    /// The world that was lent to it.
    pub fn into_inner(self) -> &'a mut W
        ensures same_reference { result.ghost_name ≡ self.entry.inner.ghost_name }
        ensures same { result.now ≡ self.entry.inner.now }
        ensures leads { Leads (W.meaning result.now) (script_meaning self.entry.script) }
        ensures logged { 0 < (script_meaning self.entry.script).workers → ∥ HasLegalLog (W.meaning result.now) (W.stands_for result.now) ∥₁ }
    {
        let Held {
            inner,
            script,
            places,
        } = self;
        drop(script);
        drop(places);
        inner
    }

    /// The result of a job that waits for an answer. What comes before it is kept.
    fn fetch(&mut self, number: u32) -> Result<JobOutcome, AllocError>
        requires runs { (script_meaning self.old.script).runs ≡ true }
        requires posted { is_posted number (script_meaning self.old.script).posts ≡ true }
        requires new { is_answered number (script_meaning self.old.script).answers ≡ false }
        ensures script { self.new.script ≡ self.old.script }
        ensures same_reference { self.new.inner.ghost_name ≡ self.old.inner.ghost_name }
        ensures fetched { IfOk result (λ outcome. get nat_eq self.new.places number ≡ Some (Some outcome)) }
    {
        loop {
            match self.places.get(&number) {
                // The requires say that the job waits for an answer, and such a job has a place.
                None => unreachable!(),
                Some(Some(outcome)) => return Ok(*outcome),
                Some(None) => take_result(self.inner, &mut self.places)?,
            }
        }
    }

    /// What the script answers, once the result of the job that it names came.
    fn answer_to(&mut self, question: Question) -> Result<Answer, AllocError>
        requires runs { (script_meaning self.old.script).runs ≡ true }
        requires asks { MayAsk (script_meaning self.old.script).posts (script_meaning self.old.script).answers question }
        ensures script { self.new.script ≡ self.old.script }
        ensures same_reference { self.new.inner.ghost_name ≡ self.old.inner.ghost_name }
        ensures scripted { IfOk result (λ answer. answer ≡ scripted 0 (due_jobs self.old.script) (script_meaning self.old.script).moment question) }
        ensures legal { IfOk result (λ answer. IsLegal (script_meaning self.old.script).posts (script_meaning self.old.script).answers question answer) }
        ensures came { IfOk result (λ answer. (number : ℕ) (outcome : JobOutcome) (at : ℕ) → answer ≡ Done number outcome at → get nat_eq self.new.places number ≡ Some (Some outcome)) }
    {
        match self.script.decide(question) {
            Upshot::Ends(job, at) => {
                let outcome = self.fetch(job.number)?;
                Ok(Answer::Done {
                    number: job.number,
                    outcome,
                    at,
                })
            }
            Upshot::Elapses(at) => Ok(Answer::Elapsed { at }),
            Upshot::Nothing(at) => Ok(Answer::Nothing { at }),
        }
    }
}

impl<'a, W: World> World for Held<'a, W> {
    ghost use Rattle.world.specs.Kept.{script_log};
    ghost use Rattle.world.specs.Logged.{script_log_is};

    ghost meaning = { λ h. record (script_meaning h.script) { reference = h.inner.ghost_name } };

    ghost stands_for = { λ h. script_log h.script };

    ghost log_is = { λ h. script_log_is h.script };

    ghost waits = { W.waits };

    fn begin(&mut self, workers: u32) -> Result<(), AllocError> {
        self.inner.begin(workers)?;
        self.script.restart(workers);
        self.places.clear();
        Ok(())
    }

    fn post(&mut self, number: u32, job: Job, takes: u64) -> Result<(), AllocError> {
        self.places.insert(number, None)?;
        self.script.add_beside(self.inner, number, job, takes)?;
        Ok(())
    }

    fn ask(&mut self, question: Question) -> Result<Answer, AllocError> {
        let answer = self.answer_to(question)?;
        self.script.store(question, answer)?;
        clear_place(&mut self.places, answer);
        Ok(answer)
    }

    fn may_wait(&self) -> bool {
        self.inner.may_wait()
    }

    fn finish(&mut self) {
        self.inner.finish();
        self.script.stop();
    }
}
