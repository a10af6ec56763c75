//! The interface of a world.
ghost use Rattle.std.specs.Prelude.{◌≡◌, ℕ, ◌<◌, ◌≤◌, ◌↔◌, Bool, false, true, List, [], ◌∷◌, ◌++◌, IfOk, OnOk, OnErr};
ghost use Rattle.gv_values.specs.declared.limits.TheConstants.{MOST_WORKERS};
ghost use Rattle.world_rules.specs.declared.question.LogEntry.{LogEntry};
ghost use Rattle.world_rules.specs.declared.question.LogEntry.TheVariants as entry;
ghost use Rattle.world_rules.specs.Legal.{is_posted, posts_of, answers_of, IsLegal, MayAsk};
ghost use Rattle.world.specs.Outside.{WorldMeaning, Begins, Posts, Stores};

use gv_values::{Answer, Job};
use std::alloc::AllocError;
use world_rules::Question;

/// What runs jobs outside of the hub and tells the time. It answers each question legally and stores its answers.
///
/// A world also stands for logs: lists of what was done with it since it began. A call that isn't refused adds its
/// entry to each of them, and a refused call leaves the world as it was.
pub trait World {
    /// What the world means to those that use it.
    ghost meaning: { Self → WorldMeaning };

    /// Whether the world stands for a log.
    ghost stands_for: { Self → List LogEntry → Type 0 };

    // Whether it may be long in answering.
    ghost waits: { Bool };

    /// Begins with no posts and no answers, at moment 0, with 1 to `MOST_WORKERS` workers. `AllocError`: memory is
    /// wanting.
    fn begin(&mut self, workers: u32) -> Result<(), AllocError>
        requires stopped { (meaning self.old).runs ≡ false }
        requires some { 0 < workers }
        requires few { workers ≤ MOST_WORKERS }
        ensures begins { OnOk result (Begins (meaning self.old) (meaning self.new) workers) }
        ensures log { OnOk result (stands_for self.new []) }
        ensures refused { OnErr result (meaning self.new ≡ meaning self.old) }
        ensures refused_log { OnErr result ((log : List LogEntry) → stands_for self.old log ↔ stands_for self.new log) };

    /// Posts a job that takes so many milliseconds, if it takes any of the world's own time. `AllocError`: memory is
    /// wanting.
    fn post(&mut self, number: u32, job: Job, takes: u64) -> Result<(), AllocError>
        requires runs { (meaning self.old).runs ≡ true }
        requires new { is_posted number (meaning self.old).posts ≡ false }
        ensures posted { OnOk result (Posts (meaning self.old) (meaning self.new) number job) }
        ensures log { OnOk result ((log : List LogEntry) → stands_for self.old log → stands_for self.new (log ++ entry.Post number job takes ∷ [])) }
        ensures refused { OnErr result (meaning self.new ≡ meaning self.old) }
        ensures refused_log { OnErr result ((log : List LogEntry) → stands_for self.old log ↔ stands_for self.new log) };

    /// Answers a question, and stores the answer. It may wait. `AllocError`: memory is wanting, and nothing was
    /// answered.
    fn ask(&mut self, question: Question) -> Result<Answer, AllocError>
        requires runs { (meaning self.old).runs ≡ true }
        requires asks { MayAsk (meaning self.old).posts (meaning self.old).answers question }
        ensures legal { IfOk result (λ answer. IsLegal (meaning self.old).posts (meaning self.old).answers question answer) }
        ensures stored { IfOk result (λ answer. Stores (meaning self.old) (meaning self.new) answer) }
        ensures log { IfOk result (λ answer. (log : List LogEntry) → stands_for self.old log → stands_for self.new (log ++ entry.Asked question answer ∷ [])) }
        ensures refused { OnErr result (meaning self.new ≡ meaning self.old) }
        ensures refused_log { OnErr result ((log : List LogEntry) → stands_for self.old log ↔ stands_for self.new log) };

    /// Whether an answer may be long in coming, since it comes from outside of the program. A caller then hands on
    /// first what it has written.
    fn may_wait(&self) -> bool
        ensures { result ≡ waits };

    /// Ends the workers. Posts and answers stay. It may wait.
    fn finish(&mut self)
        requires runs { (meaning self.old).runs ≡ true }
        ensures ended { meaning self.new ≡ record (meaning self.old) { runs = false } }
        ensures log { (log : List LogEntry) → stands_for self.old log ↔ stands_for self.new log };

    /// The posts and answers of a log are those of the world.
    ghost log_is: { (world : Self) (log : List LogEntry) → stands_for world log → (posts_of log ≡ (meaning world).posts) × (answers_of log ≡ (meaning world).answers) };
}
