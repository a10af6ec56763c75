ghost use Rattle.std.specs.Prelude.{◌≡◌, ◌<◌, ◌^◌};
ghost use Rattle.std.specs.Option.{option_copied};
ghost use Rattle.machine.specs.Expressions.{Look as Answers};

use gv_values::{Outcome, Whom};

/// What an expression may ask of the hub. Greenlets, jobs and objects are named by their numbers.
pub trait Look {
    /// The answers to all these questions.
    ghost answers: { Self → Answers };

    /// The greenlet that `self` names.
    fn current(&self) -> u32
        ensures { result ≡ (answers self.now).current };

    /// What the greenlet or job came to; none exactly where it has not ended.
    fn outcome(&self, whom: Whom) -> Option<&Outcome>
        ensures { option_copied result ≡ (answers self.now).outcome whom };

    /// The flag of an event, or whether something was put into a result.
    fn is_set(&self, object: u32) -> bool
        ensures { result ≡ (answers self.now).is_set object };

    /// The counter of a semaphore, the number of a queue's items, or of the members of a group or pool.
    fn size(&self, object: u32) -> u64
        ensures count { result ≡ (answers self.now).size object }
        ensures range { result < 2 ^ 63 };

    /// The unfinished tasks of a queue.
    fn unfinished(&self, object: u32) -> u64
        ensures count { result ≡ (answers self.now).unfinished object }
        ensures range { result < 2 ^ 63 };
}
