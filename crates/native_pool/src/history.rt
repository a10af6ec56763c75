//! What was posted to a pool and what it answered.
ghost use Rattle.std.specs.Prelude.{◌≡◌, ◌<◌, ◌≤◌, ◌-◌, ◌++◌, ◌∷◌, [], OnOk, vec_len, vec_capacity, min};
ghost use Rattle.world_rules.specs.Legal.{posted, moment_of, last_answered_moment};
ghost use Rattle.world_rules.specs.declared.limits.TheConstants.{LAST_MOMENT};

use gv_values::{Answer, Job};
use std::alloc::{AllocError, Global};
use world::PostedJob;
use world_rules::LAST_MOMENT;

/// The posts and answers of a pool since it began, and its moment, which is not before the last answer and counts from
/// the reading of the clock at which it began.
#[derive(Drop)]
pub struct History {
    pub(crate) posts: Vec<PostedJob>,
    pub(crate) answers: Vec<Answer>,
    pub(crate) moment: u64,
    pub(crate) began: u64,
    ghost timely: { last_answered_moment answers.items ≤ moment },
    ghost fits: { moment ≤ LAST_MOMENT },
}

impl History {
    /// Nothing was posted or answered.
    pub(crate) fn new(alloc: Global) -> History
        ensures { result.moment ≡ 0 }
    {
        History {
            posts: Vec::new(alloc),
            answers: Vec::new(alloc),
            moment: 0,
            began: 0,
        }
    }

    /// Forgets all posts and answers, and begins at this reading of the clock.
    pub(crate) fn restart(&mut self, reading: u64)
        ensures posts { self.new.posts.items ≡ [] }
        ensures answers { self.new.answers.items ≡ [] }
        ensures moment { self.new.moment ≡ 0 }
        ensures began { self.new.began ≡ reading }
    {
        self.answers.clear();
        self.posts.clear();
        self.moment = 0;
        self.began = reading;
    }

    /// Goes on to the moment of this reading of the clock, or to the greatest one.
    pub(crate) fn advance(&mut self, reading: u64)
        requires { self.old.moment ≤ reading - self.old.began }
        ensures posts { self.new.posts ≡ self.old.posts }
        ensures answers { self.new.answers ≡ self.old.answers }
        ensures moment { self.new.moment ≡ min (reading - self.old.began) LAST_MOMENT }
        ensures began { self.new.began ≡ self.old.began }
    {
        self.moment = reading.saturating_sub(self.began).min(LAST_MOMENT);
    }

    /// Makes room for a post.
    pub(crate) fn reserve_post(&mut self) -> Result<(), AllocError>
        ensures room { OnOk result (vec_len self.new.posts < vec_capacity self.new.posts) }
        ensures posts { self.new.posts.items ≡ self.old.posts.items }
        ensures answers { self.new.answers.items ≡ self.old.answers.items }
        ensures moment { self.new.moment ≡ self.old.moment }
        ensures began { self.new.began ≡ self.old.began }
    {
        self.posts.reserve(1)?;
        Ok(())
    }

    /// Adds a posted job. Room was made for it.
    pub(crate) fn add(&mut self, number: u32, job: Job)
        requires { vec_len self.old.posts < vec_capacity self.old.posts }
        ensures posts { self.new.posts.items ≡ self.old.posts.items ++ posted number job ∷ [] }
        ensures answers { self.new.answers.items ≡ self.old.answers.items }
        ensures moment { self.new.moment ≡ self.old.moment }
        ensures began { self.new.began ≡ self.old.began }
    {
        self.posts.push_reserved(PostedJob { number, job });
    }

    /// Makes room for an answer.
    pub(crate) fn reserve(&mut self) -> Result<(), AllocError>
        ensures room { OnOk result (vec_len self.new.answers < vec_capacity self.new.answers) }
        ensures posts { self.new.posts.items ≡ self.old.posts.items }
        ensures answers { self.new.answers.items ≡ self.old.answers.items }
        ensures moment { self.new.moment ≡ self.old.moment }
        ensures began { self.new.began ≡ self.old.began }
    {
        self.answers.reserve(1)?;
        Ok(())
    }

    /// Stores an answer that was given at this moment. Room was made for it.
    pub(crate) fn store(&mut self, answer: Answer)
        requires room { vec_len self.old.answers < vec_capacity self.old.answers }
        requires at { moment_of answer ≡ self.old.moment }
        ensures answers { self.new.answers.items ≡ self.old.answers.items ++ answer ∷ [] }
        ensures posts { self.new.posts.items ≡ self.old.posts.items }
        ensures moment { self.new.moment ≡ self.old.moment }
        ensures began { self.new.began ≡ self.old.began }
    {
        self.answers.push_reserved(answer);
    }
}
