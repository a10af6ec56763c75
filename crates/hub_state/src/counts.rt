//! The moment, the counts, and the lines of the step under way.
ghost use Rattle.std.specs.Prelude.{◌≡◌, ◌+◌, ◌<◌, ◌^◌, length};
ghost use Rattle.machine.specs.Run.{silent};

use crate::hub::Hub;
use body_values::Code;
use machine::state::Post;
use trace_text::Line;

impl Hub {
    /// What its bodies are run from.
    pub fn code(&self) -> &Code
        ensures { result.now ≡ self.now.scenario }
    {
        &self.base.code
    }

    /// The moment, in milliseconds from the beginning of the run.
    pub fn moment(&self) -> u64
        ensures { result ≡ self.now.moment }
    {
        self.base.moment.at
    }

    /// How many turns have begun.
    pub fn turns(&self) -> u64
        ensures { result ≡ self.now.turns }
    {
        self.base.turns
    }

    /// How many moves were made.
    pub fn moves(&self) -> u64
        ensures { result ≡ self.now.moves }
    {
        self.base.moves
    }

    /// The number that the next item to become ready is given.
    pub fn next_ready(&self) -> u64
        ensures { result ≡ self.now.next_ready }
    {
        self.held.mark()
    }

    /// The place in order of making that the next item is given.
    pub fn next_since(&self) -> u64
        ensures { result ≡ self.now.next_since }
    {
        self.held.next_since()
    }

    /// How many items there are.
    #[tactic(auto, using(crate::proofs::Walks::length_flat))]
    pub fn items_len(&self) -> usize
        ensures { result ≡ length self.now.items }
    {
        self.held.len()
    }

    /// Counts one turn more.
    pub fn count_turn(&mut self)
        requires { self.old.turns + 1 < 2 ^ 64 }
        ensures { self.new ≡ record self.old { turns = self.old.turns + 1 } }
    {
        self.base.turns += 1;
    }

    /// How many timeouts were numbered.
    pub fn timeouts(&self) -> u32
        ensures { result ≡ self.now.timeouts }
    {
        self.base.timeouts
    }

    /// Numbers one timeout more, and gives its number.
    pub fn count_timeout(&mut self) -> u32
        requires { self.old.timeouts + 1 < 2 ^ 32 }
        ensures counted { self.new ≡ record self.old { timeouts = self.old.timeouts + 1 } }
        ensures number { result ≡ self.old.timeouts + 1 }
    {
        self.base.timeouts += 1;
        self.base.timeouts
    }

    /// How many links were made.
    pub fn links(&self) -> u32
        ensures { result ≡ self.now.links }
    {
        self.base.links
    }

    /// Numbers one link more, and gives its number.
    pub fn count_link(&mut self) -> u32
        requires { self.old.links + 1 < 2 ^ 32 }
        ensures counted { self.new ≡ record self.old { links = self.old.links + 1 } }
        ensures number { result ≡ self.old.links + 1 }
    {
        self.base.links += 1;
        self.base.links
    }

    /// The lines of the step under way.
    pub fn lines(&self) -> &[Line]
        ensures { result.now ≡ self.now.lines }
    {
        &self.base.lines
    }

    /// The posts of the step under way.
    pub fn posts(&self) -> &[Post]
        ensures { result.now ≡ self.now.posts }
    {
        &self.base.posts
    }

    /// Drops the lines and posts of the step under way, which were given out.
    pub fn forget_step(&mut self)
        ensures { self.new ≡ silent self.old }
    {
        self.base.lines.clear();
        self.base.posts.clear();
    }
}
