//! Between two settlings: whether there is anything to settle, and the count of the moves that were made.
ghost use Rattle.std.specs.Prelude.{◌≡◌, ◌+◌, ◌<◌, ◌^◌, IsTrue};
ghost use Rattle.machine.specs.Settle.{settle};
ghost use Rattle.hub_state.specs.Rest.{has_come};

use crate::hub::Hub;

/// Whether the deadline, if there is one, is no later than this moment.
fn has_come(deadline: Option<u64>, moment: u64) -> bool
    ensures { result ≡ has_come moment deadline }
{
    match deadline {
        Some(deadline) => deadline <= moment,
        None => false,
    }
}

impl Hub {
    /// Whether nothing was touched since the last settling, and no moment has come since: another would change nothing.
    /// Looks at no item.
    pub fn is_at_rest(&self) -> bool
        ensures { IsTrue result → settle self.now ≡ self.now }
    {
        if self.touched.several() || !self.touched.ends().is_empty() {
            return false;
        }
        if !self.touched.objects().is_empty() || !self.touched.made().is_empty() {
            return false;
        }
        !has_come(self.held.least_deadline(), self.base.moment.at)
    }

    /// Counts so many moves more.
    pub fn count_moves(&mut self, moves: u64)
        requires { self.old.moves + moves < 2 ^ 64 }
        ensures { self.new ≡ record self.old { moves = self.old.moves + moves } }
    {
        self.base.moves += moves;
    }
}
