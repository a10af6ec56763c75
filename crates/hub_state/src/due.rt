//! Which item is delivered next.
ghost use Rattle.std.specs.Prelude.{◌≡◌, Some, IsSome, is_some};
ghost use Rattle.machine.specs.Run.{least_below};
ghost use Rattle.machine.specs.Deliveries.{without_item};
ghost use Rattle.hub_items.specs.Short.{DeliversShort};

use crate::hub::Hub;
use crate::order::items_stand_in_order;
use crate::touched::object_of;
use machine::items::Item;

impl Hub {
    /// Whether an item has a number below the mark.
    pub fn has_below(&self, mark: u64) -> bool
        ensures { result ≡ is_some (least_below mark self.now.items) }
    {
        self.held.next_below(mark).is_some()
    }

    /// Takes the item with the least number below the mark away. Looks at no other.
    pub fn take_below(&mut self, mark: u64) -> Item
        requires { IsSome (least_below mark self.old.items) }
        ensures item { least_below mark self.old.items ≡ Some result }
        ensures short { DeliversShort result.delivery }
        ensures gone { self.new ≡ without_item result self.old }
    {
        match self.held.next_below(mark) {
            Some(slot) => {
                items_stand_in_order(&self.held);
                let item = self.held.take(slot);
                self.touched.touch(object_of(&item.delivery));
                item
            }
            // The requires says that there is an item below the mark.
            None => unreachable!(),
        }
    }
}
