//! Lists that were made from their end.
ghost use Rattle.std.specs.Prelude.{◌≡◌, reverse};

use scenario_tree::Items;

/// The elements in the other order.
pub fn turned<T>(elements: Vec<T>) -> Items<T>
    ensures { result ≡ reverse elements.items }
{
    let mut elements = elements;
    elements.reverse();
    Items::from_vec(elements)
}
