ghost use Rattle.std.specs.Prelude.{◌≡◌, ◌∷◌, [], ◌++◌, ◌+◌, ◌<◌, ◌^◌, length, IfOk};

use gv_values::Value;
use std::alloc::{AllocError, Global};
use std::collections::LinkedList;
use std::marker::Model;

/// A value on its way into a queue, with the room that it takes there: putting it behind the others takes no memory.
#[derive(Drop)]
pub struct Queued {
    value: LinkedList<Value>,
}

impl Model for Queued {
    ghost use Rattle.std.specs.Prelude.{◌≡◌, length, slice_get, unwrap_or};
    ghost use Rattle.gv_values.specs.declared.value.Value.{Value as AnyValue};

    ghost Value = { AnyValue };

    ghost view = { λ q. unwrap_or (slice_get q.value 0) AnyValue.Nothing };

    ghost invariant = { λ q. length q.value ≡ 1 };
}

impl Queued {
    /// The value, with room. `AllocError`: memory is wanting.
    pub fn new(alloc: Global, value: Value) -> Result<Queued, AllocError>
        ensures { IfOk result (λ queued. queued ≡ value) }
    {
        let mut room = LinkedList::new(alloc);
        room.push_back(value)?;
        Ok(Queued { value: room })
    }

    /// Puts the value behind those of the list.
    #[tactic(auto, using(crate::proofs::OneValue::one_value))]
    pub fn put_behind(self, list: &mut LinkedList<Value>)
        requires { length list.old + 1 < 2 ^ 63 }
        ensures { list.new ≡ list.old ++ self ∷ [] }
    {
        let Queued { value } = self;
        let mut value = value;
        list.append(&mut value).unwrap();
    }
}
