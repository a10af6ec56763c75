use gv_values::Value;
use scenario_tree::Items;
use std::marker::Model;

/// The arguments of a call: no more of them than a function may have parameters. They are seen as their list.
#[derive(Drop)]
pub struct Arguments {
    values: Items<Value>,
}

impl Model for Arguments {
    ghost use Rattle.std.specs.Prelude.{◌≤◌, length, List};
    ghost use Rattle.gv_values.specs.declared.value.Value.{Value as AnyValue};
    ghost use Rattle.scenario_tree.specs.declared.limits.TheConstants.{MOST_PARAMETERS};

    ghost Value = { List AnyValue };

    ghost view = { λ a. a.values };

    ghost invariant = { λ a. length a.values ≤ MOST_PARAMETERS };
}

impl Arguments {
    ghost use Rattle.std.specs.Prelude.{◌≡◌, ◌≤◌, length};
    ghost use Rattle.scenario_tree.specs.declared.limits.TheConstants.{MOST_PARAMETERS};

    /// These values as arguments.
    pub fn new(values: Items<Value>) -> Arguments
        requires { length values ≤ MOST_PARAMETERS }
        ensures { result ≡ values }
    {
        Arguments { values }
    }

    /// The values, from the first on.
    pub fn values(&self) -> &[Value]
        ensures same { result.now ≡ self.now }
        ensures few { length self.now ≤ MOST_PARAMETERS }
    {
        self.values.as_slice()
    }

    /// The values alone.
    pub fn into_values(self) -> Items<Value>
        ensures same { result ≡ self }
        ensures few { length self ≤ MOST_PARAMETERS }
    {
        self.values
    }
}
