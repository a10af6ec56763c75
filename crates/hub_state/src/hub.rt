//! The state itself.
use crate::base::Base;
use crate::found::Found;
use crate::touched::Touched;
use held_items::HeldItems;
use std::marker::Model;

/// The hub, its greenlets and their items: one state of the machine.
#[derive(Drop)]
pub struct Hub {
    pub(crate) base: Base,
    pub(crate) held: HeldItems,
    /// What was touched since the last settling.
    pub(crate) touched: Touched,
    /// Who is found in a settling, with room for each item.
    pub(crate) found: Found,
}

impl Model for Hub {
    ghost use Rattle.machine.specs.State.{State};
    ghost use Rattle.scenario_tree.specs.Trees.{trees};
    ghost use Rattle.hub_state.specs.HubParts.{IsHub, state_of};

    ghost Value = { State };

    ghost coded = { Prim.hlevel trees };

    ghost view = { state_of };

    ghost invariant = { IsHub };
}
