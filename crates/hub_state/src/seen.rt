//! What a body that is under way may ask of the hub.
ghost use Rattle.std.specs.Prelude.{◌≡◌};

use crate::hub::Hub;
use body_values::Look;
use gv_values::{Outcome, Whom};
use hub_objects::{is_set_object, size_of_object, unfinished_of_object};
use std::marker::Model;

/// The hub as the greenlet sees it that is under way.
#[derive(Drop)]
pub struct Seen<'a> {
    hub: &'a Hub,
    current: u32,
}

impl<'a> Model for Seen<'a> {
    ghost use Rattle.hub_objects.specs.Counted.{AreCounted};
    ghost use Rattle.hub_state.specs.Sights.{Sight};
    ghost use Rattle.scenario_tree.specs.Trees.{trees};

    ghost Value = { Sight };

    ghost coded = { Prim.hlevel trees };

    ghost view = { λ s. record { current = s.current; state = s.hub.now } };

    ghost invariant = { λ s. AreCounted s.hub.now.objects };
}

impl<'a> Seen<'a> {
    /// The hub, where this greenlet is under way.
    pub fn new(hub: &'a Hub, current: u32) -> Seen<'a>
        ensures { result ≡ record { current = current; state = hub.now } }
    {
        // What is counted of its objects fits: the invariant of what is seen.
        let _counted = hub.base.objects.as_slice();
        Seen { hub, current }
    }
}

impl<'a> Look for Seen<'a> {
    ghost use Rattle.hub_state.specs.Sights.{look_of};

    ghost answers = { look_of };

    fn current(&self) -> u32 {
        self.current
    }

    fn outcome(&self, whom: Whom) -> Option<&Outcome> {
        match whom {
            Whom::Greenlet(g) => {
                if g == self.current {
                    None
                } else {
                    self.hub.outcome_of_greenlet(g)
                }
            }
            Whom::Job(j) => self.hub.outcome_of_job(j),
        }
    }

    fn is_set(&self, object: u32) -> bool {
        is_set_object(self.hub.object(object))
    }

    fn size(&self, object: u32) -> u64 {
        size_of_object(self.hub.object(object))
    }

    fn unfinished(&self, object: u32) -> u64 {
        unfinished_of_object(self.hub.object(object))
    }
}
