//! Well-formed scenarios.
ghost use Rattle.std.specs.Prelude.{◌≡◌, IfOk, OnOk};
ghost use Rattle.scenario_rules.specs.Rules.{IsWellFormed};
ghost use Rattle.scenario_lang.specs.Written.{DefinesMain};
ghost use Rattle.scenario_check.specs.Checks.{IsPlaced};

use crate::judge::place;
use scenario_lang::{ParseRefusal, Scenario};
use scenario_tree::Scenario as Tree;
use std::alloc::Global;
use std::marker::Model;

/// A scenario that is well formed and has a main. It is seen as its tree.
#[derive(Drop)]
pub struct Checked {
    scenario: Scenario,
}

impl Model for Checked {
    ghost use Rattle.scenario_tree.specs.declared.tree.Scenario.{Scenario as Tree};
    ghost use Rattle.scenario_rules.specs.Rules.{IsWellFormed};
    ghost use Rattle.scenario_lang.specs.Written.{DefinesMain};
    ghost use Rattle.scenario_tree.specs.Trees.{trees};

    ghost Value = { Tree };

    ghost coded = { Prim.hlevel trees };

    ghost view = { λ c. c.scenario };

    ghost invariant = { λ c. IsWellFormed c.scenario × DefinesMain c.scenario };
}

impl Checked {
    /// The scenario.
    pub fn scenario(&self) -> &Scenario
        ensures same { result.now ≡ self.now }
        ensures well_formed { IsWellFormed self.now }
        ensures main { DefinesMain self.now }
    {
        &self.scenario
    }

    /// Its tree. The scenario is given up.
    pub fn into_tree(self) -> Tree
        ensures same { result ≡ self }
        ensures well_formed { IsWellFormed self }
    {
        let Checked { scenario } = self;
        scenario.into_tree()
    }

    /// Gives the scenario up. What a value's drop does is proved in each crate that drops one, and that of a tree is
    /// long: it is proved here for all that call this.
    pub fn give_up(self) {
        drop(self);
    }
}

/// The scenario, where it is well formed.
///
/// # Errors
///
/// `Refused` exactly where it is not, with the first line that breaks a rule and the least reason
/// there; `Memory` where memory ran out. The scenario is given up.
pub fn check(alloc: Global, scenario: Scenario) -> Result<Checked, ParseRefusal>
    ensures same { IfOk result (λ checked. checked ≡ scenario) }
    ensures well_formed { OnOk result (IsWellFormed scenario) }
    ensures refused { IsPlaced scenario result }
{
    match place(alloc, scenario.tree())? {
        None => Ok(Checked { scenario }),
        Some(place) => Err(ParseRefusal::Refused(place)),
    }
}
