//! What a well-formed text sees to in the bodies of its functions, and that a body keeps it at each step: raw bodies
//! ask nothing of the hub, `raw` is given raw bodies, functions and objects are there and of the kind that is wanted,
//! and no more than eight timeout blocks are open.
#![tactic(auto)]

ghost use Rattle.scenario_tree.specs.declared.tree.Scenario.{Scenario};
ghost use Rattle.scenario_rules.specs.Rules.{IsWellFormed};
ghost use Rattle.machine_well_formed.specs.Texts.{IsFitText};

/// In a well-formed scenario each body fits.
pub fn well_formed_texts_fit()
    ensures { (c : Scenario) → IsWellFormed c → IsFitText c }
{}
