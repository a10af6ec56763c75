//! Laws of the definitions: each function only says that its clauses hold.
ghost use Rattle.std.specs.Prelude.{◌≡◌, true, Some, None};
ghost use Rattle.scenario_tree.specs.declared.tree.Scenario.{Scenario};
ghost use Rattle.scenario_grammar.specs.declared.place.Place.{Place};
ghost use Rattle.scenario_grammar.specs.ReasonNumbers.{is_rule_reason};
ghost use Rattle.scenario_grammar.specs.Spelt.{in_profile_3};
ghost use Rattle.scenario_rules.specs.Rules.{IsWellFormed, place_of};

/// A scenario is refused for a reason of the rules.
pub fn rules_have_reasons()
    ensures { (s : Scenario) (p : Place) → place_of s ≡ Some p → is_rule_reason p.reason ≡ true }
{}

/// A scenario that is well formed keeps the rules as one of profile 3 too.
pub fn well_formed_scenarios_are_of_profile_3()
    ensures { (s : Scenario) → IsWellFormed s → IsWellFormed (in_profile_3 s) }
{}

/// A scenario that is well formed is refused nowhere.
pub fn well_formed_scenarios_have_no_place()
    ensures { (s : Scenario) → IsWellFormed s → place_of s ≡ None }
{}
