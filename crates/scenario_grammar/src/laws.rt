//! Laws of the definitions: each function only says that its clauses hold.
ghost use Rattle.std.specs.Prelude.{◌≡◌, ◌↔◌, ◌≤◌, ◌⊎◌, ℕ, List, length, IsTrue, Some, None, Ok, Err};
ghost use Rattle.scenario_tree.specs.declared.tree.Scenario.{Scenario};
ghost use Rattle.scenario_grammar.specs.declared.limits.TheConstants.{MOST_LONG_TEXT};
ghost use Rattle.scenario_grammar.specs.declared.place.Place.{Place};
ghost use Rattle.scenario_grammar.specs.Bare.{bare};
ghost use Rattle.scenario_grammar.specs.Layout.{most_of_profile};
ghost use Rattle.scenario_grammar.specs.Parsed.{reading};
ghost use Rattle.scenario_grammar.specs.Place.{place};
ghost use Rattle.scenario_grammar.specs.Printed.{printed};
ghost use Rattle.scenario_grammar.specs.ReasonNumbers.{is_text_reason};
ghost use Rattle.scenario_grammar.specs.Spells.{Spells};
ghost use Rattle.scenario_grammar.specs.Spelt.{HasSpelling, in_profile_3};

/// A text that a tree spells is read as that tree.
pub fn spelt_texts_are_read()
    ensures { (s : Scenario) (bytes : List ℕ) → Spells s bytes → reading bytes ≡ Ok s }
{}

/// What a text is read as spells it.
pub fn read_texts_are_spelt()
    ensures { (s : Scenario) (bytes : List ℕ) → reading bytes ≡ Ok s → Spells s bytes }
{}

/// A text is that of one tree at most.
pub fn texts_have_one_tree()
    ensures { (s t : Scenario) (bytes : List ℕ) → Spells s bytes → Spells t bytes → s ≡ t }
{}

/// A text is refused at its place, for a reason of a text, and has none exactly where some tree
/// spells it.
pub fn texts_without_a_place_are_spelt()
    ensures refused { (bytes : List ℕ) (p : Place) → reading bytes ≡ Err p → place bytes ≡ Some p }
    ensures reason { (bytes : List ℕ) (p : Place) → reading bytes ≡ Err p → IsTrue (is_text_reason p.reason) }
    ensures spelt { (bytes : List ℕ) → (place bytes ≡ None) ↔ ((s : Scenario) × Spells s bytes) }
{}

/// The printed form of a tree that has a text, where it is no longer than a text of its profile may
/// be, is a text of the tree but for the numbers of its lines.
pub fn printed_forms_are_spelt()
    ensures { (s : Scenario) → HasSpelling s → length (printed s) ≤ most_of_profile s.profile
        → (t : Scenario) × Spells t (printed s) × (bare s ≡ bare t) }
{}

/// A tree that has a text is one of profile 3 too: its printed form with `profile 3` as the first
/// line, where it is no longer than such a text may be, is a text of it but for the numbers of its
/// lines.
pub fn spelt_trees_are_of_profile_3()
    ensures { (s : Scenario) → HasSpelling s → length (printed (in_profile_3 s)) ≤ MOST_LONG_TEXT
        → (t : Scenario) × Spells t (printed (in_profile_3 s)) × (bare (in_profile_3 s) ≡ bare t) }
{}

/// A tree that has a text is of profile 1, 2 or 3.
pub fn spelt_trees_have_a_profile()
    ensures { (s : Scenario) → HasSpelling s → (s.profile ≡ 1) ⊎ ((s.profile ≡ 2) ⊎ (s.profile ≡ 3)) }
{}
