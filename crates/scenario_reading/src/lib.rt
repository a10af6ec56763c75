//! Reading a well-formed scenario.
#![tactic(auto)]

ghost use Rattle.std.specs.Prelude.{◌≡◌, IfErr, Ok as Fine};
ghost use Rattle.scenario_grammar.specs.Parsed.{reading};
ghost use Rattle.scenario_grammar.specs.Spells.{Spells};
ghost use Rattle.scenario_lang.specs.Lines.{IsSpelt, Parses};
ghost use Rattle.scenario_reading.specs.Judged.{IsRefusedWithReason, judged_text};

use scenario_check::{Checked, check};
use scenario_grammar::texts_without_a_place_are_spelt;
use scenario_lang::{ParseRefusal, Scenario, parse};
use scenario_rules::{rules_have_reasons, well_formed_scenarios_have_no_place};
use std::alloc::Global;

/// The well-formed scenario that the bytes spell.
///
/// # Errors
///
/// `Refused` exactly where they spell none, with the place: that of the grammar, or else the first
/// line that breaks a rule; `Memory` where memory ran out.
pub fn read_scenario(alloc: Global, bytes: &[u8]) -> Result<Checked, ParseRefusal>
    ensures judged { Parses (judged_text bytes.now) result }
    ensures spelt { IsSpelt bytes.now result }
    ensures reason { IfErr result IsRefusedWithReason }
{
    texts_without_a_place_are_spelt();
    match parse(alloc, bytes) {
        Ok(scenario) => check_read(alloc, bytes, scenario),
        Err(refusal) => Err(refusal),
    }
}

/// The scenario that was read of these bytes, where it is well formed.
fn check_read(alloc: Global, bytes: &[u8], scenario: Scenario) -> Result<Checked, ParseRefusal>
    requires read { reading bytes.now ≡ Fine scenario }
    requires spelt { Spells scenario bytes.now }
    ensures judged { Parses (judged_text bytes.now) result }
    ensures spelt { IsSpelt bytes.now result }
    ensures reason { IfErr result IsRefusedWithReason }
{
    rules_have_reasons();
    well_formed_scenarios_have_no_place();
    // The contract alone speaks of them.
    let _ = bytes;
    check(alloc, scenario)
}
