//! The storm of many greenlets: its text, which spells a well-formed scenario.
ghost use Rattle.std.specs.Prelude.{◌≡◌, ◌<◌, ◌^◌, ℕ, IfOk};
ghost use Rattle.scenario_tree.specs.declared.tree.Scenario.{Scenario};
ghost use Rattle.run_command.specs.Storming.{IsStorm, storm_text};

use gv_values::decimal_text;
use std::alloc::{AllocError, Global};

/// The text of the storm of so many greenlets.
#[tactic(auto, unfolding(crate::specs::Storming::storm_text))]
pub fn storm_text(alloc: Global, size: u32) -> Result<Vec<u8>, AllocError>
    ensures { IfOk result (λ text. text.items ≡ storm_text size) }
{
    let mut text = Vec::new(alloc);
    text.extend_from_slice(
        b"sem s 0\ngroup g\ndef w i\nacquire s within 1000\nrelease s\nend\ndef main\nlet i 1\nwhile <= i ",
    )?;
    decimal_text(u64::from(size), &mut text)?;
    text.extend_from_slice(
        b"\ngspawn g w i\nlet i + i 1\nend\nsleep 0\nrelease s\ngjoin g\nprint counter s\nend\n",
    )?;
    Ok(text)
}

/// The text of the storm of any number of greenlets spells a well-formed scenario.
pub fn storms_are_spelt()
    ensures { (size : ℕ) → size < 2 ^ 63 → (s : Scenario) × IsStorm size s }
{}
