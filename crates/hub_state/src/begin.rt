//! The state before the first move.
ghost use Rattle.std.specs.Prelude.{◌≡◌, ◌≤◌, IfOk, codes, length};
ghost use Rattle.scenario_tree.specs.declared.limits.TheConstants.{MOST_DECLARED};
ghost use Rattle.machine.specs.Expressions.{function_number};
ghost use Rattle.machine.specs.Run.{first_state};
ghost use Rattle.hub_objects.specs.Counted.{AreCounted};

use crate::base::Base;
use crate::found::Found;
use crate::greenlets::Greenlets;
use crate::hub::Hub;
use crate::moment::Moment;
use crate::touched::Touched;
use body_values::Code;
use gv_values::Name;
use held_items::HeldItems;
use hub_objects::Objects;
use std::alloc::{AllocError, Global};

/// The number of the function `main`.
fn number_of_main(code: &Code) -> u32
    ensures { result ≡ function_number (codes "main") code.now.functions }
{
    match Name::new(b"main") {
        Some(main) => code.function(&main),
        // `main` has the form of a name.
        None => unreachable!(),
    }
}

impl Hub {
    /// The state at the beginning of a run of the code: nothing is made but main, which has not started.
    /// `AllocError`: memory is wanting.
    #[tactic(auto, using(crate::proofs::Sounds::sound_none))]
    pub fn new(alloc: Global, code: Code) -> Result<Hub, AllocError>
        requires counted { AreCounted (first_state code).objects }
        requires few { length code.objects ≤ MOST_DECLARED }
        ensures { IfOk result (λ hub. hub ≡ first_state code) }
    {
        let objects = Objects::declared(alloc, code.objects())?;
        let mut touched = Touched::new(alloc);
        touched.reserve(objects.as_slice().len())?;
        let greenlets = Greenlets::first(alloc, number_of_main(&code))?;
        Ok(Hub {
            base: Base {
                code,
                moment: Moment { at: 0 },
                turns: 0,
                moves: 0,
                timeouts: 0,
                links: 0,
                objects,
                greenlets,
                jobs: Vec::new(alloc),
                lines: Vec::new(alloc),
                posts: Vec::new(alloc),
            },
            held: HeldItems::new(alloc),
            touched,
            found: Found::new(alloc),
        })
    }
}
