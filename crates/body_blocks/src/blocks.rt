//! The names and the blocks of some code.
ghost use Rattle.std.specs.Prelude.{◌≡◌, OnSome, slice_get, ◌+◌, ◌<◌, ◌^◌};
ghost use Rattle.std.specs.Option.{option_copied};
ghost use Rattle.body_names.specs.Naming.{IsKept, IsNaming};
ghost use Rattle.body_blocks.specs.Trees.{EachStands, IsAhead, start, trees};

use crate::statement::FlatStatement;
use body_names::Naming;
use gv_values::Name;
use scenario_tree::Items;
use std::marker::Model;

/// The names and the blocks of the code. They are seen as these names, and the blocks of the tree that the blocks stand
/// for.
#[derive(Drop)]
pub struct Blocks {
    names: Items<Name>,
    all: Items<Items<FlatStatement>>,
}

impl Model for Blocks {
    ghost use Rattle.scenario_tree.specs.Trees.{trees as coded_trees};
    ghost use Rattle.body_names.specs.Naming.{IsNaming};
    ghost use Rattle.body_blocks.specs.Trees.{Coded, EachStands, start, trees};

    ghost Value = { Coded };

    ghost coded = { Prim.hlevel coded_trees };

    ghost view = { λ b. trees (start b.names) b.all };

    ghost invariant = { λ b. IsNaming b.names × EachStands (start b.names) b.all };
}

impl Blocks {
    /// These names and blocks.
    pub(crate) fn of(naming: Naming, blocks: Items<Items<FlatStatement>>) -> Blocks
        requires kept { IsKept naming.numbers naming.names }
        requires stand { EachStands (start naming.names) blocks }
        ensures { result ≡ trees (start naming.names) blocks }
    {
        Blocks {
            names: naming.names,
            all: blocks,
        }
    }

    /// Numbers are one exactly where their names are.
    #[inline(always)]
    pub fn tell_names(&self)
        ensures { IsNaming self.now.names }
    {
        // The invariant is known of a field that is looked at.
        let _names = &self.names;
    }

    /// The name of this number, and none where there is none.
    pub fn name(&self, number: u32) -> Option<&Name>
        ensures { option_copied result ≡ slice_get self.now.names number }
    {
        self.names.get(number as usize)
    }

    /// What stands at this place of this block.
    #[inline(always)]
    pub fn ahead(&self, block: usize, at: usize) -> Option<&FlatStatement>
        ensures here { IsAhead self.now block at (option_copied result) }
        ensures within { OnSome result (at + 1 < 2 ^ 64) }
    {
        match self.all.get(block) {
            None => None,
            Some(statements) => at_place(statements, at),
        }
    }
}

/// What stands at this place. So many statements have a number.
#[inline(always)]
fn at_place(statements: &Items<FlatStatement>, at: usize) -> Option<&FlatStatement>
    ensures same { option_copied result ≡ slice_get statements.now at }
    ensures within { OnSome result (at + 1 < 2 ^ 64) }
{
    if at >= statements.len() {
        return None;
    }
    statements.get(at)
}
