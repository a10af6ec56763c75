//! Scenarios that have a text and a main, and their printed form.
ghost use Rattle.std.specs.Prelude.{◌≡◌, ◌++◌, OnOk, OnErr};
ghost use Rattle.scenario_grammar.specs.Printed.{printed};
ghost use Rattle.scenario_lang.specs.Written.{IsReadAgain, IsWritten};

use scenario_grammar::{printed_forms_are_spelt, spelt_texts_are_read};
use scenario_tree::Scenario as Tree;
use std::alloc::AllocError;
use std::marker::Model;

/// A scenario that has a text by the grammar, in the profile that it names, and a main. It is seen as
/// its tree.
#[derive(Drop)]
pub struct Scenario {
    tree: Tree,
}

impl Model for Scenario {
    ghost use Rattle.scenario_tree.specs.declared.tree.Scenario.{Scenario as Tree};
    ghost use Rattle.scenario_tree.specs.Trees.{trees};
    ghost use Rattle.scenario_lang.specs.Written.{IsWritten};

    ghost Value = { Tree };

    ghost coded = { Prim.hlevel trees };

    ghost view = { λ s. s.tree };

    ghost invariant = { λ s. IsWritten s.tree };
}

impl Scenario {
    /// The scenario of this tree.
    pub fn new(tree: Tree) -> Scenario
        requires { IsWritten tree }
        ensures { result ≡ tree }
    {
        Scenario { tree }
    }

    /// Its tree.
    pub fn tree(&self) -> &Tree
        ensures same { result.now ≡ self.now }
        ensures written { IsWritten self.now }
    {
        &self.tree
    }

    /// Its tree. The scenario is given up.
    pub fn into_tree(self) -> Tree
        ensures { result ≡ self }
    {
        let Scenario { tree } = self;
        tree
    }
}

/// Appends the printed form of the scenario: its one text with two blanks for each open block and
/// no line that carries nothing. The first line names the profile, where that is not 1.
///
/// Where the printed form has no more bytes than a text of the profile may have,
/// [`parse`](crate::parse) of it gives the tree again, but for the numbers of its lines.
///
/// # Errors
///
/// Memory ran out; nothing is appended.
pub fn print(scenario: &Scenario, out: &mut Vec<u8>) -> Result<(), AllocError>
    ensures ok { OnOk result (out.new.items ≡ out.old.items ++ printed scenario.now) }
    ensures err { OnErr result (out.new.items ≡ out.old.items) }
    ensures again { IsReadAgain scenario.now }
{
    printed_forms_are_spelt();
    spelt_texts_are_read();
    scenario_print::print(&scenario.tree, out)
}
