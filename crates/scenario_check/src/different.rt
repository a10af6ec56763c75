//! Which names of a list are new, and which stand there again.
ghost use Rattle.std.specs.Prelude.{[], ◌∷◌, ◌++◌, List, IfOk, OnOk};
ghost use Rattle.scenario_rules.specs.declared.mention.Named.{Named as Entry};
ghost use Rattle.scenario_check.specs.Sorting.{IsSortedOf};

use name_table::Names;
use scenario_rules::Named;
use scenario_tree::Items;
use std::alloc::{AllocError, Global};

/// The names of a list.
#[derive(Drop)]
pub(crate) struct Sorted {
    /// Each name, with the line where it stands first.
    pub(crate) names: Names<u32>,
    /// Each different name where it stands first.
    pub(crate) different: Items<Named>,
    /// Each name that stands before its place already.
    pub(crate) repeated: Items<Named>,
}

impl Sorted {
    fn new(alloc: Global) -> Sorted
        ensures { IsSortedOf result [] }
    {
        Sorted {
            names: Names::new(alloc),
            different: Items::new(alloc),
            repeated: Items::new(alloc),
        }
    }

    /// Takes the next name of the list.
    fn add(&mut self, alloc: Global, named: Named) -> Result<(), AllocError>
        ensures { (before : List Entry) → IsSortedOf self.old before → OnOk result (IsSortedOf self.new (before ++ named ∷ [])) }
    {
        let is_new = self.names.give(alloc, named.name.bytes(), named.line)?;
        if is_new {
            self.different.push(named)?;
            return Ok(());
        }
        self.repeated.push(named)?;
        Ok(())
    }
}

/// The names of this list.
pub(crate) fn sort_names(alloc: Global, list: &[Named]) -> Result<Sorted, AllocError>
    ensures { IfOk result (λ sorted. IsSortedOf sorted list.now) }
{
    let mut sorted = Sorted::new(alloc);
    for named in list {
        sorted.add(alloc, *named)?;
    }
    Ok(sorted)
}
