// What the lines up to a state ask for.
ghost use Rattle.std.specs.Prelude.{◌≡◌, ◌++◌, [], IfOk};
ghost use Rattle.cycle_search.specs.Below.{IsSound};

use crate::below::Below;
use cell_num::NoMemory;
use row_cycles::{AboveList, NetAbove};
use std::alloc::Global;

/// What the lines up to a state ask for, and a table of what follows.
#[derive(Drop)]
pub(crate) struct Asked {
    pub pairs: AboveList,
    pub below: Below,
}

impl Asked {
    /// Before any line.
    pub(crate) fn new(alloc: Global, nets: u32) -> Result<Asked, NoMemory>
        ensures pairs { IfOk result (λ asked. asked.pairs ≡ []) }
        ensures sound { IfOk result (λ asked. IsSound asked.pairs asked.below) }
    {
        let below = Below::new(alloc, nets)?;
        Ok(Asked {
            pairs: AboveList::new(alloc),
            below,
        })
    }

    /// The pairs and these.
    pub(crate) fn pairs_with(&self, alloc: Global, new: &[NetAbove]) -> Result<AboveList, NoMemory>
        ensures { IfOk result (λ pairs. pairs ≡ self.now.pairs ++ new.now) }
    {
        let mut pairs = AboveList::new(alloc);
        pairs.extend(self.pairs.as_slice())?;
        pairs.extend(new)?;
        Ok(pairs)
    }

    // The table with these pairs.
    fn below_with(&self, alloc: Global, new: &[NetAbove]) -> Result<Below, NoMemory>
        requires sound { IsSound self.now.pairs self.now.below }
        ensures { IfOk result (IsSound (self.now.pairs ++ new.now)) }
    {
        let mut below = self.below.copied(alloc)?;
        for a in new {
            below.add(a);
        }
        Ok(below)
    }

    /// And what a next line asks for.
    pub(crate) fn with(&self, alloc: Global, new: &[NetAbove]) -> Result<Asked, NoMemory>
        requires sound { IsSound self.now.pairs self.now.below }
        ensures pairs { IfOk result (λ asked. asked.pairs ≡ self.now.pairs ++ new.now) }
        ensures sound { IfOk result (λ asked. IsSound asked.pairs asked.below) }
    {
        let pairs = self.pairs_with(alloc, new)?;
        let below = self.below_with(alloc, new)?;
        Ok(Asked { pairs, below })
    }
}
