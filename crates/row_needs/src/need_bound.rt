// The bound of a cell by the needs of its states.
ghost use Rattle.std.specs.Prelude.{◌≡◌, ◌↔◌, IfOk, IsTrue};
ghost use Rattle.std.specs.Option.{ForSome};
ghost use Rattle.row_state.specs.Candidates.{IsNumbered};
ghost use Rattle.row_needs.specs.Table.{AreLeast, HasTable};

use crate::gap_bound::component_needs_more;
use crate::{GapBound, Needs};
use cell_num::{Halt, NoMemory};
use row_state::{Kinds, Numbered};
use std::alloc::Global;

/// The most different leftovers of a cell whose states are bounded by their needs.
pub const MOST_LEFTOVERS: usize = 1_048_576;

/// The bound of a cell: the need of each state that next columns lead to, or the component bound of a row where these
/// states have too many different leftovers.
#[derive(Drop)]
pub struct NeedBound {
    /// The kinds of fingers of the cell.
    pub kinds: Kinds,
    /// None where the states have too many different leftovers.
    pub needs: Option<Needs>,
    pub ghost sound: { ForSome needs (AreLeast kinds) },
}

// The needs of the cell, if its states have few enough different leftovers.
fn table(alloc: Global, kinds: &Kinds) -> Result<Option<Needs>, NoMemory>
    ensures { IfOk result (HasTable MOST_LEFTOVERS kinds.now) }
{
    match Needs::new(alloc, kinds, MOST_LEFTOVERS) {
        Ok(needs) => Ok(Some(needs)),
        Err(Halt::Spent) => Ok(None),
        Err(Halt::NoMemory) => Err(NoMemory),
    }
}

fn are_same(kinds: &Kinds, other: &Kinds) -> bool
    ensures { IsTrue result ↔ (kinds.now ≡ other.now) }
{
    kinds == other
}

fn copy_of(kinds: &Kinds) -> Result<Kinds, NoMemory>
    ensures { IfOk result (λ k. k ≡ kinds.now) }
{
    Ok(kinds.clone()?)
}

impl NeedBound {
    ghost use Rattle.row_needs.specs.Bound.{IsBoundOf, need_by};

    /// The bound of the cell with these kinds of fingers.
    pub fn of(alloc: Global, kinds: &Kinds) -> Result<NeedBound, NoMemory>
        ensures { IfOk result (IsBoundOf MOST_LEFTOVERS kinds.now) }
    {
        Ok(NeedBound {
            kinds: copy_of(kinds)?,
            needs: table(alloc, kinds)?,
        })
    }

    // The need of the state, where the bound is of these kinds and its table has what the state has left.
    fn need(&self, kinds: &Kinds, at: &Numbered) -> Option<u32>
        requires numbered { IsNumbered kinds.now at.now }
        ensures { result ≡ need_by self.now at.now.state kinds.now }
    {
        if !are_same(kinds, &self.kinds) {
            return None;
        }
        match &self.needs {
            Some(needs) => needs.read(at),
            None => None,
        }
    }
}

impl GapBound for NeedBound {
    ghost use Rattle.row_needs.specs.Bound.{value_by};

    ghost value = { λ b row s k. value_by b row s k };

    fn needs_more(&self, kinds: &Kinds, at: &Numbered, gaps: u32) -> bool {
        match self.need(kinds, at) {
            Some(need) => gaps < need,
            None => component_needs_more(kinds, &at.state, gaps),
        }
    }

    fn show_holds(&self) {}
}
