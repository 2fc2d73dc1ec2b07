// The rows of what is left of the fingers that have the fewest gaps.
ghost use Rattle.std.specs.Prelude.{◌≡◌, ◌≤◌, ◌<◌, ◌⊎◌, [], ◌∷◌, Contains, OnOk, length, not};
ghost use Rattle.std.specs.List.{list_any};
ghost use Rattle.row_needs.specs.declared.left_ends.LeftEnds.{LeftEnds as EndsOf};
ghost use Rattle.row_needs.specs.Best.{Takes};
ghost use Rattle.row_needs.specs.Rest.{is_apart, need_at, need_behind};

use crate::{LeftEnds, LeftEndsList};
use cell_num::{NetNo, NoMemory};
use row_state::State;
use std::alloc::Global;

/// The rows of some fingers that have the fewest gaps: how many gaps, and the left ends of these rows, each once.
#[derive(Debug, Drop)]
pub struct Rest {
    pub gaps: u32,
    pub starts: LeftEndsList,
}

impl Rest {
    /// No row is known yet.
    pub(crate) fn unknown(alloc: Global) -> Rest
        ensures { result.starts ≡ [] }
    {
        Rest {
            gaps: 0,
            starts: LeftEndsList::new(alloc),
        }
    }

    // Only the row with the ends.
    fn set(&mut self, alloc: Global, gaps: u32, ends: LeftEnds) -> Result<(), NoMemory>
        ensures gaps { OnOk result (self.new.gaps ≡ gaps) }
        ensures starts { OnOk result (self.new.starts ≡ ends ∷ []) }
    {
        let mut starts = LeftEndsList::new(alloc);
        starts.push(ends)?;
        self.gaps = gaps;
        self.starts = starts;
        Ok(())
    }

    // Its ends as well, where they are new.
    fn add(&mut self, ends: LeftEnds) -> Result<(), NoMemory>
        ensures gaps { self.new.gaps ≡ self.old.gaps }
        ensures here { OnOk result (Contains self.new.starts ends) }
        ensures kept { OnOk result ((e : EndsOf) → Contains self.old.starts e → Contains self.new.starts e) }
        ensures only { OnOk result ((e : EndsOf) → Contains self.new.starts e
            → (e ≡ ends) ⊎ Contains self.old.starts e) }
    {
        if ends.is_among(self.starts.as_slice()) {
            return Ok(());
        }
        self.starts.push(ends)?;
        Ok(())
    }

    /// Takes a row with that many gaps into account.
    pub(crate) fn take(&mut self, alloc: Global, gaps: u32, ends: LeftEnds) -> Result<(), NoMemory>
        ensures { OnOk result (Takes self.old gaps ends self.new) }
    {
        if self.starts.len() == 0 || gaps < self.gaps {
            return self.set(alloc, gaps, ends);
        }
        if gaps != self.gaps {
            return Ok(());
        }
        self.add(ends)?;
        Ok(())
    }

    // Whether there is no gap between a column with these open ends and the first one of some of the rows.
    fn goes_on(&self, p_end: Option<NetNo>, n_end: Option<NetNo>) -> bool
        ensures { result ≡ list_any (λ e. not (is_apart p_end n_end e)) self.now.starts }
    {
        self.starts
            .as_slice()
            .iter()
            .any(|ends| !ends.is_apart(p_end, n_end))
    }

    /// The fewest gaps behind a column with these open ends, where these are the rows of what is left.
    pub(crate) fn need_behind(&self, p_end: Option<NetNo>, n_end: Option<NetNo>) -> u32
        requires few { self.now.gaps ≤ 32 }
        ensures { result ≡ need_behind p_end n_end self.now }
    {
        if self.goes_on(p_end, n_end) {
            self.gaps
        } else {
            self.gaps + 1
        }
    }

    /// The fewest further gaps of the state's completions, where these are the rows of what it has left.
    pub(crate) fn need(&self, state: &State) -> u32
        requires few { self.now.gaps ≤ 32 }
        ensures { result ≡ need_at state.now self.now }
    {
        self.need_behind(state.p_end, state.n_end)
    }
}
