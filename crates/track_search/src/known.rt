// What is known of a state, whatever the tracks of its open nets are.
ghost use Rattle.std.specs.Prelude.{ℕ, ◌≡◌, ◌≤◌, ◌⊎◌, ◌↔◌, IfOk, IsTrue, ltb};
ghost use Rattle.row_state.specs.Start.{IsState};
ghost use Rattle.lemma_check.specs.Noted.{AreNoted};
ghost use Rattle.track_ways.specs.Certificate.{NeedsMore};
ghost use Rattle.track_search.specs.Bare.{IsFrom, IsUpTo, nothing_known};

use crate::ahead::Task;
use cell_num::{NoMemory, Row};
use lemma_check::RowTrails;
use row_state::{RowBound, State, count_empty};

/// What is known of a state, whatever the tracks of its open nets are.
#[derive(Clone, Copy, Debug, PartialEq, Eq)]
pub(crate) struct Known {
    /// The most gaps that are known to be too few by the bounds of its rows.
    pub too_few: Option<u32>,
    /// The most gaps of the lemmas without tracks on it.
    pub closed: Option<u32>,
    /// The fewest gaps with which it is known to have a completion without a crowded line.
    pub free: Option<u32>,
}

pub(crate) fn nothing_known() -> Known
    ensures { result ≡ nothing_known }
{
    Known {
        too_few: None,
        closed: None,
        free: None,
    }
}

/// The greater of the two.
#[tactic(auto, using(crate::proofs::Bare::up_none, crate::proofs::Bare::up_gaps, crate::proofs::Bare::up_noted))]
pub(crate) fn most(noted: Option<u32>, gaps: u32) -> u32
    ensures { (n : ℕ) → n ≤ result ↔ (IsUpTo noted n ⊎ (n ≤ gaps)) }
{
    let Some(most) = noted else {
        return gaps;
    };
    if most < gaps {
        return gaps;
    }
    most
}

pub(crate) fn is_up_to(noted: Option<u32>, gaps: u32) -> bool
    ensures { IsTrue result ↔ IsUpTo noted gaps }
{
    match noted {
        Some(most) => gaps <= most,
        None => false,
    }
}

pub(crate) fn is_from(noted: Option<u32>, gaps: u32) -> bool
    ensures { IsTrue result ↔ IsFrom noted gaps }
{
    match noted {
        Some(fewest) => fewest <= gaps,
        None => false,
    }
}

// Whether the bound of the row is above the gaps.
fn row_needs_more<B: RowBound>(
    task: &Task<B>,
    trails: &mut RowTrails,
    row: Row,
    state: &State,
    gaps: u32,
) -> Result<bool, NoMemory>
    requires state { IsState task.now.kinds.now state.now }
    requires trails { AreNoted (B.trails_of task.now.bound.now) task.now.kinds.now trails.old }
    ensures trails { AreNoted (B.trails_of task.now.bound.now) task.now.kinds.now trails.new }
    ensures more { IfOk result (λ more. more ≡ ltb gaps (B.value task.now.bound.now row state.now
        task.now.kinds.now)) }
{
    let kinds = task.kinds;
    let counted = trails.of(task.bound, kinds, row, state)?;
    let empty = count_empty(row, state, kinds);
    let more = task.bound.is_above(row, state, kinds, counted, empty, gaps);
    Ok(more)
}

/// Whether the state needs more gaps by the bounds of its rows. The trails of rows are counted once.
pub(crate) fn needs_more<B: RowBound>(
    task: &Task<B>,
    trails: &mut RowTrails,
    state: &State,
    gaps: u32,
) -> Result<bool, NoMemory>
    requires state { IsState task.now.kinds.now state.now }
    requires trails { AreNoted (B.trails_of task.now.bound.now) task.now.kinds.now trails.old }
    ensures trails { AreNoted (B.trails_of task.now.bound.now) task.now.kinds.now trails.new }
    ensures more { IfOk result (λ more. IsTrue more ↔ NeedsMore (B.value task.now.bound.now) task.now.kinds.now
        state.now gaps) }
{
    let p = row_needs_more(task, trails, Row::P, state, gaps)?;
    if p {
        return Ok(true);
    }
    let n = row_needs_more(task, trails, Row::N, state, gaps)?;
    Ok(n)
}
