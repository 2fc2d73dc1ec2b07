ghost use Rattle.std.specs.Prelude.{◌≡◌, ◌<◌, ◌+◌, ◌∷◌, IfOk, IfSome, List as Sequence, length, slice_index};
ghost use Rattle.row_model.specs.declared.column.Column.{Column};
ghost use Rattle.row_state.specs.Completion.{Completes, cost_of, further_gaps};
ghost use Rattle.row_state.specs.Start.{IsState, columns_left};
ghost use Rattle.row_state.specs.Steps.{IsPossible, column_of, left_after, oriented_of, placed_of, state_after};

use crate::{Counts, Kind, Kinds, State};
use cell_num::{Finger, List, NoMemory, Row};
use row_model::{Column, Placed};
use row_trails::{cost_at_ends, end_behind};
use std::alloc::Global;

/// A kind in one of its two orientations.
#[derive(Clone, Copy, Debug, PartialEq, Eq)]
pub struct Side {
    /// The number of the kind in its row.
    pub kind: u32,
    pub flipped: bool,
}

/// A next column: what stands in its two places.
#[derive(Clone, Copy, Debug, PartialEq, Eq)]
pub struct Step {
    pub p: Option<Side>,
    pub n: Option<Side>,
}

/// Steps from state to state, each of them a next column.
pub type Steps = List<Step>;

fn oriented(row: Row, kind: &Kind, flipped: bool) -> Placed
    ensures { result ≡ oriented_of row kind.now flipped }
{
    Placed {
        finger: Finger {
            row,
            gate: kind.gate,
            lo: kind.lo,
            hi: kind.hi,
            width: kind.width,
        },
        flipped,
    }
}

fn placed(row: Row, kinds: &[Kind], side: &Option<Side>) -> Option<Placed>
    ensures { result ≡ placed_of row kinds.now side.now }
{
    match side {
        Some(side) => match kinds.get(side.kind as usize) {
            Some(kind) => Some(oriented(row, kind, side.flipped)),
            None => None,
        },
        None => None,
    }
}

/// The column of a step. A place whose kind is none of the kinds is empty.
pub fn column(step: &Step, kinds: &Kinds) -> Column
    ensures { result ≡ column_of kinds.now step.now }
{
    Column {
        p: placed(Row::P, kinds.p.as_slice(), &step.p),
        n: placed(Row::N, kinds.n.as_slice(), &step.n),
    }
}

pub(crate) fn column_cost(state: &State, column: &Column) -> u32
    ensures { result ≡ cost_of state.now column.now }
{
    cost_at_ends(&state.p_end, &state.n_end, column)
}

/// 1 where in some row an end is open and the next column fills that row with another net, else 0.
#[tactic(auto, using(crate::proofs::Unfold::further_step))]
pub fn step_cost(state: &State, step: &Step, kinds: &Kinds) -> u32
    requires state { IsState kinds.now state.now }
    requires step { IsPossible kinds.now state.now step.now }
    ensures cost { result ≡ cost_of state.now (column_of kinds.now step.now) }
    ensures adds { (rest : Sequence Column) → further_gaps state.now (column_of kinds.now step.now ∷ rest) ≡
        result + further_gaps (state_after kinds.now state.now step.now) rest }
{
    column_cost(state, &column(step, kinds))
}

fn copied(alloc: Global, counts: &[u32]) -> Result<Vec<u32>, NoMemory>
    ensures { IfOk result (λ copy. copy.items ≡ counts.now) }
{
    let mut copy = Vec::new(alloc);
    copy.extend_from_slice(counts)?;
    Ok(copy)
}

// The counts with one finger of the side's kind taken.
fn lowered(alloc: Global, left: &Counts, side: &Option<Side>) -> Result<Counts, NoMemory>
    requires same { IfSome side.now (λ side. side.kind < length left.now) }
    requires some { IfSome side.now (λ side. 0 < slice_index left.now side.kind) }
    ensures { IfOk result (λ counts. counts ≡ left_after left.now side.now) }
{
    let mut counts = copied(alloc, left.as_slice())?;
    if let Some(side) = side {
        let at = side.kind as usize;
        counts[at] = counts[at] - 1;
    }
    Ok(List::from_vec(counts))
}

#[tactic(auto, using(crate::proofs::Calls::step_left))]
fn stepped(alloc: Global, state: &State, step: &Step, kinds: &Kinds) -> Result<State, NoMemory>
    requires state { IsState kinds.now state.now }
    requires step { IsPossible kinds.now state.now step.now }
    ensures { IfOk result (λ s. s ≡ state_after kinds.now state.now step.now) }
{
    let column = column(step, kinds);
    let p_left = lowered(alloc, &state.p_left, &step.p)?;
    let n_left = lowered(alloc, &state.n_left, &step.n)?;
    Ok(State {
        p_left,
        n_left,
        p_end: end_behind(&column.p),
        n_end: end_behind(&column.n),
    })
}

/// The state after a next column. A row whose place it leaves empty has no open end then.
#[tactic(auto, using(crate::proofs::Rules::after_rules))]
pub fn after(alloc: Global, state: &State, step: &Step, kinds: &Kinds) -> Result<State, NoMemory>
    requires state { IsState kinds.now state.now }
    requires step { IsPossible kinds.now state.now step.now }
    ensures state { IfOk result (λ s. s ≡ state_after kinds.now state.now step.now) }
    ensures valid { IfOk result (λ s. IsState kinds.now s) }
    ensures fewer { IfOk result (λ s. columns_left kinds.now state.now ≡ columns_left kinds.now s + 1) }
    ensures completes { IfOk result (λ s. (rest : Sequence Column) → Completes kinds.now s rest →
        Completes kinds.now state.now (column_of kinds.now step.now ∷ rest)) }
{
    kinds.show_limits();
    let next = stepped(alloc, state, step, kinds)?;
    Ok(next)
}
