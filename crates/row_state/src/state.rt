ghost use Rattle.std.specs.Prelude.{◌≡◌, ◌≤◌, ◌<◌, ◌↔◌, ◌||◌, IfOk, IsTrue, List as Sequence, map, max, leb, ltb};
ghost use Rattle.std.specs.List.{list_all, list_any, zip};
ghost use Rattle.row_model.specs.declared.column.Column.{Column};
ghost use Rattle.row_model.specs.Gaps.{gaps_of};
ghost use Rattle.row_state.specs.declared.kind.Kinds.{Kinds as KindsOf};
ghost use Rattle.row_state.specs.declared.state.State.{State as StateOf};
ghost use Rattle.row_state.specs.Runs.{IsOnGate};
ghost use Rattle.row_state.specs.Completion.{further_gaps};
ghost use Rattle.row_state.specs.Start.{HasFingers, IsState, columns_left, counts_of, start_of};
ghost use Rattle.row_state.specs.Tests.{columns_test, counts_fit, end_fits, gate_left, keeps_lead, leads_below};
ghost use Rattle.row_state.specs.Tests.{left_of_kind, state_test};

use crate::gate::{OnGate, are_level, behind, first_gates, next_on};
use crate::{Kind, Kinds};
use cell_num::{List, MOST_FINGERS, NetNo, NoMemory};
use std::alloc::{AllocError, Global};

/// Counts of fingers, by the kinds of a row.
pub type Counts = List<u32>;

/// How many fingers of each kind are left, and the open right end of each row.
#[derive(Clone, Debug, PartialEq, Eq, PartialOrd, Ord, Drop)]
pub struct State {
    pub p_left: Counts,
    pub n_left: Counts,
    pub p_end: Option<NetNo>,
    pub n_end: Option<NetNo>,
}

impl State {
    /// The same state again.
    pub fn copied(&self) -> Result<State, NoMemory>
        ensures { IfOk result (λ copy. copy ≡ self.now) }
    {
        Ok(self.clone()?)
    }
}

fn counts(alloc: Global, kinds: &[Kind]) -> Result<Vec<u32>, AllocError>
    ensures { IfOk result (λ counts. counts.items ≡ counts_of kinds.now) }
{
    kinds.iter().map(|kind| kind.count).collect(alloc)
}

/// The state before the first column: all fingers are left, and no end is open.
#[tactic(auto, using(crate::proofs::Valid::start_valid, crate::proofs::Unfold::gaps_from_start))]
pub fn start(alloc: Global, kinds: &Kinds) -> Result<State, NoMemory>
    ensures state { IfOk result (λ s. s ≡ start_of kinds.now) }
    ensures valid { IfOk result (λ s. IsState kinds.now s) }
    ensures gaps { IfOk result (λ s. (row : Sequence Column) → further_gaps s row ≡ gaps_of row) }
{
    Ok(State {
        p_left: List::from_vec(counts(alloc, kinds.p.as_slice())?),
        n_left: List::from_vec(counts(alloc, kinds.n.as_slice())?),
        p_end: None,
        n_end: None,
    })
}

fn of_kind(kind: &Kind, count: u32, gate: u32) -> u32
    ensures { result ≡ left_of_kind gate (kind.now, count) }
{
    if kind.gate.0 == gate { count } else { 0 }
}

// How many fingers there are on the gate.
#[tactic(auto, using(crate::proofs::Valid::gate_all_step))]
fn count_all(kinds: &[Kind], gate: u32) -> u32
    requires few { gate_left kinds.now (counts_of kinds.now) gate ≤ MOST_FINGERS }
    ensures { result ≡ gate_left kinds.now (counts_of kinds.now) gate }
{
    let mut total = 0;
    for at in 0..kinds.len() {
        total += of_kind(&kinds[at], kinds[at].count, gate);
    }
    total
}

#[tactic(auto, using(crate::proofs::Valid::gates_few))]
fn columns_on_gate(kinds: &Kinds, gate: u32) -> u32
    ensures value { result ≡ columns_test kinds.now gate }
    ensures few { result ≤ MOST_FINGERS }
{
    kinds.show_limits();
    let p = count_all(kinds.p.as_slice(), gate);
    let n = count_all(kinds.n.as_slice(), gate);
    p.max(n)
}

/// How many columns the fingers of the kinds need.
#[tactic(auto, using(cell_num::proofs::Sums::sum_below_more, crate::proofs::Valid::columns_are))]
pub fn columns(kinds: &Kinds) -> u32
    ensures { result ≡ columns_left kinds.now (start_of kinds.now) }
{
    let mut total = 0;
    for gate in 0..kinds.nets {
        total += columns_on_gate(kinds, gate);
    }
    total
}

fn all_within(kinds: &[Kind], left: &[u32]) -> bool
    ensures { result ≡ list_all (λ pair. leb pair.1 pair.0.count) (zip kinds.now left.now) }
{
    kinds
        .iter()
        .zip(left.iter())
        .all(|pair| *pair.1 <= pair.0.count)
}

fn fits(kinds: &[Kind], left: &[u32]) -> bool
    ensures { result ≡ counts_fit kinds.now left.now }
{
    left.len() == kinds.len() && all_within(kinds, left)
}

fn is_net(end: &Option<NetNo>, nets: u32) -> bool
    ensures { result ≡ end_fits end.now nets }
{
    match end {
        Some(net) => net.0 < nets,
        None => true,
    }
}

// Whether the gate has no more fingers left in the row that began with no more on it.
#[tactic(auto, using(crate::proofs::Valid::lead_is))]
fn has_lead(on: &OnGate) -> bool
    ensures { (k : KindsOf) (s : StateOf) → IsOnGate k s on.now → result ≡ keeps_lead k s on.now.gate }
{
    let p = on.p;
    let n = on.n;
    (p.all < n.all || n.left <= p.left) && (n.all < p.all || p.left <= n.left)
}

/// Whether each gate has no more fingers left in the row that began with no more on it, where the counts are in range.
#[tactic(auto, using(crate::proofs::Level::level_leads))]
pub fn has_leads(state: &State, kinds: &Kinds) -> bool
    requires p_fits { IsTrue (counts_fit kinds.now.p state.now.p_left) }
    requires n_fits { IsTrue (counts_fit kinds.now.n state.now.n_left) }
    ensures { result ≡ leads_below kinds.now state.now kinds.now.nets }
{
    kinds.show_limits();
    if are_level(state, kinds) {
        return true;
    }
    let mut kept = true;
    let mut cursor = first_gates();
    'gates: while let Some(on) = next_on(state, kinds, &cursor) {
        kept = has_lead(&on) && kept;
        cursor = behind(&on);
    }
    kept
}

fn passes(state: &State, kinds: &Kinds) -> bool
    ensures { result ≡ state_test kinds.now state.now }
{
    if !fits(kinds.p.as_slice(), state.p_left.as_slice()) {
        return false;
    }
    if !fits(kinds.n.as_slice(), state.n_left.as_slice()) {
        return false;
    }
    if !has_leads(state, kinds) {
        return false;
    }
    is_net(&state.p_end, kinds.nets) && is_net(&state.n_end, kinds.nets)
}

/// Whether counts and ends are in range, and each gate has no more fingers left in the row that began
/// with no more on it.
#[tactic(auto, using(crate::proofs::Valid::state_decides))]
pub fn is_state(state: &State, kinds: &Kinds) -> bool
    ensures { IsTrue result ↔ IsState kinds.now state.now }
{
    kinds.show_limits();
    passes(state, kinds)
}

fn some_left(left: &[u32]) -> bool
    ensures { result ≡ list_any (λ count. ltb 0 count) left.now }
{
    left.iter().any(|count| *count > 0)
}

fn any_left(state: &State) -> bool
    ensures { result ≡ (list_any (λ count. ltb 0 count) state.now.p_left || list_any (λ count.
        ltb 0 count) state.now.n_left) }
{
    some_left(state.p_left.as_slice()) || some_left(state.n_left.as_slice())
}

/// Whether a finger is left.
#[tactic(auto, using(crate::proofs::Valid::fingers_decide))]
pub fn has_fingers(state: &State) -> bool
    ensures { (k : KindsOf) → IsState k state.now → (IsTrue result ↔ HasFingers k state.now) }
{
    any_left(state)
}
