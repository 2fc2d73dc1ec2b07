ghost use Rattle.std.specs.Prelude.{◌≡◌, ◌≤◌, ◌+◌, ◌==◌, ℕ, AllPairs, IfSome, IsNone, IsTrue, length, slice_get};
ghost use Rattle.std.specs.List.{list_all, zip};
ghost use Rattle.row_state.specs.declared.kind.Kinds.{Kinds as KindsOf};
ghost use Rattle.row_state.specs.declared.state.State.{State as StateOf};
ghost use Rattle.row_state.specs.Order.{KindBefore};
ghost use Rattle.row_state.specs.Runs.{GatesFrom, IsCursor, IsLast, IsNext, IsOnGate, IsRun};
ghost use Rattle.row_state.specs.Start.{counts_of};
ghost use Rattle.row_state.specs.Tests.{counts_fit, gate_left, lower_gate};

use crate::{Kind, Kinds, State};
use cell_num::{MOST_FINGERS, MOST_NETS};

// The kinds of one row on a gate, from `from` to below `to`, and how many fingers of them there are
// and are left.
#[derive(Clone, Copy)]
pub(crate) struct Run {
    pub from: usize,
    pub to: usize,
    pub all: u32,
    pub left: u32,
}

// The kinds of both rows on a gate.
#[derive(Clone, Copy)]
pub(crate) struct OnGate {
    pub gate: u32,
    pub p: Run,
    pub n: Run,
}

// The kinds ascend by gate, so those of the gate end at the first one of another gate.
#[tactic(auto, using(crate::proofs::Runs::ends_here, crate::proofs::Runs::ends_last))]
fn run_from(kinds: &[Kind], left: &[u32], gate: u32, from: usize) -> Run
    requires order { AllPairs KindBefore kinds.now }
    requires same { length left.now ≡ length kinds.now }
    requires few { gate_left kinds.now (counts_of kinds.now) gate ≤ MOST_FINGERS }
    requires few_left { gate_left kinds.now left.now gate ≤ MOST_FINGERS }
    requires from { GatesFrom kinds.now gate from }
    ensures { IsRun kinds.now left.now gate result }
{
    let mut run = Run {
        from,
        to: kinds.len(),
        all: 0,
        left: 0,
    };
    for at in from..kinds.len() {
        if kinds[at].gate.0 != gate {
            run.to = at;
            return run;
        }
        run.all += kinds[at].count;
        run.left += left[at];
    }
    run
}

// The kinds of the gate, whose places among the kinds of each row begin at `p_from` and `n_from`.
#[tactic(auto, using(crate::proofs::Valid::gates_few, crate::proofs::Valid::left_few))]
pub(crate) fn on_gate(
    state: &State,
    kinds: &Kinds,
    gate: u32,
    p_from: usize,
    n_from: usize,
) -> OnGate
    requires p_fits { IsTrue (counts_fit kinds.now.p state.now.p_left) }
    requires n_fits { IsTrue (counts_fit kinds.now.n state.now.n_left) }
    requires p_from { GatesFrom kinds.now.p gate p_from }
    requires n_from { GatesFrom kinds.now.n gate n_from }
    ensures gate { result.gate ≡ gate }
    ensures on { IsOnGate kinds.now state.now result }
{
    OnGate {
        gate,
        p: run_from(kinds.p.as_slice(), state.p_left.as_slice(), gate, p_from),
        n: run_from(kinds.n.as_slice(), state.n_left.as_slice(), gate, n_from),
    }
}

// Where the kinds of a gate and of the higher ones begin in each row.
#[derive(Clone, Copy)]
pub(crate) struct Cursor {
    pub gate: u32,
    pub p: usize,
    pub n: usize,
}

#[tactic(auto, using(crate::proofs::Gates::cursor_at_first))]
pub(crate) fn first_gates() -> Cursor
    ensures start { result.gate ≡ 0 }
    ensures cursor { (k : KindsOf) → IsCursor k result }
{
    Cursor {
        gate: 0,
        p: 0,
        n: 0,
    }
}

fn next_gate(kinds: &Kinds, cursor: &Cursor) -> Option<u32>
    ensures { result ≡ lower_gate (slice_get kinds.now.p cursor.now.p) (slice_get kinds.now.n cursor.now.n) }
{
    match (kinds.p.get(cursor.p), kinds.n.get(cursor.n)) {
        (Some(p), Some(n)) => Some(p.gate.0.min(n.gate.0)),
        (Some(p), None) => Some(p.gate.0),
        (None, Some(n)) => Some(n.gate.0),
        (None, None) => None,
    }
}

// The kinds of the next gate that has kinds.
#[tactic(auto, using(crate::proofs::Gates::next_is, crate::proofs::Gates::last_is))]
pub(crate) fn next_on(state: &State, kinds: &Kinds, cursor: &Cursor) -> Option<OnGate>
    requires p_fits { IsTrue (counts_fit kinds.now.p state.now.p_left) }
    requires n_fits { IsTrue (counts_fit kinds.now.n state.now.n_left) }
    requires cursor { IsCursor kinds.now cursor.now }
    ensures on { IfSome result (IsOnGate kinds.now state.now) }
    ensures next { IfSome result (λ on. IsNext kinds.now cursor.now on.gate) }
    ensures last { IsNone result → IsLast kinds.now cursor.now }
{
    kinds.show_limits();
    match next_gate(kinds, cursor) {
        Some(gate) => Some(on_gate(state, kinds, gate, cursor.p, cursor.n)),
        None => None,
    }
}

// The kinds after those of a gate.
pub(crate) fn behind(on: &OnGate) -> Cursor
    requires { on.now.gate ≤ MOST_NETS }
    ensures gate { result.gate ≡ on.now.gate + 1 }
    ensures cursor { (k : KindsOf) (s : StateOf) → IsOnGate k s on.now → on.now.gate + 1 ≤ k.nets → IsCursor k result }
{
    Cursor {
        gate: on.gate + 1,
        p: on.p.to,
        n: on.n.to,
    }
}

fn are_same_gates(p: &[Kind], n: &[Kind]) -> bool
    ensures { result ≡ list_all (λ pair. pair.0.gate.0 == pair.1.gate.0) (zip p.now n.now) }
{
    p.iter()
        .zip(n.iter())
        .all(|pair| pair.0.gate == pair.1.gate)
}

// Whether the kinds of the rows have the same gates one by one, and as many fingers left: so it is in most states,
// since most columns fill both places. Then both rows have as many left on each gate.
pub(crate) fn are_level(state: &State, kinds: &Kinds) -> bool
    requires p_fits { IsTrue (counts_fit kinds.now.p state.now.p_left) }
    requires n_fits { IsTrue (counts_fit kinds.now.n state.now.n_left) }
    ensures { IsTrue result → (gate : ℕ) →
        gate_left kinds.now.p state.now.p_left gate ≡ gate_left kinds.now.n state.now.n_left gate }
{
    state.p_left.as_slice() == state.n_left.as_slice()
        && are_same_gates(kinds.p.as_slice(), kinds.n.as_slice())
}
