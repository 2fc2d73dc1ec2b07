ghost use Rattle.std.specs.Prelude.{◌<◌, All, IfSome, cond, false, not, slice_index_or, ◌≡◌, ◌≤◌, ◌+◌, ◌-◌, ◌/◌, ◌%◌};
ghost use Rattle.std.specs.Prelude.{◌==◌, ℕ, length, refl};
ghost use Rattle.std.proofs.Common.{inl};
ghost use Rattle.row_trails.specs.Counts.{halved};
ghost use Rattle.row_trails.specs.Trails.{size};
ghost use Rattle.row_state.specs.Law.{parity_holds};
ghost use Rattle.row_state.specs.Parity.{parity_value};
ghost use Rattle.row_state.specs.declared.kind.Kinds.{Kinds as KindsOf};
ghost use Rattle.row_state.specs.declared.state.State.{State as StateOf};
ghost use Rattle.row_state.specs.Runs.{IsOnGate};
ghost use Rattle.row_state.specs.Start.{IsKind, IsState};
ghost use Rattle.row_state.specs.Tests.{adds_odd, empty_in, empty_test, is_odd_behind, is_odd_net, kinds_in, left_of};
ghost use Rattle.row_state.specs.Tests.{parity_test, parity_trails};
ghost use Rattle.row_state.specs.Trails.{end_of};

use crate::bound::are_above;
use crate::gate::{OnGate, are_level, behind, first_gates, next_on};
use crate::{Kind, Kinds, PARITY_LOG, RowBound, State};
use cell_num::{MOST_NETS, NetNo, Row};
use row_trails::{NETS, count_nets, odd_trails, toggle_net};

/// The bound that counts the nets of odd degree: a walk through all fingers left of a row passes each
/// net in pairs of ends but where it begins, ends or breaks.
#[derive(Clone, Copy, Debug)]
pub struct Parity;

// An odd number of fingers turns the degree of both ends, and twice that of one net at both.
#[tactic(auto, using(crate::proofs::ParityCode::ends_toggled))]
fn toggle_ends(set: &mut [bool; NETS], kind: &Kind, count: u32)
    requires lo { kind.now.lo.0 < MOST_NETS }
    requires hi { kind.now.hi.0 < MOST_NETS }
    ensures { (u : ℕ) → slice_index_or set.new u false ≡
        cond (adds_odd u (kind.now, count)) (not (slice_index_or set.old u false)) (slice_index_or set.old u false) }
{
    if count % 2 == 1 {
        toggle_net(set, kind.lo.0);
        toggle_net(set, kind.hi.0);
    }
}

// The nets of odd degree.
#[tactic(auto, using(crate::proofs::ParityCode::kind_ends, crate::proofs::ParityCode::odd_more))]
fn odd_nets(kinds: &[Kind], left: &[u32], nets: u32) -> [bool; NETS]
    requires few { nets ≤ MOST_NETS }
    requires kinds { All (IsKind nets) kinds.now }
    requires same { length left.now ≡ length kinds.now }
    ensures { (u : ℕ) → slice_index_or result u false ≡ is_odd_net kinds.now left.now u }
{
    let mut odd = [false; NETS];
    for at in 0..kinds.len() {
        toggle_ends(&mut odd, &kinds[at], left[at]);
    }
    odd
}

// The nets of odd degree, with the net of an open end taken out, or put in.
pub(crate) fn odd_behind(
    kinds: &[Kind],
    left: &[u32],
    end: &Option<NetNo>,
    nets: u32,
) -> [bool; NETS]
    requires few { nets ≤ MOST_NETS }
    requires kinds { All (IsKind nets) kinds.now }
    requires same { length left.now ≡ length kinds.now }
    requires end { IfSome end.now (λ v. v.0 < nets) }
    ensures { (u : ℕ) → slice_index_or result u false ≡ is_odd_behind end.now kinds.now left.now u }
{
    let mut odd = odd_nets(kinds, left, nets);
    match end {
        Some(open) => {
            toggle_net(&mut odd, open.0);
            odd
        }
        None => odd,
    }
}

#[tactic(auto, using(crate::proofs::ParityCode::size_of))]
fn count_odd(kinds: &[Kind], left: &[u32], end: &Option<NetNo>, nets: u32) -> u32
    requires few { nets ≤ MOST_NETS }
    requires kinds { All (IsKind nets) kinds.now }
    requires same { length left.now ≡ length kinds.now }
    requires end { IfSome end.now (λ v. v.0 < nets) }
    ensures { result ≡ size nets (is_odd_behind end.now kinds.now left.now) }
{
    count_nets(&odd_behind(kinds, left, end, nets), nets)
}

// The places of the gate that stay empty in the row.
#[tactic(auto, using(crate::proofs::ParityCode::empty_p, crate::proofs::ParityCode::empty_n))]
fn empty_on(row: Row, on: &OnGate) -> u32
    ensures { (k : KindsOf) (s : StateOf) → IsOnGate k s on.now → result ≡ empty_test row s k on.now.gate }
{
    match row {
        Row::P => on.n.left.saturating_sub(on.p.left),
        Row::N => on.p.left.saturating_sub(on.n.left),
    }
}

/// How many places of the row stay empty in every completion of a state.
#[tactic(auto, using(crate::proofs::Rules::count_empty_rules))]
pub fn count_empty(row: Row, state: &State, kinds: &Kinds) -> u32
    requires state { IsState kinds.now state.now }
    ensures { result ≡ empty_in row state.now kinds.now }
{
    kinds.show_limits();
    if are_level(state, kinds) {
        return 0;
    }
    let mut empty = 0;
    let mut cursor = first_gates();
    'gates: while let Some(on) = next_on(state, kinds, &cursor) {
        empty += empty_on(row, &on);
        cursor = behind(&on);
    }
    empty
}

fn count_odd_in(row: Row, state: &State, kinds: &Kinds) -> u32
    requires state { IsState kinds.now state.now }
    ensures { result ≡ size kinds.now.nets (is_odd_behind (end_of row state.now) (kinds_in row kinds.now)
        (left_of row state.now)) }
{
    match row {
        Row::P => count_odd(
            kinds.p.as_slice(),
            state.p_left.as_slice(),
            &state.p_end,
            kinds.nets,
        ),
        Row::N => count_odd(
            kinds.n.as_slice(),
            state.n_left.as_slice(),
            &state.n_end,
            kinds.nets,
        ),
    }
}

fn halve(row: Row, state: &State, odd: u32) -> u32
    ensures { result ≡ halved (end_of row state.now) odd }
{
    match row {
        Row::P => odd_trails(&state.p_end, odd),
        Row::N => odd_trails(&state.n_end, odd),
    }
}

fn count_trails_in(row: Row, state: &State, kinds: &Kinds) -> u32
    requires state { IsState kinds.now state.now }
    ensures { result ≡ parity_trails row (end_of row state.now) (left_of row state.now) kinds.now }
{
    let odd = count_odd_in(row, state, kinds);
    halve(row, state, odd)
}

fn row_bound(row: Row, state: &State, kinds: &Kinds) -> u32
    requires state { IsState kinds.now state.now }
    ensures { result ≡ parity_test row state.now kinds.now }
{
    let empty = count_empty(row, state, kinds);
    count_trails_in(row, state, kinds).saturating_sub(empty)
}

impl RowBound for Parity {
    ghost use Rattle.row_state.specs.declared.bound.TheConstants.{PARITY_LOG};

    ghost value = { λ b row s k. parity_value row s k };

    ghost trails_of = { λ b row end left k. parity_trails row end left k };

    ghost version_of = { λ b. PARITY_LOG };

    ghost holds = { λ b row s k some valid. parity_holds k s row some };

    ghost known = { λ b. inl refl };

    #[tactic(auto, using(crate::proofs::ParityCode::parity_code))]
    fn bound(&self, row: Row, state: &State, kinds: &Kinds) -> u32 {
        row_bound(row, state, kinds)
    }

    fn trails(&self, row: Row, state: &State, kinds: &Kinds) -> u32 {
        count_trails_in(row, state, kinds)
    }

    #[tactic(auto, using(crate::proofs::ParityCode::parity_code))]
    fn is_above(
        &self,
        row: Row,
        state: &State,
        kinds: &Kinds,
        trails: u32,
        empty: u32,
        most: u32,
    ) -> bool {
        are_above(trails, empty, most)
    }

    fn version(&self) -> u32 {
        PARITY_LOG
    }
}
