ghost use Rattle.std.specs.Prelude.{◌≡◌, ◌≤◌, ◌<◌, ◌+◌, ◌*◌, ℕ, IfSome, Some, length, slice_get, slice_index};
ghost use Rattle.row_state.specs.declared.kind.Kind.{Kind as KindOf};
ghost use Rattle.row_state.specs.declared.state.State.{State as StateOf};
ghost use Rattle.row_state.specs.Code.{IsCode, count_lists, counts_code, counts_of_code, end_code, end_of_code};
ghost use Rattle.row_state.specs.Code.{most_states, row_code, rows_of_code, state_code, state_of};
ghost use Rattle.row_state.specs.Decoded.{rows_code};
ghost use Rattle.row_state.specs.Start.{IsState};
ghost use Rattle.row_state.specs.Tests.{left_of};
ghost use Rattle.row_state.specs.Trails.{end_of};

use crate::{Kind, Kinds, State};
use cell_num::{MOST_NETS, NetNo, Row};

// How many lists of counts the kinds allow.
#[tactic(auto, using(crate::proofs::Rules::lists_rules))]
pub(crate) fn lists(kinds: &[Kind]) -> u64
    requires few { count_lists kinds.now ≤ 4294967296 }
    ensures value { result ≡ count_lists kinds.now }
    ensures some { 0 < result }
{
    let mut lists = 1;
    for at in (0..kinds.len()).rev() {
        lists *= u64::from(kinds[at].count) + 1;
    }
    lists
}

// The counts as the digits of a number, the last kind's first.
#[tactic(auto, using(crate::proofs::Codes::counts_next, crate::proofs::Codes::counts_drop))]
fn counts_number(kinds: &[Kind], left: &[u32]) -> u64
    requires few { count_lists kinds.now ≤ 4294967296 }
    requires same { length left.now ≡ length kinds.now }
    requires within { (i : ℕ) (kind : KindOf) → slice_get kinds.now i ≡ Some kind →
        slice_index left.now i ≤ kind.count }
    ensures { result ≡ counts_code kinds.now left.now }
{
    let mut number = 0;
    for at in (0..kinds.len()).rev() {
        number = number * (u64::from(kinds[at].count) + 1) + u64::from(left[at]);
    }
    number
}

pub(crate) fn end_number(end: &Option<NetNo>) -> u128
    ensures { result ≡ end_code end.now }
{
    match end {
        Some(net) => u128::from(net.0) + 1,
        None => 0,
    }
}

// The counts of both rows as one number.
#[tactic(auto, using(crate::proofs::Rules::rows_number_rules))]
pub(crate) fn rows_number(state: &State, kinds: &Kinds) -> u64
    requires state { IsState kinds.now state.now }
    ensures { result ≡ rows_code kinds.now state.now }
{
    let p_kinds = kinds.p.as_slice();
    let n_kinds = kinds.n.as_slice();
    let p = counts_number(p_kinds, state.p_left.as_slice());
    let n = counts_number(n_kinds, state.n_left.as_slice());
    p * lists(n_kinds) + n
}

// The number of a state, from that of its counts.
#[tactic(auto, using(crate::proofs::Codes::ends_below, crate::proofs::Codes::digits_fit))]
pub(crate) fn code_of_rows(rows: u64, state: &State, kinds: &Kinds) -> u128
    requires state { IsState kinds.now state.now }
    requires rows { rows ≡ rows_code kinds.now state.now }
    ensures { result ≡ state_code kinds.now state.now }
{
    let ends = u128::from(kinds.nets) + 1;
    (u128::from(rows) * ends + end_number(&state.p_end)) * ends + end_number(&state.n_end)
}

/// The number of a state among those of its kinds: no other has it.
#[tactic(auto, using(crate::proofs::Codes::state_below, crate::proofs::Codes::state_same))]
pub fn code(state: &State, kinds: &Kinds) -> u128
    requires state { IsState kinds.now state.now }
    ensures code { result ≡ state_code kinds.now state.now }
    ensures below { result < most_states kinds.now }
    ensures own { (other : StateOf) → IsState kinds.now other → state_code kinds.now other ≡ result →
        other ≡ state.now }
{
    code_of_rows(rows_number(state, kinds), state, kinds)
}

// The counts of a row, and after them its end.
fn row_digits(kinds: &[Kind], left: &[u32], end: &Option<NetNo>, nets: u32) -> u64
    requires nets { nets ≤ MOST_NETS }
    requires few { count_lists kinds.now ≤ 4294967296 }
    requires same { length left.now ≡ length kinds.now }
    requires within { (i : ℕ) (kind : KindOf) → slice_get kinds.now i ≡ Some kind →
        slice_index left.now i ≤ kind.count }
    requires end { IfSome end.now (λ v. v.0 < nets) }
    ensures { result ≡ counts_code kinds.now left.now * (nets + 1) + end_code end.now }
{
    counts_number(kinds, left) * (u64::from(nets) + 1) + end_number(end) as u64
}

/// The number of what a row of the state has left, its counts and its open end: no other has it.
#[tactic(auto, using(crate::proofs::Codes::lists_few_p, crate::proofs::Codes::lists_few_n))]
pub fn row_number(row: Row, state: &State, kinds: &Kinds) -> u64
    requires state { IsState kinds.now state.now }
    ensures number { result ≡ row_code row kinds.now state.now }
    ensures own { (other : StateOf) → IsState kinds.now other → row_code row kinds.now other ≡ result →
        (left_of row other ≡ left_of row state.now) × (end_of row other ≡ end_of row state.now) }
{
    kinds.show_limits();
    match row {
        Row::P => row_digits(
            kinds.p.as_slice(),
            state.p_left.as_slice(),
            &state.p_end,
            kinds.nets,
        ),
        Row::N => row_digits(
            kinds.n.as_slice(),
            state.n_left.as_slice(),
            &state.n_end,
            kinds.nets,
        ),
    }
}

// The digits of the number as counts.
#[tactic(auto, using(crate::proofs::Decoding::counts_put))]
fn put_counts(kinds: &[Kind], number: u64, into: &mut [u32])
    requires same { length into.old ≡ length kinds.now }
    ensures { into.new ≡ counts_of_code kinds.now number }
{
    let mut rest = number;
    for at in 0..kinds.len() {
        let radix = u64::from(kinds[at].count) + 1;
        into[at] = (rest % radix) as u32;
        rest /= radix;
    }
}

fn end_numbered(number: u128) -> Option<NetNo>
    requires { number ≤ 256 }
    ensures { result ≡ end_of_code number }
{
    if number == 0 {
        None
    } else {
        Some(NetNo((number - 1) as u32))
    }
}

#[tactic(auto, using(crate::proofs::Codes::lists_few_n))]
fn put_state(code: u128, kinds: &Kinds, into: &mut State)
    requires few { rows_of_code kinds.now code < 18446744073709551616 }
    requires p_room { length into.old.p_left ≡ length kinds.now.p }
    requires n_room { length into.old.n_left ≡ length kinds.now.n }
    ensures { into.new ≡ state_of kinds.now code }
{
    let p_kinds = kinds.p.as_slice();
    let n_kinds = kinds.n.as_slice();
    let ends = u128::from(kinds.nets) + 1;
    let rows = (code / ends / ends) as u64;
    let lists = lists(n_kinds);
    put_counts(p_kinds, rows / lists, into.p_left.as_mut_slice());
    put_counts(n_kinds, rows % lists, into.n_left.as_mut_slice());
    into.p_end = end_numbered(code / ends % ends);
    into.n_end = end_numbered(code % ends);
}

/// The state that has the number, in the place of one with as many kinds.
#[tactic(auto, using(crate::proofs::Rules::decode_rules))]
pub fn decode(code: u128, kinds: &Kinds, into: &mut State)
    requires code { IsCode kinds.now code }
    requires p_room { length into.old.p_left ≡ length kinds.now.p }
    requires n_room { length into.old.n_left ≡ length kinds.now.n }
    ensures state { IsState kinds.now into.new }
    ensures code { state_code kinds.now into.new ≡ code }
    ensures value { into.new ≡ state_of kinds.now code }
{
    kinds.show_limits();
    put_state(code, kinds, into);
}
