ghost use Rattle.std.specs.Prelude.{◌≡◌, ◌≤◌, ◌<◌, ◌+◌, ◌||◌, IfErr, IfOk, IsTrue, true, is_some};
ghost use Rattle.row_state.specs.Completion.{Need};
ghost use Rattle.row_state.specs.Start.{IsState};
ghost use Rattle.trail_search.specs.Lists.{AreRight};
ghost use Rattle.trail_search.specs.Visit.{Halts, IfSpent, TriesOnce};

use crate::behind::behind;
use crate::lists::ChoiceLists;
use crate::proof::RefuteStop;
use crate::refute::is_refuted;
use cell_num::{Halt, NoMemory, Row, are_fingers};
use row_state::{Component, Kinds, RowBound, State};
use std::alloc::Global;

fn is_above(row: Row, state: &State, kinds: &Kinds, allowed: u32) -> bool
    requires { IsState kinds.now state.now }
    ensures { IsTrue result → Need kinds.now state.now (allowed + 1) }
{
    kinds.show_limits();
    allowed < Component.bound(row, state, kinds)
}

fn is_open(state: &State) -> bool
    ensures { result ≡ (is_some state.now.p_end || is_some state.now.n_end) }
{
    state.p_end.is_some() || state.n_end.is_some()
}

// Whether trails refute that a completion has so few further gaps. It is not tried before the first column, nor where
// no net is left for a column in front.
#[tactic(auto, using(crate::proofs::Spent::tries_none, crate::proofs::Spent::tries_once))]
fn trails_refute(
    alloc: Global,
    state: &State,
    kinds: &Kinds,
    allowed: u32,
    lists: &mut ChoiceLists,
    left: &mut u64,
) -> Result<bool, Halt>
    requires state { IsState kinds.now state.now }
    requires right { AreRight lists.old }
    ensures right { AreRight lists.new }
    ensures refuted { IfOk result (λ yes. IsTrue yes → Need kinds.now state.now (allowed + 1)) }
    ensures left { left.new ≤ left.old }
    ensures halted { IfErr result (Halts left.new) }
    ensures tries { IfOk result (λ _. TriesOnce kinds.now true state.now (allowed + 1) left.old left.new) }
    ensures spent_tries { IfErr result (λ why. IfSpent why
        (TriesOnce kinds.now true state.now (allowed + 1) left.old left.new)) }
{
    kinds.show_limits();
    if !is_open(state) {
        return Ok(false);
    }
    let fingers = behind(alloc, kinds, state)?;
    if !are_fingers(&fingers) {
        return Ok(false);
    }
    match is_refuted(alloc, &fingers, allowed, lists, left) {
        Ok(refuted) => Ok(refuted),
        Err(RefuteStop::Choices { .. }) => Ok(false),
        Err(RefuteStop::Spent) => Err(Halt::Spent),
        Err(RefuteStop::NoMemory) => Err(Halt::NoMemory),
    }
}

/// Whether it is proved that every completion of the state has more further gaps than are allowed: by bounds on both
/// rows, and where `tries` by trails.
#[tactic(auto, using(crate::proofs::Spent::tries_none, crate::proofs::Spent::tries_may))]
pub(crate) fn exceeds_allowed(
    alloc: Global,
    tries: bool,
    state: &State,
    kinds: &Kinds,
    allowed: u32,
    lists: &mut ChoiceLists,
    left: &mut u64,
) -> Result<bool, Halt>
    requires state { IsState kinds.now state.now }
    requires right { AreRight lists.old }
    ensures right { AreRight lists.new }
    ensures exceeds { IfOk result (λ yes. IsTrue yes → Need kinds.now state.now (allowed + 1)) }
    ensures left { left.new ≤ left.old }
    ensures halted { IfErr result (Halts left.new) }
    ensures tries { IfOk result (λ _. TriesOnce kinds.now tries state.now (allowed + 1) left.old left.new) }
    ensures spent_tries { IfErr result (λ why. IfSpent why
        (TriesOnce kinds.now tries state.now (allowed + 1) left.old left.new)) }
{
    if is_above(Row::P, state, kinds, allowed) || is_above(Row::N, state, kinds, allowed) {
        return Ok(true);
    }
    if !tries {
        return Ok(false);
    }
    trails_refute(alloc, state, kinds, allowed, lists, left)
}
