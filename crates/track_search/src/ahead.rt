// A next column that the gaps allow and that leaves no line crowded.
ghost use Rattle.std.specs.Prelude.{◌≡◌, ◌+◌, [], List, IfNone, IfOk, IfSome, OnOk, false};
ghost use Rattle.row_state.specs.Candidates.{IsCandidate, IsNumbered};
ghost use Rattle.row_state.specs.Completion.{cost_of};
ghost use Rattle.row_state.specs.Start.{IsState, start_of};
ghost use Rattle.row_state.specs.Steps.{IsPossible, column_of, state_after};
ghost use Rattle.lemma_check.specs.Noted.{AreNoted};
ghost use Rattle.track_check.specs.Touches.{AreTouches};
ghost use Rattle.track_ways.specs.Crowds.{step_uncrowded};
ghost use Rattle.track_ways.specs.States.{is_behind};
ghost use Rattle.track_ways.specs.Tables.{marked};
ghost use Rattle.track_ways.specs.Ways.{goes_ways_by};
ghost use Rattle.track_ways.specs.declared.track.NetTrack.{NetTrack};
ghost use Rattle.track_search.specs.Bare.{IsNoted};
ghost use Rattle.track_search.specs.Visit.{ColumnFails, IsAhead, IsKept};

use crate::marks::nets_after;
use crate::progress::Progress;
use cell_num::{NoMemory, Pins};
use lemma_check::RowTrails;
use row_state::{Candidate, Kinds, Numbered, RowBound, State, Step};
use row_trails::NETS;
use std::alloc::Global;
use track_check::{state_nets, touches};
use track_ways::{TrackRule, step_uncrowded};

/// What a search is given.
#[derive(Clone, Copy)]
pub(crate) struct Task<'a, B> {
    pub alloc: Global,
    pub kinds: &'a Kinds,
    pub pins: &'a Pins,
    /// Tracks are numbered below it.
    pub limit: u32,
    /// All columns that may come next in some state.
    pub candidates: &'a [Candidate],
    pub bound: &'a B,
    /// How often the start state touches each net.
    pub all: &'a [u32; NETS],
    /// The most gaps of a row.
    pub gaps: u32,
    /// The most lemmas.
    pub budget: u64,
}

/// The state after a next column.
#[derive(Drop)]
pub(crate) struct Ahead {
    pub state: Numbered,
    /// How many gaps are allowed after the column.
    pub left: u32,
}

/// The nets with a place before the state's last node line.
pub(crate) fn nets_before<B: RowBound>(task: &Task<B>, state: &State) -> [bool; NETS]
    requires state { IsState task.now.kinds.now state.now }
    requires all { AreTouches task.now.kinds.now (start_of task.now.kinds.now) task.now.all.now }
    ensures { marked result ≡ is_behind task.now.kinds.now state.now }
{
    let here = touches(task.kinds, state);
    let nets = state_nets(task.all, &here);
    nets.before
}

// How many gaps are allowed after the column, or none where it may not come next, needs more gaps than are allowed, or
// leads to a state of which it is known that these are too few, or that a kept lemma without tracks is about.
fn gaps_after<R: TrackRule, B: RowBound>(
    task: &Task<B>,
    progress: &Progress,
    at: &Numbered,
    next: &Candidate,
    allowed: u32,
) -> Option<u32>
    requires numbered { IsNumbered task.now.kinds.now at.now }
    requires next { IsCandidate task.now.kinds.now next.now }
    requires noted { IsNoted (B.value task.now.bound.now) task.now.pins.now task.now.limit task.now.kinds.now
        progress.now }
    ensures none { IfNone result (ColumnFails R.ways (B.value task.now.bound.now) task.now.pins.now task.now.limit
        task.now.kinds.now progress.now.lemmas at.now.state allowed next.now.step) }
    ensures possible { IfSome result (λ _. IsPossible task.now.kinds.now at.now.state next.now.step) }
    ensures left { IfSome result (λ left. cost_of at.now.state (column_of task.now.kinds.now next.now.step) + left
        ≡ allowed) }
{
    task.kinds.show_limits();
    if !at.allows(task.kinds, next) {
        return None;
    }
    let cost = at.cost(next);
    if allowed < cost {
        return None;
    }
    let left = allowed - cost;
    if progress.is_shut(task, at.code_behind(task.kinds, next), left) {
        return None;
    }
    Some(left)
}

// Whether no line to the column is crowded. `after` is the state after it.
fn is_uncrowded<R: TrackRule, B: RowBound>(
    task: &Task<B>,
    state: &State,
    before: &[bool; NETS],
    step: &Step,
    after: &State,
) -> Result<bool, NoMemory>
    requires state { IsState task.now.kinds.now state.now }
    requires before { marked before.now ≡ is_behind task.now.kinds.now state.now }
    requires valid { IsState task.now.kinds.now after.now }
    requires after { after.now ≡ state_after task.now.kinds.now state.now step.now }
    ensures is { IfOk result (λ free. free ≡ step_uncrowded task.now.pins.now task.now.limit task.now.kinds.now
        state.now step.now) }
    ensures crowded { IfOk result (λ free. free ≡ false → (tracks : List NetTrack)
        → goes_ways_by R.ways task.now.pins.now task.now.limit task.now.kinds.now state.now tracks step.now ≡ []) }
{
    task.kinds.show_limits();
    let nets = nets_after(task.kinds, after);
    let free = step_uncrowded(
        task.alloc, task.pins, task.limit, task.kinds, state, before, step, &nets,
    )?;
    Ok(free)
}

/// The state after the column, or none where the column may not come next, needs more gaps than are allowed, leaves a
/// line crowded, or leads to a state that a kept lemma without tracks is about. `before` has the nets with a place
/// before the state.
pub(crate) fn state_ahead<R: TrackRule, B: RowBound>(
    task: &Task<B>,
    progress: &mut Progress,
    trails: &mut RowTrails,
    at: &Numbered,
    before: &[bool; NETS],
    next: &Candidate,
    allowed: u32,
) -> Result<Option<Ahead>, NoMemory>
    requires numbered { IsNumbered task.now.kinds.now at.now }
    requires before { marked before.now ≡ is_behind task.now.kinds.now at.now.state }
    requires next { IsCandidate task.now.kinds.now next.now }
    requires kept { IsKept R.fits (B.value task.now.bound.now) task.now.pins.now task.now.limit task.now.kinds.now
        task.now.gaps task.now.budget progress.old }
    requires trails { AreNoted (B.trails_of task.now.bound.now) task.now.kinds.now trails.old }
    ensures trails { AreNoted (B.trails_of task.now.bound.now) task.now.kinds.now trails.new }
    ensures kept { OnOk result (IsKept R.fits (B.value task.now.bound.now) task.now.pins.now task.now.limit
        task.now.kinds.now task.now.gaps task.now.budget progress.new) }
    ensures lemmas { progress.new.lemmas ≡ progress.old.lemmas }
    ensures none { IfOk result (λ ahead. IfNone ahead (ColumnFails R.ways (B.value task.now.bound.now) task.now.pins.now
        task.now.limit task.now.kinds.now progress.new.lemmas at.now.state allowed next.now.step)) }
    ensures some { IfOk result (λ ahead. IfSome ahead (IsAhead task.now.pins.now task.now.limit task.now.kinds.now
        at.now.state allowed next.now.step)) }
{
    task.kinds.show_limits();
    let Some(left) = gaps_after::<R, B>(task, progress, at, next, allowed) else {
        return Ok(None);
    };
    let state = at.behind(task.alloc, task.kinds, next)?;
    if progress.needs_more(task, trails, &state, left)? {
        return Ok(None);
    }
    if !is_uncrowded::<R, B>(task, &at.state, before, &next.step, &state.state)? {
        return Ok(None);
    }
    Ok(Some(Ahead { state, left }))
}
