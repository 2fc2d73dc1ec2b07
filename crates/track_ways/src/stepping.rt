// The tracks after a next column of a state, and after its last line.
ghost use Rattle.std.specs.Prelude.{◌≡◌, ℕ, All, Any, IfOk};
ghost use Rattle.cell_num.specs.declared.net.NetNo.{NetNo as NetOf};
ghost use Rattle.row_state.specs.Start.{IsState};
ghost use Rattle.row_state.specs.Steps.{state_after};
ghost use Rattle.track_ways.specs.Paths.{Goes, GoesBy};
ghost use Rattle.track_ways.specs.States.{is_behind, is_still_ahead};
ghost use Rattle.track_ways.specs.Tables.{marked};
ghost use Rattle.track_ways.specs.Tracks.{AreTracksOf, IsSingle};
ghost use Rattle.track_ways.specs.Ways.{ends_ways, ends_ways_by, goes_ways, goes_ways_by};

use crate::lines::{last_line, lines_to, no_nets};
use crate::passing::ways_through;
use crate::rule::{Straight, TrackRule};
use crate::{NetTracks, TrackWays};
use cell_num::{NoMemory, Pins};
use row_state::{Kinds, State, Step, column};
use row_trails::NETS;
use std::alloc::Global;

/// All tracks after a next column that go on from these by the rule, below the limit. `before` has the nets with a
/// place before the state's last node line, `behind` those with a place at the last node line after the column or
/// later.
pub fn ways_after<R: TrackRule>(
    alloc: Global,
    pins: &Pins,
    limit: u32,
    kinds: &Kinds,
    state: &State,
    before: &[bool; NETS],
    step: &Step,
    behind: &[bool; NETS],
    tracks: &NetTracks,
) -> Result<TrackWays, NoMemory>
    requires state { IsState kinds.now state.now }
    requires before { marked before.now ≡ is_behind kinds.now state.now }
    requires behind { marked behind.now ≡ is_still_ahead kinds.now (state_after kinds.now state.now step.now) }
    ensures ways { IfOk result (λ ways. ways
        ≡ goes_ways_by R.ways pins.now limit kinds.now state.now tracks.now step.now) }
    ensures all { IfOk result (λ ways. (track next : NetOf → ℕ)
        → AreTracksOf tracks.now track → GoesBy R.fits pins.now limit kinds.now state.now track step.now next
        → Any (λ way. AreTracksOf way next) ways) }
    ensures only { IfOk result (λ ways. IsSingle tracks.now → All (λ way. (track : NetOf → ℕ) × (next : NetOf → ℕ)
        × AreTracksOf tracks.now track × GoesBy R.fits pins.now limit kinds.now state.now track step.now next
        × AreTracksOf way next) ways) }
{
    kinds.show_limits();
    let lines = lines_to(alloc, state, &column(step, kinds))?;
    let ways = ways_through::<R>(
        alloc,
        pins,
        limit,
        kinds.nets,
        before,
        &lines,
        behind,
        tracks.as_slice(),
    )?;
    Ok(ways)
}

/// All tracks through the last line that go on from these by the rule, below the limit; each is empty. `before` has the
/// nets with a place before the state's last node line.
pub fn ways_at_end<R: TrackRule>(
    alloc: Global,
    pins: &Pins,
    limit: u32,
    kinds: &Kinds,
    state: &State,
    before: &[bool; NETS],
    tracks: &NetTracks,
) -> Result<TrackWays, NoMemory>
    requires state { IsState kinds.now state.now }
    requires before { marked before.now ≡ is_behind kinds.now state.now }
    ensures { IfOk result (λ ways. ways ≡ ends_ways_by R.ways pins.now limit kinds.now state.now tracks.now) }
{
    kinds.show_limits();
    let lines = last_line(alloc, state)?;
    let none = no_nets();
    let ways = ways_through::<R>(
        alloc,
        pins,
        limit,
        kinds.nets,
        before,
        &lines,
        &none,
        tracks.as_slice(),
    )?;
    Ok(ways)
}

/// All tracks after a next column that go on from these, below the limit. `before` has the nets with a place before
/// the state's last node line, `behind` those with a place at the last node line after the column or later.
pub fn step_ways(
    alloc: Global,
    pins: &Pins,
    limit: u32,
    kinds: &Kinds,
    state: &State,
    before: &[bool; NETS],
    step: &Step,
    behind: &[bool; NETS],
    tracks: &NetTracks,
) -> Result<TrackWays, NoMemory>
    requires state { IsState kinds.now state.now }
    requires before { marked before.now ≡ is_behind kinds.now state.now }
    requires behind { marked behind.now ≡ is_still_ahead kinds.now (state_after kinds.now state.now step.now) }
    ensures ways { IfOk result (λ ways. ways ≡ goes_ways pins.now limit kinds.now state.now tracks.now step.now) }
    ensures all { IfOk result (λ ways. (track next : NetOf → ℕ)
        → AreTracksOf tracks.now track → Goes pins.now limit kinds.now state.now track step.now next
        → Any (λ way. AreTracksOf way next) ways) }
    ensures only { IfOk result (λ ways. IsSingle tracks.now → All (λ way. (track : NetOf → ℕ) × (next : NetOf → ℕ)
        × AreTracksOf tracks.now track × Goes pins.now limit kinds.now state.now track step.now next
        × AreTracksOf way next) ways) }
{
    ways_after::<Straight>(
        alloc, pins, limit, kinds, state, before, step, behind, tracks,
    )
}

/// All tracks through the last line that go on from these, below the limit; each is empty. `before` has the nets with a
/// place before the state's last node line.
pub fn last_ways(
    alloc: Global,
    pins: &Pins,
    limit: u32,
    kinds: &Kinds,
    state: &State,
    before: &[bool; NETS],
    tracks: &NetTracks,
) -> Result<TrackWays, NoMemory>
    requires state { IsState kinds.now state.now }
    requires before { marked before.now ≡ is_behind kinds.now state.now }
    ensures { IfOk result (λ ways. ways ≡ ends_ways pins.now limit kinds.now state.now tracks.now) }
{
    ways_at_end::<Straight>(alloc, pins, limit, kinds, state, before, tracks)
}
