// The tracks after a next column of a state, and after its last line.
ghost use Rattle.std.specs.Prelude.{◌≡◌, ℕ, All, Any, IfOk};
ghost use Rattle.cell_num.specs.declared.net.NetNo.{NetNo as NetOf};
ghost use Rattle.row_state.specs.Start.{IsState};
ghost use Rattle.row_state.specs.Steps.{state_after};
ghost use Rattle.track_ways.specs.States.{is_behind, is_still_ahead};
ghost use Rattle.track_ways.specs.Tables.{marked};
ghost use Rattle.track_ways.specs.Tracks.{AreTracksOf, IsSingle};
ghost use Rattle.piece_lines.specs.Paths.{PieceGoes};
ghost use Rattle.piece_ways.specs.PieceWays.{piece_ends_ways, piece_goes_ways};

use crate::rule::Turning;
use cell_num::{NoMemory, Pins};
use row_state::{Kinds, State, Step};
use row_trails::NETS;
use std::alloc::Global;
use track_ways::{NetTracks, TrackWays, ways_after, ways_at_end};

/// All tracks after a next column that go on from these where nets may turn, below the limit. `before` has the nets
/// with a place before the state's last node line, `after` those with a place at the last node line after the column or
/// later. Not called by the program.
pub fn piece_step_ways(
    alloc: Global,
    pins: &Pins,
    limit: u32,
    kinds: &Kinds,
    state: &State,
    before: &[bool; NETS],
    step: &Step,
    after: &[bool; NETS],
    tracks: &NetTracks,
) -> Result<TrackWays, NoMemory>
    requires state { IsState kinds.now state.now }
    requires before { marked before.now ≡ is_behind kinds.now state.now }
    requires after { marked after.now ≡ is_still_ahead kinds.now (state_after kinds.now state.now step.now) }
    ensures ways { IfOk result (λ ways. ways
        ≡ piece_goes_ways pins.now limit kinds.now state.now tracks.now step.now) }
    ensures all { IfOk result (λ ways. (track next : NetOf → ℕ)
        → AreTracksOf tracks.now track → PieceGoes pins.now limit kinds.now state.now track step.now next
        → Any (λ way. AreTracksOf way next) ways) }
    ensures only { IfOk result (λ ways. IsSingle tracks.now → All (λ way. (track : NetOf → ℕ) × (next : NetOf → ℕ)
        × AreTracksOf tracks.now track × PieceGoes pins.now limit kinds.now state.now track step.now next
        × AreTracksOf way next) ways) }
{
    ways_after::<Turning>(
        alloc, pins, limit, kinds, state, before, step, after, tracks,
    )
}

/// All tracks through the last line that go on from these where nets may turn, below the limit; each is empty. `before`
/// has the nets with a place before the state's last node line. Not called by the program.
pub fn piece_last_ways(
    alloc: Global,
    pins: &Pins,
    limit: u32,
    kinds: &Kinds,
    state: &State,
    before: &[bool; NETS],
    tracks: &NetTracks,
) -> Result<TrackWays, NoMemory>
    requires state { IsState kinds.now state.now }
    requires before { marked before.now ≡ is_behind kinds.now state.now }
    ensures { IfOk result (λ ways. ways ≡ piece_ends_ways pins.now limit kinds.now state.now tracks.now) }
{
    ways_at_end::<Turning>(alloc, pins, limit, kinds, state, before, tracks)
}
