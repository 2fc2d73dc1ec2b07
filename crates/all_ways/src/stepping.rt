// Whether all tracks after a next column of a state pass a test, and whether none go through its last line.
ghost use Rattle.std.specs.Prelude.{◌≡◌, ◌↔◌, [], All, IfOk, IsTrue};
ghost use Rattle.row_state.specs.Start.{IsState};
ghost use Rattle.row_state.specs.Steps.{state_after};
ghost use Rattle.track_ways.specs.States.{is_behind, is_still_ahead};
ghost use Rattle.track_ways.specs.Tables.{marked};
ghost use Rattle.track_ways.specs.Ways.{ends_ways_by, goes_ways_by};

use crate::{Splitting, WayTest, all_through};
use cell_num::{NoMemory, Pins};
use row_state::{Kinds, State, Step, column};
use row_trails::NETS;
use std::alloc::Global;
use track_ways::{NetTrack, NetTracks, last_line, lines_to, no_nets};

/// Whether all tracks after a next column that go on from these by the rule, below the limit, pass the test. `before`
/// has the nets with a place before the state's last node line, `behind` those with a place at the last node line after
/// the column or later.
pub fn all_after<R: Splitting, T: WayTest>(
    alloc: Global,
    pins: &Pins,
    limit: u32,
    kinds: &Kinds,
    state: &State,
    before: &[bool; NETS],
    step: &Step,
    behind: &[bool; NETS],
    tracks: &NetTracks,
    test: &T,
) -> Result<bool, NoMemory>
    requires ready { T.ready test.now }
    requires state { IsState kinds.now state.now }
    requires before { marked before.now ≡ is_behind kinds.now state.now }
    requires behind { marked behind.now ≡ is_still_ahead kinds.now (state_after kinds.now state.now step.now) }
    ensures { IfOk result (λ yes. IsTrue yes ↔ All (T.passes test.now)
        (goes_ways_by R.ways pins.now limit kinds.now state.now tracks.now step.now)) }
{
    kinds.show_limits();
    let lines = lines_to(alloc, state, &column(step, kinds))?;
    let all = all_through::<R, T>(
        alloc,
        pins,
        limit,
        kinds.nets,
        before,
        &lines,
        behind,
        tracks.as_slice(),
        test,
    )?;
    Ok(all)
}

// No tracks pass it.
struct NoWay;

impl WayTest for NoWay {
    ghost ready = { λ test. Unit {0} };

    ghost passes = { λ test way. ⊥ };

    fn is_passed(&self, _way: &[NetTrack]) -> bool {
        false
    }
}

/// Whether no tracks through the last line go on from these by the rule, below the limit. `before` has the nets with a
/// place before the state's last node line.
pub fn none_at_end<R: Splitting>(
    alloc: Global,
    pins: &Pins,
    limit: u32,
    kinds: &Kinds,
    state: &State,
    before: &[bool; NETS],
    tracks: &NetTracks,
) -> Result<bool, NoMemory>
    requires state { IsState kinds.now state.now }
    requires before { marked before.now ≡ is_behind kinds.now state.now }
    ensures { IfOk result (λ none. IsTrue none ↔
        (ends_ways_by R.ways pins.now limit kinds.now state.now tracks.now ≡ [])) }
{
    kinds.show_limits();
    let lines = last_line(alloc, state)?;
    let none = all_through::<R, NoWay>(
        alloc,
        pins,
        limit,
        kinds.nets,
        before,
        &lines,
        &no_nets(),
        tracks.as_slice(),
        &NoWay,
    )?;
    Ok(none)
}
