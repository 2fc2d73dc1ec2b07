// Whether tracks go through the last line.
ghost use Rattle.std.specs.Prelude.{◌≡◌, ◌↔◌, [], All, Any, IfOk, IsTrue, false};
ghost use Rattle.row_state.specs.Start.{HasFingers, IsState};
ghost use Rattle.track_ways.specs.States.{is_behind};
ghost use Rattle.track_ways.specs.Tables.{marked};
ghost use Rattle.track_search.specs.Visit.{EndsFail, EndsGo};

use crate::ahead::Task;
use cell_num::NoMemory;
use row_state::{RowBound, State, has_fingers};
use row_trails::NETS;
use track_ways::{NetTracks, TrackRule, TrackWays, ways_at_end};

#[tactic(auto, using(track_check::proofs::Failing::no_ways))]
fn is_empty(ways: &TrackWays) -> bool
    ensures { IsTrue result ↔ (ways.now ≡ []) }
{
    ways.len() == 0
}

// Whether no tracks go through the last line from the way.
fn way_fails<R: TrackRule, B: RowBound>(
    task: &Task<B>,
    state: &State,
    before: &[bool; NETS],
    way: &NetTracks,
) -> Result<bool, NoMemory>
    requires state { IsState task.now.kinds.now state.now }
    requires before { marked before.now ≡ is_behind task.now.kinds.now state.now }
    ensures { IfOk result (λ fails. IsTrue fails ↔ EndsFail R.ways task.now.pins.now task.now.limit task.now.kinds.now
        state.now way.now) }
{
    let last = ways_at_end::<R>(
        task.alloc, task.pins, task.limit, task.kinds, state, before, way,
    )?;
    Ok(is_empty(&last))
}

// Whether tracks go through the last line from one of the ways.
fn some_way_ends<R: TrackRule, B: RowBound>(
    task: &Task<B>,
    state: &State,
    before: &[bool; NETS],
    ways: &[NetTracks],
) -> Result<bool, NoMemory>
    requires state { IsState task.now.kinds.now state.now }
    requires before { marked before.now ≡ is_behind task.now.kinds.now state.now }
    ensures yes { IfOk result (λ go. IsTrue go → Any (λ way. EndsFail R.ways task.now.pins.now task.now.limit
        task.now.kinds.now state.now way → ⊥) ways.now) }
    ensures no { IfOk result (λ go. go ≡ false → All (EndsFail R.ways task.now.pins.now task.now.limit
        task.now.kinds.now state.now) ways.now) }
{
    for way in ways {
        if !way_fails::<R, B>(task, state, before, way)? {
            return Ok(true);
        }
    }
    Ok(false)
}

/// Whether no finger is left and tracks go through the last line from one of the ways. `before` has the nets with a
/// place before the state.
pub(crate) fn ends<R: TrackRule, B: RowBound>(
    task: &Task<B>,
    state: &State,
    before: &[bool; NETS],
    ways: &TrackWays,
) -> Result<bool, NoMemory>
    requires state { IsState task.now.kinds.now state.now }
    requires before { marked before.now ≡ is_behind task.now.kinds.now state.now }
    ensures yes { IfOk result (λ go. IsTrue go → EndsGo R.ways task.now.pins.now task.now.limit task.now.kinds.now
        state.now ways.now) }
    ensures no { IfOk result (λ go. go ≡ false → (HasFingers task.now.kinds.now state.now → ⊥)
        → All (EndsFail R.ways task.now.pins.now task.now.limit task.now.kinds.now state.now) ways.now) }
{
    if has_fingers(state) {
        return Ok(false);
    }
    let go = some_way_ends::<R, B>(task, state, before, ways.as_slice())?;
    Ok(go)
}
