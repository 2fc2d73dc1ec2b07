// The ways of tracks after a next column.
ghost use Rattle.std.specs.Prelude.{◌≡◌, ◌↔◌, All, Any, IfOk, IsTrue, OnOk, false};
ghost use Rattle.row_state.specs.Start.{IsState};
ghost use Rattle.row_state.specs.Steps.{state_after};
ghost use Rattle.track_ways.specs.States.{is_behind};
ghost use Rattle.track_ways.specs.Tables.{marked};
ghost use Rattle.track_check.specs.Noted.{AreNotedAt};
ghost use Rattle.track_search.specs.Visit.{AreAdded, AreFresh, AreTaken, GoOn, HasPart};

use crate::ahead::{Ahead, Task};
use crate::marks::nets_after;
use crate::order::copied_way;
use cell_num::NoMemory;
use row_state::{Candidate, Numbered, RowBound, State};
use row_trails::NETS;
use std::alloc::Global;
use track_check::{NotedLemmas, lists};
use track_ways::{NetTracks, TrackRule, TrackWays, ways_after};

fn has_part(way: &NetTracks, other: &NetTracks) -> bool
    ensures { IsTrue result ↔ HasPart way.now other.now }
{
    lists(way.as_slice(), other.as_slice())
}

// Whether the way has all tracks of one of the others.
fn has_one(way: &NetTracks, others: &[NetTracks]) -> bool
    ensures yes { IsTrue result → Any (HasPart way.now) others.now }
    ensures no { result ≡ false → All (λ other. HasPart way.now other → ⊥) others.now }
{
    for other in others {
        if has_part(way, other) {
            return true;
        }
    }
    false
}

// Adds those of the found ways that are not there and that no lemma is about.
fn add_new(
    alloc: Global,
    known: &NotedLemmas,
    at: &Numbered,
    left: u32,
    found: &[NetTracks],
    ways: &mut TrackWays,
) -> Result<(), NoMemory>
    requires noted { AreNotedAt known.now.lemmas.now known.now.places.now at.now }
    requires fresh { AreFresh known.now.lemmas.now at.now.state left ways.old }
    ensures added { OnOk result (AreAdded known.now.lemmas.now at.now.state left found.now found.now ways.old
        ways.new) }
    ensures fresh { OnOk result (AreFresh known.now.lemmas.now at.now.state left ways.new) }
{
    for way in found {
        if known.covers(at, left, way.as_slice()) {
            continue;
        }
        if has_one(way, ways.as_slice()) {
            continue;
        }
        ways.push(copied_way(alloc, way)?)?;
    }
    Ok(())
}

/// The ways after the column, by the rule, of which no lemma speaks, each once. `before` has the nets with a place
/// before the state.
pub(crate) fn onward_ways<R: TrackRule, B: RowBound>(
    task: &Task<B>,
    known: &NotedLemmas,
    state: &State,
    before: &[bool; NETS],
    next: &Candidate,
    ahead: &Ahead,
    ways: &TrackWays,
) -> Result<TrackWays, NoMemory>
    requires state { IsState task.now.kinds.now state.now }
    requires before { marked before.now ≡ is_behind task.now.kinds.now state.now }
    requires valid { IsState task.now.kinds.now ahead.now.state.state }
    requires after { ahead.now.state.state ≡ state_after task.now.kinds.now state.now next.now.step }
    requires noted { AreNotedAt known.now.lemmas.now known.now.places.now ahead.now.state }
    ensures taken { IfOk result (λ onward. All (AreTaken R.ways task.now.pins.now task.now.limit task.now.kinds.now
        known.now.lemmas.now state.now next.now.step ahead.now.state.state ahead.now.left onward) ways.now) }
    ensures from { IfOk result (λ onward. All (GoOn R.ways task.now.pins.now task.now.limit task.now.kinds.now state.now
        next.now.step ways.now) onward) }
    ensures fresh { IfOk result (AreFresh known.now.lemmas.now ahead.now.state.state ahead.now.left) }
{
    let nets = nets_after(task.kinds, &ahead.state.state);
    let mut onward = TrackWays::new(task.alloc);
    for way in ways.as_slice() {
        let found = ways_after::<R>(
            task.alloc, task.pins, task.limit, task.kinds, state, before, &next.step, &nets, way,
        )?;
        add_new(
            task.alloc,
            known,
            &ahead.state,
            ahead.left,
            found.as_slice(),
            &mut onward,
        )?;
    }
    Ok(onward)
}
