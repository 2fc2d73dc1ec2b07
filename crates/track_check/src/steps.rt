// Whether next columns leave a lemma justified.
ghost use Rattle.std.specs.Prelude.{◌≡◌, ◌↔◌, IfOk, IsTrue, ℕ};
ghost use Rattle.row_state.specs.declared.step.Step.{Step as StepOf};
ghost use Rattle.row_state.specs.Candidates.{AreCandidates, IsCandidate, IsNumbered};
ghost use Rattle.row_state.specs.Steps.{IsPossible};
ghost use Rattle.track_ways.specs.States.{is_behind};
ghost use Rattle.track_ways.specs.Tables.{marked};
ghost use Rattle.track_check.specs.Noted.{AreNoted};
ghost use Rattle.track_check.specs.Steps.{StepFailsListedBy, WaysFailBy};

use crate::covered::Covered;
use crate::{NotedLemmas, TrackGrounds, nets_ahead, touches};
use all_ways::{Splitting, all_after};
use cell_num::NoMemory;
use row_cycles::left_after;
use row_needs::GapBound;
use row_state::{Candidate, Numbered};
use row_trails::NETS;
use std::alloc::Global;
use track_ways::{TrackLemma, step_uncrowded};

// Whether all tracks after the column are refuted, with that many gaps left. They are where a lemma is about the state
// and of any tracks, and where a line to the column is crowded. Else each is asked for in turn.
fn ways_fail<R: Splitting, B: GapBound>(
    alloc: Global,
    grounds: &TrackGrounds<B>,
    earlier: &NotedLemmas,
    lemma: &TrackLemma,
    from: &Numbered,
    before: &[bool; NETS],
    next: &Candidate,
    left: u32,
) -> Result<bool, NoMemory>
    requires numbered { IsNumbered grounds.now.kinds.now from.now }
    requires state { from.now.state ≡ lemma.now.state }
    requires before { marked before.now ≡ is_behind grounds.now.kinds.now lemma.now.state }
    requires next { IsCandidate grounds.now.kinds.now next.now }
    requires step { IsPossible grounds.now.kinds.now lemma.now.state next.now.step }
    requires noted { AreNoted grounds.now.kinds.now earlier.now.lemmas.now earlier.now.places.now }
    ensures { IfOk result (λ fail. IsTrue fail ↔ WaysFailBy R.ways (B.value grounds.now.bound.now)
        grounds.now.pins.now grounds.now.limit grounds.now.kinds.now earlier.now.lemmas.now lemma.now next.now.step
        left) }
{
    let kinds = grounds.kinds;
    kinds.show_limits();
    let after = from.behind(alloc, kinds, next)?;
    if grounds.bound.needs_more(kinds, &after, left) {
        return Ok(true);
    }
    if earlier.covers(&after, left, &[]) {
        return Ok(true);
    }
    let here = touches(kinds, &after.state);
    let ahead = nets_ahead(&here);
    let (pins, limit, state) = (grounds.pins, grounds.limit, &lemma.state);
    if !step_uncrowded(alloc, pins, limit, kinds, state, before, &next.step, &ahead)? {
        return Ok(true);
    }
    let test = Covered {
        earlier: *earlier,
        at: &after,
        gaps: left,
    };
    let all = all_after::<R, Covered>(
        alloc,
        pins,
        limit,
        kinds,
        state,
        before,
        &next.step,
        &ahead,
        &lemma.tracks,
        &test,
    )?;
    Ok(all)
}

// Whether the column leaves the lemma justified.
fn step_fails<R: Splitting, B: GapBound>(
    alloc: Global,
    grounds: &TrackGrounds<B>,
    earlier: &NotedLemmas,
    lemma: &TrackLemma,
    from: &Numbered,
    before: &[bool; NETS],
    next: &Candidate,
) -> Result<bool, NoMemory>
    requires numbered { IsNumbered grounds.now.kinds.now from.now }
    requires state { from.now.state ≡ lemma.now.state }
    requires before { marked before.now ≡ is_behind grounds.now.kinds.now lemma.now.state }
    requires next { IsCandidate grounds.now.kinds.now next.now }
    requires noted { AreNoted grounds.now.kinds.now earlier.now.lemmas.now earlier.now.places.now }
    ensures { IfOk result (λ fails. IsTrue fails ↔ StepFailsListedBy R.ways (B.value grounds.now.bound.now)
        grounds.now.pins.now grounds.now.limit grounds.now.kinds.now earlier.now.lemmas.now lemma.now next.now.step) }
{
    let Some(left) = left_after(from, grounds.kinds, next, lemma.gaps) else {
        return Ok(true);
    };
    let fail = ways_fail::<R, B>(alloc, grounds, earlier, lemma, from, before, next, left)?;
    Ok(fail)
}

// Whether each next column leaves the lemma justified.
#[tactic(auto, using(row_cycles::proofs::Left::candidate_is))]
pub(crate) fn steps_fail<R: Splitting, B: GapBound>(
    alloc: Global,
    grounds: &TrackGrounds<B>,
    earlier: &NotedLemmas,
    lemma: &TrackLemma,
    from: &Numbered,
    before: &[bool; NETS],
) -> Result<bool, NoMemory>
    requires candidates { AreCandidates grounds.now.kinds.now grounds.now.candidates.now }
    requires numbered { IsNumbered grounds.now.kinds.now from.now }
    requires state { from.now.state ≡ lemma.now.state }
    requires before { marked before.now ≡ is_behind grounds.now.kinds.now lemma.now.state }
    requires noted { AreNoted grounds.now.kinds.now earlier.now.lemmas.now earlier.now.places.now }
    ensures { IfOk result (λ fail. IsTrue fail ↔ ((step : StepOf) → StepFailsListedBy R.ways
        (B.value grounds.now.bound.now) grounds.now.pins.now grounds.now.limit grounds.now.kinds.now
        earlier.now.lemmas.now lemma.now step)) }
{
    for next in grounds.candidates.as_slice() {
        if !step_fails::<R, B>(alloc, grounds, earlier, lemma, from, before, next)? {
            return Ok(false);
        }
    }
    Ok(true)
}
