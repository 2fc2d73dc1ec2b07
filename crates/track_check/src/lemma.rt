// Whether a lemma is justified by those before it.
ghost use Rattle.std.specs.Prelude.{◌≡◌, ◌↔◌, [], All, IfOk, IsTrue};
ghost use Rattle.row_state.specs.Candidates.{AreCandidates, IsNumbered};
ghost use Rattle.row_state.specs.Start.{HasFingers, IsState, start_of};
ghost use Rattle.track_ways.specs.States.{is_behind};
ghost use Rattle.track_ways.specs.Tables.{marked};
ghost use Rattle.track_ways.specs.Ways.{ends_ways_by};
ghost use Rattle.track_ways.specs.Certificate.{IsJustifiedBy, IsValid};
ghost use Rattle.track_ways.specs.Checked.{BranchesListedBy, IsJustifiedListedBy};
ghost use Rattle.track_check.specs.Noted.{AreNoted};
ghost use Rattle.track_check.specs.Touches.{AreTouches};

use crate::steps::steps_fail;
use crate::valid::is_valid;
use crate::{NotedLemmas, state_nets, touches};
use all_ways::{Splitting, none_at_end};
use cell_num::{NoMemory, Pins};
use row_needs::GapBound;
use row_state::{Candidates, Kinds, Numbered, has_fingers, is_state};
use row_trails::NETS;
use std::alloc::Global;
use track_ways::{TrackLemma, end_uncrowded};

/// What lemmas on tracks may rest on beside earlier ones: the cell, the number of tracks, all columns that may ever
/// come next, a bound on gaps, and how often the start state touches each net.
#[derive(Clone, Copy)]
pub struct TrackGrounds<'a, B> {
    pub kinds: &'a Kinds,
    pub pins: &'a Pins,
    /// Tracks are numbered below it.
    pub limit: u32,
    pub candidates: &'a Candidates,
    pub bound: &'a B,
    pub all: &'a [u32; NETS],
}

// Whether a finger is left, or no tracks go through the last line. None go through a crowded one.
fn end_fails<R: Splitting, B: GapBound>(
    alloc: Global,
    grounds: &TrackGrounds<B>,
    lemma: &TrackLemma,
    before: &[bool; NETS],
) -> Result<bool, NoMemory>
    requires valid { IsState grounds.now.kinds.now lemma.now.state }
    requires before { marked before.now ≡ is_behind grounds.now.kinds.now lemma.now.state }
    ensures { IfOk result (λ fails. IsTrue fails ↔ ((HasFingers grounds.now.kinds.now lemma.now.state → ⊥)
        → ends_ways_by R.ways grounds.now.pins.now grounds.now.limit grounds.now.kinds.now lemma.now.state
        lemma.now.tracks ≡ [])) }
{
    grounds.kinds.show_limits();
    let (pins, limit, kinds, state) = (grounds.pins, grounds.limit, grounds.kinds, &lemma.state);
    if has_fingers(state) {
        return Ok(true);
    }
    if !end_uncrowded(alloc, pins, limit, kinds, state, before)? {
        return Ok(true);
    }
    let none = none_at_end::<R>(alloc, pins, limit, kinds, state, before, &lemma.tracks)?;
    Ok(none)
}

// Whether each next column leaves the lemma justified, and the end of a row does.
fn branches<R: Splitting, B: GapBound>(
    alloc: Global,
    grounds: &TrackGrounds<B>,
    earlier: &NotedLemmas,
    lemma: &TrackLemma,
    from: &Numbered,
    before: &[bool; NETS],
) -> Result<bool, NoMemory>
    requires candidates { AreCandidates grounds.now.kinds.now grounds.now.candidates.now }
    requires numbered { IsNumbered grounds.now.kinds.now from.now }
    requires state { from.now.state ≡ lemma.now.state }
    requires before { marked before.now ≡ is_behind grounds.now.kinds.now lemma.now.state }
    requires noted { AreNoted grounds.now.kinds.now earlier.now.lemmas.now earlier.now.places.now }
    ensures { IfOk result (λ fail. IsTrue fail ↔ BranchesListedBy R.ways (B.value grounds.now.bound.now)
        grounds.now.pins.now grounds.now.limit grounds.now.kinds.now earlier.now.lemmas.now lemma.now) }
{
    if !end_fails::<R, B>(alloc, grounds, lemma, before)? {
        return Ok(false);
    }
    let fail = steps_fail::<R, B>(alloc, grounds, earlier, lemma, from, before)?;
    Ok(fail)
}

// Whether the lemma of a valid state is justified.
fn is_justified_at<R: Splitting, B: GapBound>(
    alloc: Global,
    grounds: &TrackGrounds<B>,
    earlier: &NotedLemmas,
    lemma: &TrackLemma,
) -> Result<bool, NoMemory>
    requires candidates { AreCandidates grounds.now.kinds.now grounds.now.candidates.now }
    requires all { AreTouches grounds.now.kinds.now (start_of grounds.now.kinds.now) grounds.now.all.now }
    requires valid { IsState grounds.now.kinds.now lemma.now.state }
    requires noted { AreNoted grounds.now.kinds.now earlier.now.lemmas.now earlier.now.places.now }
    ensures { IfOk result (λ yes. IsTrue yes ↔ IsJustifiedListedBy R.ways (B.value grounds.now.bound.now)
        grounds.now.pins.now grounds.now.limit grounds.now.kinds.now earlier.now.lemmas.now lemma.now) }
{
    let kinds = grounds.kinds;
    let here = touches(kinds, &lemma.state);
    if !is_valid(grounds.pins, kinds, grounds.all, &here, lemma) {
        return Ok(false);
    }
    let state = lemma.state.copied()?;
    let from = Numbered::new(state, kinds);
    if grounds.bound.needs_more(kinds, &from, lemma.gaps) {
        return Ok(true);
    }
    let nets = state_nets(grounds.all, &here);
    let fail = branches::<R, B>(alloc, grounds, earlier, lemma, &from, &nets.before)?;
    Ok(fail)
}

/// Whether the lemma is justified by the earlier ones, by the rule.
pub fn is_justified<R: Splitting, B: GapBound>(
    alloc: Global,
    grounds: &TrackGrounds<B>,
    earlier: &NotedLemmas,
    lemma: &TrackLemma,
) -> Result<bool, NoMemory>
    requires candidates { AreCandidates grounds.now.kinds.now grounds.now.candidates.now }
    requires all { AreTouches grounds.now.kinds.now (start_of grounds.now.kinds.now) grounds.now.all.now }
    requires noted { AreNoted grounds.now.kinds.now earlier.now.lemmas.now earlier.now.places.now }
    ensures listed { IfOk result (λ yes. IsTrue yes ↔ IsJustifiedListedBy R.ways (B.value grounds.now.bound.now)
        grounds.now.pins.now grounds.now.limit grounds.now.kinds.now earlier.now.lemmas.now lemma.now) }
    ensures justified { IfOk result (λ yes.
        All (IsValid grounds.now.pins.now grounds.now.kinds.now) earlier.now.lemmas.now →
        (IsTrue yes ↔ IsJustifiedBy R.fits (B.value grounds.now.bound.now) grounds.now.pins.now grounds.now.limit
        grounds.now.kinds.now earlier.now.lemmas.now lemma.now)) }
{
    grounds.kinds.show_limits();
    if !is_state(&lemma.state, grounds.kinds) {
        return Ok(false);
    }
    let justified = is_justified_at::<R, B>(alloc, grounds, earlier, lemma)?;
    Ok(justified)
}
