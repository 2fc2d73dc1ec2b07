// Whether lemmas certify that each row needs more tracks.
ghost use Rattle.std.specs.Prelude.{◌≡◌, ◌≢◌, ◌+◌, ◌≤◌, ◌<◌, ◌↔◌, ℕ, All, IfErr, IfOk, IfNone, IfSome, IsTrue, OnOk};
ghost use Rattle.std.specs.Prelude.{length, slice_index_or, take, List as Sequence};
ghost use Rattle.cell_num.specs.declared.finger.Fingers.{Fingers};
ghost use Rattle.cell_num.specs.declared.net.NetNo.{NetNo};
ghost use Rattle.row_model.specs.declared.column.Column.{Column};
ghost use Rattle.row_model.specs.Arrangement.{IsArrangement};
ghost use Rattle.row_model.specs.Gaps.{gaps_of};
ghost use Rattle.row_place.specs.Places.{placement_of};
ghost use Rattle.channel_route.specs.declared.routing.Routing.{Routing};
ghost use Rattle.channel_route.specs.Routing.{IsLegal};
ghost use Rattle.row_state.specs.Candidates.{AreCandidates};
ghost use Rattle.row_state.specs.Start.{AreKinds, IsState, start_of};
ghost use Rattle.track_ways.specs.declared.lemma.TrackLemma.{TrackLemma as LemmaOf};
ghost use Rattle.track_ways.specs.Certificate.{AreJustifiedBy, Certifies, CertifiesBy, IsJustifiedBy, IsTrueBy};
ghost use Rattle.track_ways.specs.Certificate.{IsTrueOf, IsValid};
ghost use Rattle.track_ways.specs.Fails.{FailsBy};
ghost use Rattle.track_check.specs.declared.refused.TracksRefused.TheVariants as because;
ghost use Rattle.track_check.specs.Noted.{AreNoted};
ghost use Rattle.track_check.specs.Refusal.{IsFirstUnjustifiedBy, Refuses, RefusesBy};
ghost use Rattle.track_check.specs.Touches.{AreTouches};

use crate::{NotedLemmas, TrackGrounds, TracksRefused, is_justified, touches};
use all_ways::Splitting;
use cell_num::{NoMemory, Pins};
use row_cycles::Places;
use row_needs::GapBound;
use row_state::{Kinds, Numbered, candidates, code, start};
use std::alloc::Global;
use track_ways::{Straight, TrackLemma, TrackLemmas};

// Whether the lemma at the place is justified by those before it.
fn is_justified_at<R: Splitting, B: GapBound>(
    alloc: Global,
    grounds: &TrackGrounds<B>,
    lemmas: &[TrackLemma],
    places: &Places,
    at: usize,
) -> Result<bool, NoMemory>
    requires candidates { AreCandidates grounds.now.kinds.now grounds.now.candidates.now }
    requires all { AreTouches grounds.now.kinds.now (start_of grounds.now.kinds.now) grounds.now.all.now }
    requires within { at < length lemmas.now }
    requires noted { AreNoted grounds.now.kinds.now (take at lemmas.now) places.now }
    ensures { IfOk result (λ justified. (d : LemmaOf) →
        All (IsValid grounds.now.pins.now grounds.now.kinds.now) (take at lemmas.now) →
        (IsTrue justified ↔ IsJustifiedBy R.fits (B.value grounds.now.bound.now) grounds.now.pins.now grounds.now.limit
        grounds.now.kinds.now (take at lemmas.now) (slice_index_or lemmas.now at d))) }
{
    let earlier = NotedLemmas {
        lemmas: &lemmas[..at],
        places,
    };
    let justified = is_justified::<R, B>(alloc, grounds, &earlier, &lemmas[at])?;
    Ok(justified)
}

// Notes the lemma at the place after those before it.
fn note(
    alloc: Global,
    kinds: &Kinds,
    lemmas: &[TrackLemma],
    places: &mut Places,
    at: usize,
) -> Result<(), NoMemory>
    requires within { at < length lemmas.now }
    requires state { (d : LemmaOf) → IsState kinds.now (slice_index_or lemmas.now at d).state }
    requires noted { AreNoted kinds.now (take at lemmas.now) places.old }
    ensures { OnOk result (AreNoted kinds.now (take (at + 1) lemmas.now) places.new) }
{
    let number = code(&lemmas[at].state, kinds);
    places.add(alloc, number, at)?;
    Ok(())
}

// The place of the first lemma that is not justified by those before it. Where there is none, all lemmas are noted.
fn first_unjustified<R: Splitting, B: GapBound>(
    alloc: Global,
    grounds: &TrackGrounds<B>,
    lemmas: &[TrackLemma],
    places: &mut Places,
) -> Result<Option<usize>, NoMemory>
    requires candidates { AreCandidates grounds.now.kinds.now grounds.now.candidates.now }
    requires all { AreTouches grounds.now.kinds.now (start_of grounds.now.kinds.now) grounds.now.all.now }
    ensures none { IfOk result (λ first. IfNone first (AreJustifiedBy R.fits (B.value grounds.now.bound.now)
        grounds.now.pins.now grounds.now.limit grounds.now.kinds.now lemmas.now)) }
    ensures first { IfOk result (λ first. IfSome first (IsFirstUnjustifiedBy R.fits (B.value grounds.now.bound.now)
        grounds.now.pins.now grounds.now.limit grounds.now.kinds.now lemmas.now)) }
    ensures noted { IfOk result (λ first. IfNone first (AreNoted grounds.now.kinds.now lemmas.now places.new)) }
{
    for at in 0..lemmas.len() {
        if !is_justified_at::<R, B>(alloc, grounds, lemmas, places, at)? {
            return Ok(Some(at));
        }
        note(alloc, grounds.kinds, lemmas, places, at)?;
    }
    Ok(None)
}

/// Checks a certificate that no completion of the start state with at most N gaps has tracks below the limit, by the
/// rule: each lemma is justified by those before it, and one is about the start state, the gaps and any tracks. Else
/// the first cause to refuse it.
pub fn check_tracks_by<R: Splitting, B: GapBound>(
    alloc: Global,
    bound: &B,
    pins: &Pins,
    limit: u32,
    kinds: &Kinds,
    gaps: u32,
    lemmas: &TrackLemmas,
) -> Result<(), TracksRefused>
    ensures certified { IfOk result (λ _.
        CertifiesBy R.fits (B.value bound.now) pins.now limit kinds.now gaps lemmas.now) }
    ensures refused { IfErr result (λ fault. fault ≢ because.NoMemory →
        RefusesBy R.fits (B.value bound.now) pins.now limit kinds.now gaps lemmas.now fault) }
    // an accepted certificate is true: the start state fails, from any tracks
    ensures fails { IfOk result (λ _. (track : NetNo → ℕ) →
        FailsBy R.fits pins.now limit kinds.now (start_of kinds.now) track gaps) }
    // and so is each lemma
    ensures lemmas { IfOk result (λ _. All (IsTrueBy R.fits pins.now limit kinds.now) lemmas.now) }
{
    kinds.show_limits();
    bound.show_holds();
    let first = start(alloc, kinds)?;
    let candidates = candidates(alloc, kinds)?;
    let all = touches(kinds, &first);
    let grounds = TrackGrounds {
        kinds,
        pins,
        limit,
        candidates: &candidates,
        bound,
        all: &all,
    };
    let lemmas = lemmas.as_slice();
    let mut places = Places::new(alloc);
    let unjustified = first_unjustified::<R, B>(alloc, &grounds, lemmas, &mut places)?;
    if let Some(at) = unjustified {
        return Err(TracksRefused::Unjustified { at });
    }
    let noted = NotedLemmas {
        lemmas,
        places: &places,
    };
    let from = Numbered::new(first, kinds);
    if !noted.covers(&from, gaps, &[]) {
        return Err(TracksRefused::NoStart);
    }
    Ok(())
}

/// Checks a certificate that each row of the kinds' fingers with at most N gaps needs more tracks than the limit:
/// each lemma is justified by those before it, and one is about the start state, the gaps and any tracks. Else
/// the first cause to refuse it.
pub fn check_tracks<B: GapBound>(
    alloc: Global,
    bound: &B,
    pins: &Pins,
    limit: u32,
    kinds: &Kinds,
    gaps: u32,
    lemmas: &TrackLemmas,
) -> Result<(), TracksRefused>
    ensures certified { IfOk result (λ _. Certifies (B.value bound.now) pins.now limit kinds.now gaps lemmas.now) }
    ensures refused { IfErr result (λ fault. fault ≢ because.NoMemory →
        Refuses (B.value bound.now) pins.now limit kinds.now gaps lemmas.now fault) }
    // an accepted certificate is true: each legal routing has more tracks
    ensures more { IfOk result (λ _. (f : Fingers) (row : Sequence Column) (r : Routing) → AreKinds f kinds.now
        → IsArrangement row f → gaps_of row ≤ gaps → IsLegal (placement_of row) pins.now r → limit < r.tracks) }
    // and so is each lemma
    ensures lemmas { IfOk result (λ _. All (IsTrueOf pins.now limit kinds.now) lemmas.now) }
{
    kinds.show_limits();
    bound.show_holds();
    check_tracks_by::<Straight, B>(alloc, bound, pins, limit, kinds, gaps, lemmas)?;
    Ok(())
}
