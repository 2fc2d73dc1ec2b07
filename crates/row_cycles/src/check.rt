// Whether lemmas certify that no row can be wired.
ghost use Rattle.std.specs.Prelude.{◌≡◌, ◌≢◌, ◌+◌, ◌≤◌, ◌<◌, ◌↔◌, All, IfErr, IfOk, IfNone, IfSome, IsTrue, OnOk};
ghost use Rattle.std.specs.Prelude.{length, slice_index_or, take, List as Sequence};
ghost use Rattle.cell_num.specs.declared.finger.Fingers.{Fingers};
ghost use Rattle.row_model.specs.declared.column.Column.{Column};
ghost use Rattle.row_model.specs.Arrangement.{IsArrangement};
ghost use Rattle.row_model.specs.Gaps.{gaps_of};
ghost use Rattle.row_place.specs.Places.{placement_of};
ghost use Rattle.channel_route.specs.declared.routing.Routing.{Routing};
ghost use Rattle.channel_route.specs.Routing.{IsLegal};
ghost use Rattle.row_state.specs.Candidates.{AreCandidates};
ghost use Rattle.row_state.specs.Start.{AreKinds, IsState};
ghost use Rattle.row_cycles.specs.declared.lemma.CycleLemma.{CycleLemma as LemmaOf};
ghost use Rattle.row_cycles.specs.declared.refused.CyclesRefused.TheVariants as because;
ghost use Rattle.row_cycles.specs.Certificate.{AreJustified, Certifies, IsJustified};
ghost use Rattle.row_cycles.specs.Noted.{AreNoted};
ghost use Rattle.row_cycles.specs.Refusal.{IsFirstUnjustified, Refuses};
ghost use Rattle.row_cycles.specs.Unwired.{IsTrueOf};

use crate::{
    CycleGrounds, CycleLemma, CycleLemmas, CyclesRefused, NotedCycles, Places, cycles_by_lemmas,
    is_justified,
};
use cell_num::{NoMemory, Pins};
use row_needs::GapBound;
use row_state::{Kinds, Numbered, candidates, code, start};
use std::alloc::Global;

// Whether the lemma at the place is justified by those before it.
fn is_justified_at<B: GapBound>(
    alloc: Global,
    grounds: &CycleGrounds<B>,
    lemmas: &[CycleLemma],
    places: &Places,
    at: usize,
) -> Result<bool, NoMemory>
    requires candidates { AreCandidates grounds.now.kinds.now grounds.now.candidates.now }
    requires within { at < length lemmas.now }
    requires noted { AreNoted grounds.now.kinds.now (take at lemmas.now) places.now }
    ensures { IfOk result (λ justified. (d : LemmaOf) →
        (IsTrue justified ↔ IsJustified (B.value grounds.now.bound.now) grounds.now.pins.now grounds.now.kinds.now
        (take at lemmas.now) (slice_index_or lemmas.now at d))) }
{
    let earlier = NotedCycles {
        lemmas: &lemmas[..at],
        places,
    };
    let justified = is_justified(alloc, grounds, &earlier, &lemmas[at])?;
    Ok(justified)
}

/// Notes the lemma at the place after those before it.
pub fn note_lemma(
    alloc: Global,
    kinds: &Kinds,
    lemmas: &[CycleLemma],
    places: &mut Places,
    at: usize,
) -> Result<(), NoMemory>
    requires within { at < length lemmas.now }
    requires state { (d : LemmaOf) → IsState kinds.now (slice_index_or lemmas.now at d).state }
    requires noted { AreNoted kinds.now (take at lemmas.now) places.old }
    ensures { OnOk result (AreNoted kinds.now (take (at + 1) lemmas.now) places.new) }
{
    let number = code(&lemmas[at].state, kinds);
    places.add(alloc, number, at)?;
    Ok(())
}

/// The place of the first lemma that is not justified by those before it. Where there is none, all lemmas are noted.
pub fn first_unjustified<B: GapBound>(
    alloc: Global,
    grounds: &CycleGrounds<B>,
    lemmas: &[CycleLemma],
    places: &mut Places,
) -> Result<Option<usize>, NoMemory>
    requires candidates { AreCandidates grounds.now.kinds.now grounds.now.candidates.now }
    ensures none { IfOk result (λ first. IfNone first (AreJustified (B.value grounds.now.bound.now) grounds.now.pins.now
        grounds.now.kinds.now lemmas.now)) }
    ensures first { IfOk result (λ first. IfSome first (IsFirstUnjustified (B.value grounds.now.bound.now)
        grounds.now.pins.now grounds.now.kinds.now lemmas.now)) }
    ensures noted { IfOk result (λ first. IfNone first (AreNoted grounds.now.kinds.now lemmas.now places.new)) }
{
    for at in 0..lemmas.len() {
        if !is_justified_at(alloc, grounds, lemmas, places, at)? {
            return Ok(Some(at));
        }
        note_lemma(alloc, grounds.kinds, lemmas, places, at)?;
    }
    Ok(None)
}

/// Checks a certificate that no row of the kinds' fingers with at most N gaps can be wired: each lemma is justified by
/// those before it, and one is on the start state and the gaps and asks for nothing. Else the first cause to refuse
/// it.
pub fn check_cycles<B: GapBound>(
    alloc: Global,
    bound: &B,
    pins: &Pins,
    kinds: &Kinds,
    gaps: u32,
    lemmas: &CycleLemmas,
) -> Result<(), CyclesRefused>
    ensures certified { IfOk result (λ _. Certifies (B.value bound.now) pins.now kinds.now gaps lemmas.now) }
    ensures refused { IfErr result (λ fault. fault ≢ because.NoMemory →
        Refuses (B.value bound.now) pins.now kinds.now gaps lemmas.now fault) }
    // an accepted certificate is true: no row has a legal routing
    ensures unwired { IfOk result (λ _. (f : Fingers) (row : Sequence Column) (r : Routing) → AreKinds f kinds.now
        → IsArrangement row f → gaps_of row ≤ gaps → IsLegal (placement_of row) pins.now r → ⊥) }
    // and so is each lemma
    ensures lemmas { IfOk result (λ _. All (IsTrueOf pins.now kinds.now) lemmas.now) }
{
    kinds.show_limits();
    cycles_by_lemmas(bound);
    let first = start(alloc, kinds)?;
    let candidates = candidates(alloc, kinds)?;
    let grounds = CycleGrounds {
        kinds,
        pins,
        candidates: &candidates,
        bound,
    };
    let lemmas = lemmas.as_slice();
    let mut places = Places::new(alloc);
    let unjustified = first_unjustified(alloc, &grounds, lemmas, &mut places)?;
    if let Some(at) = unjustified {
        return Err(CyclesRefused::Unjustified { at });
    }
    let noted = NotedCycles {
        lemmas,
        places: &places,
    };
    let from = Numbered::new(first, kinds);
    if !noted.covers(&from, gaps, &[]) {
        return Err(CyclesRefused::NoStart);
    }
    Ok(())
}
