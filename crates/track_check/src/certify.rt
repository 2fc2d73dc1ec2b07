// Whether the lemmas of a certificate show what its lines of gaps and tracks say.
ghost use Rattle.std.specs.Prelude.{ℕ, ◌≡◌, ◌≢◌, ◌+◌, ◌≤◌, ◌<◌, ◌↔◌, [], Any, IfErr, IfOk, IsTrue, Ok, length};
ghost use Rattle.std.specs.Prelude.{List as Sequence};
ghost use Rattle.cell_num.specs.declared.finger.Fingers.{Fingers};
ghost use Rattle.cell_num.specs.declared.finger.Row.{Row as RowOf};
ghost use Rattle.row_model.specs.declared.column.Column.{Column};
ghost use Rattle.row_model.specs.Arrangement.{IsArrangement};
ghost use Rattle.row_model.specs.Gaps.{gaps_of};
ghost use Rattle.row_place.specs.Places.{placement_of};
ghost use Rattle.channel_route.specs.declared.routing.Routing.{Routing};
ghost use Rattle.channel_route.specs.Routing.{IsLegal};
ghost use Rattle.row_state.specs.declared.kind.Kinds.{Kinds as KindsOf};
ghost use Rattle.row_state.specs.declared.state.State.{State as StateOf};
ghost use Rattle.row_state.specs.Start.{AreKinds, start_of};
ghost use Rattle.row_cycles.specs.Certificate.{CoversAll as CycleCoversAll};
ghost use Rattle.track_ways.specs.Certificate.{AreJustified, CoversAll};
ghost use Rattle.track_log.specs.Reading.{certificate_of};
ghost use Rattle.track_check.specs.declared.rejected.TextRejected.TheVariants as because;
ghost use Rattle.track_check.specs.Accepted.{CyclesFollow, IsCertified, Rejects, limit_of};

use crate::{TextRejected, TracksRefused, check_tracks};
use cell_num::{MOST_BYTES, Pins};
use row_cycles::{CycleLemmas, CyclesRefused, check_cycles};
use row_needs::{GapBound, NeedBound};
use row_state::Kinds;
use std::alloc::Global;
use track_log::TrackCertificate;

/// The line of a lemma in a text, by its place among all.
pub fn line_of(at: usize) -> u32
    requires { at ≤ MOST_BYTES }
    ensures { result ≡ at + 5 }
{
    at as u32 + 5
}

#[tactic(auto, using(crate::proofs::Failing::no_ways))]
fn are_none(cycles: &CycleLemmas) -> bool
    ensures { IsTrue result ↔ (cycles.now ≡ []) }
{
    cycles.len() == 0
}

// Whether a lemma on cycles is about all rows, where each of them follows.
fn cycles_start(
    alloc: Global,
    pins: &Pins,
    kinds: &Kinds,
    certificate: &TrackCertificate,
) -> Result<bool, TextRejected>
    requires few { length certificate.now.cycles ≤ MOST_BYTES }
    ensures justified { IfOk result (λ _. CyclesFollow pins.now kinds.now certificate.now.cycles) }
    ensures start { IfOk result (λ start. IsTrue start ↔
        Any (CycleCoversAll (start_of kinds.now) certificate.now.gaps) certificate.now.cycles) }
    ensures rejected { IfErr result (λ cause. cause ≢ because.NoMemory → (value : RowOf → StateOf → KindsOf → ℕ)
        (name bytes : Sequence ℕ) → certificate_of bytes name kinds.now ≡ Ok certificate.now →
        Rejects value pins.now kinds.now name bytes cause) }
    ensures unwired { IfOk result (λ start. IsTrue start → (f : Fingers) (row : Sequence Column) (r : Routing) →
        AreKinds f kinds.now → IsArrangement row f → gaps_of row ≤ certificate.now.gaps →
        IsLegal (placement_of row) pins.now r → ⊥) }
{
    if are_none(&certificate.cycles) {
        return Ok(false);
    }
    let bound = NeedBound::of(alloc, kinds)?;
    match check_cycles(
        alloc,
        &bound,
        pins,
        kinds,
        certificate.gaps,
        &certificate.cycles,
    ) {
        Ok(()) => Ok(true),
        Err(CyclesRefused::NoStart) => Ok(false),
        Err(CyclesRefused::Unjustified { at }) => {
            Err(TextRejected::Unjustified { line: line_of(at) })
        }
        Err(CyclesRefused::NoMemory) => Err(TextRejected::NoMemory),
    }
}

// Whether a lemma on tracks is about all rows, where each of them follows.
fn tracks_start<B: GapBound>(
    alloc: Global,
    bound: &B,
    pins: &Pins,
    kinds: &Kinds,
    certificate: &TrackCertificate,
) -> Result<bool, TextRejected>
    requires few { length certificate.now.cycles + length certificate.now.lemmas ≤ MOST_BYTES }
    requires tracks { 1 ≤ certificate.now.tracks }
    requires cycles { CyclesFollow pins.now kinds.now certificate.now.cycles }
    ensures justified { IfOk result (λ _.
        AreJustified (B.value bound.now) pins.now (limit_of certificate.now) kinds.now certificate.now.lemmas) }
    ensures start { IfOk result (λ start. IsTrue start ↔
        Any (CoversAll (start_of kinds.now) certificate.now.gaps) certificate.now.lemmas) }
    ensures rejected { IfErr result (λ cause. cause ≢ because.NoMemory → (name bytes : Sequence ℕ) →
        certificate_of bytes name kinds.now ≡ Ok certificate.now →
        Rejects (B.value bound.now) pins.now kinds.now name bytes cause) }
    ensures more { IfOk result (λ start. IsTrue start → (f : Fingers) (row : Sequence Column) (r : Routing) →
        AreKinds f kinds.now → IsArrangement row f → gaps_of row ≤ certificate.now.gaps →
        IsLegal (placement_of row) pins.now r → limit_of certificate.now < r.tracks) }
{
    let limit = certificate.tracks - 1;
    match check_tracks(
        alloc,
        bound,
        pins,
        limit,
        kinds,
        certificate.gaps,
        &certificate.lemmas,
    ) {
        Ok(()) => Ok(true),
        Err(TracksRefused::NoStart) => Ok(false),
        Err(TracksRefused::Unjustified { at }) => Err(TextRejected::Unjustified {
            line: line_of(certificate.cycles.len() + at),
        }),
        Err(TracksRefused::NoMemory) => Err(TextRejected::NoMemory),
    }
}

/// Whether the lemmas certify what the lines of gaps and tracks say, or the first cause to reject the text of the
/// certificate. There are at most [`MOST_BYTES`] lemmas, and at least one track.
pub(crate) fn certify<B: GapBound>(
    alloc: Global,
    bound: &B,
    pins: &Pins,
    kinds: &Kinds,
    certificate: &TrackCertificate,
) -> Result<(), TextRejected>
    requires few { length certificate.now.cycles + length certificate.now.lemmas ≤ MOST_BYTES }
    requires tracks { 1 ≤ certificate.now.tracks }
    ensures certified { IfOk result (λ _. IsCertified (B.value bound.now) pins.now kinds.now certificate.now) }
    ensures rejected { IfErr result (λ cause. cause ≢ because.NoMemory → (name bytes : Sequence ℕ) →
        certificate_of bytes name kinds.now ≡ Ok certificate.now →
        Rejects (B.value bound.now) pins.now kinds.now name bytes cause) }
    ensures more { IfOk result (λ _. (f : Fingers) (row : Sequence Column) (r : Routing) → AreKinds f kinds.now
        → IsArrangement row f → gaps_of row ≤ certificate.now.gaps → IsLegal (placement_of row) pins.now r
        → certificate.now.tracks ≤ r.tracks) }
{
    let unwired = cycles_start(alloc, pins, kinds, certificate)?;
    let bounded = tracks_start(alloc, bound, pins, kinds, certificate)?;
    if unwired {
        return Ok(());
    }
    if bounded {
        return Ok(());
    }
    Err(TextRejected::NoStart)
}
