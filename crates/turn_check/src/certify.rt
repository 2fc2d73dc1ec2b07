// Whether the lemmas of a certificate where nets may turn show what its lines of gaps and tracks say.
ghost use Rattle.std.specs.Prelude.{ℕ, ◌≡◌, ◌≢◌, ◌≤◌, ◌<◌, ◌↔◌, [], IfErr, IfOk, IsTrue, Ok, length, List as Sequence};
ghost use Rattle.cell_num.specs.declared.finger.Fingers.{Fingers};
ghost use Rattle.row_model.specs.declared.column.Column.{Column};
ghost use Rattle.row_model.specs.Arrangement.{IsArrangement};
ghost use Rattle.row_model.specs.Gaps.{gaps_of};
ghost use Rattle.row_place.specs.Places.{placement_of};
ghost use Rattle.row_state.specs.Start.{AreKinds};
ghost use Rattle.dogleg_route.specs.declared.piece.PieceRouting.{PieceRouting};
ghost use Rattle.dogleg_route.specs.Routings.{ArePiecesLegal};
ghost use Rattle.track_log.specs.declared.certificate.Course.TheVariants as course;
ghost use Rattle.track_log.specs.Reading.{certificate_by};
ghost use Rattle.track_check.specs.declared.rejected.TextRejected.TheVariants as because;
ghost use Rattle.track_check.specs.Accepted.{limit_of};
ghost use Rattle.turn_check.specs.Turning.{IsTurnCertified, RejectsTurn};

use cell_num::{MOST_BYTES, Pins};
use piece_ways::Turning;
use row_cycles::CycleLemmas;
use row_needs::GapBound;
use row_state::Kinds;
use std::alloc::Global;
use track_check::{TextRejected, TracksRefused, check_tracks_by, line_of};
use track_log::TrackCertificate;

#[tactic(auto, using(track_check::proofs::Failing::no_ways))]
fn are_none(cycles: &CycleLemmas) -> bool
    ensures { IsTrue result ↔ (cycles.now ≡ []) }
{
    cycles.len() == 0
}

/// Whether the lemmas certify what the lines of gaps and tracks say where nets may turn, or the first cause to reject
/// the text of the certificate. There are at most [`MOST_BYTES`] lemmas on tracks, and at least one track.
pub(crate) fn certify<B: GapBound>(
    alloc: Global,
    bound: &B,
    pins: &Pins,
    kinds: &Kinds,
    certificate: &TrackCertificate,
) -> Result<(), TextRejected>
    requires few { length certificate.now.lemmas ≤ MOST_BYTES }
    requires tracks { 1 ≤ certificate.now.tracks }
    ensures certified { IfOk result (λ _. IsTurnCertified (B.value bound.now) pins.now kinds.now certificate.now) }
    ensures rejected { IfErr result (λ cause. cause ≢ because.NoMemory → (name bytes : Sequence ℕ) →
        certificate_by course.Turning bytes name kinds.now ≡ Ok certificate.now →
        RejectsTurn (B.value bound.now) pins.now kinds.now name bytes cause) }
    ensures more { IfOk result (λ _. (f : Fingers) (row : Sequence Column) (r : PieceRouting) → AreKinds f kinds.now
        → IsArrangement row f → gaps_of row ≤ certificate.now.gaps → ArePiecesLegal (placement_of row) pins.now r
        → certificate.now.tracks ≤ r.tracks) }
{
    kinds.show_limits();
    bound.show_holds();
    if !are_none(&certificate.cycles) {
        return Err(TextRejected::Unjustified { line: line_of(0) });
    }
    let limit = certificate.tracks - 1;
    match check_tracks_by::<Turning, B>(
        alloc,
        bound,
        pins,
        limit,
        kinds,
        certificate.gaps,
        &certificate.lemmas,
    ) {
        Ok(()) => Ok(()),
        Err(TracksRefused::NoStart) => Err(TextRejected::NoStart),
        Err(TracksRefused::Unjustified { at }) => {
            Err(TextRejected::Unjustified { line: line_of(at) })
        }
        Err(TracksRefused::NoMemory) => Err(TextRejected::NoMemory),
    }
}
