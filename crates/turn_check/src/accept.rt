ghost use Rattle.std.specs.Prelude.{ℕ, ◌≡◌, ◌≢◌, ◌≤◌, ◌<◌, IfErr, IfOk, Ok, length, List as Sequence};
ghost use Rattle.cell_num.specs.declared.finger.Fingers.{Fingers};
ghost use Rattle.row_model.specs.declared.column.Column.{Column};
ghost use Rattle.row_model.specs.Arrangement.{IsArrangement};
ghost use Rattle.row_model.specs.Gaps.{gaps_of};
ghost use Rattle.row_place.specs.Places.{placement_of};
ghost use Rattle.row_state.specs.Start.{AreKinds};
ghost use Rattle.bound_log.specs.Fits.{IsLogName};
ghost use Rattle.dogleg_route.specs.declared.piece.PieceRouting.{PieceRouting};
ghost use Rattle.dogleg_route.specs.Routings.{ArePiecesLegal};
ghost use Rattle.track_check.specs.declared.accept.TracksProved.{TracksProved as ProvedOf};
ghost use Rattle.track_check.specs.declared.rejected.TextRejected.TheVariants as because;
ghost use Rattle.turn_check.specs.Turning.{IsTurnAccepted, RejectsTurn};

use crate::certify::certify;
use cell_num::{MOST_BYTES, Name, Pins};
use row_needs::GapBound;
use row_state::Kinds;
use std::alloc::Global;
use track_check::{TextRejected, TracksProved};
use track_log::{Course, read_tracks_by};

// The verdict on a text.
fn judge<B: GapBound>(
    alloc: Global,
    bound: &B,
    pins: &Pins,
    bytes: &[u8],
    name: &Name,
    kinds: &Kinds,
) -> Result<TracksProved, TextRejected>
    requires name { IsLogName name.now }
    requires few { length bytes.now ≤ MOST_BYTES }
    ensures accepted { IfOk result (IsTurnAccepted (B.value bound.now) pins.now kinds.now name.now bytes.now) }
    ensures rejected { IfErr result (λ cause. cause ≢ because.NoMemory →
        RejectsTurn (B.value bound.now) pins.now kinds.now name.now bytes.now cause) }
    ensures more { IfOk result (λ proved. (f : Fingers) (row : Sequence Column) (r : PieceRouting)
        → AreKinds f kinds.now → IsArrangement row f → gaps_of row ≤ proved.gaps
        → ArePiecesLegal (placement_of row) pins.now r → proved.tracks ≤ r.tracks) }
{
    let certificate = match read_tracks_by(alloc, Course::Turning, bytes, name, kinds) {
        Ok(certificate) => certificate,
        Err(fault) => return Err(TextRejected::of_fault(fault)),
    };
    certify(alloc, bound, pins, kinds, &certificate)?;
    Ok(TracksProved {
        gaps: certificate.gaps,
        tracks: certificate.tracks,
    })
}

/// Checks the text of a certificate of tracks where nets may turn, for the cell of that name and the kinds of its
/// fingers: it is read, and its lemmas show that each row with at most the gaps of its line needs the tracks of its
/// line. Else the first cause to reject it. The lemmas rest on the bound. The name has 1 to 32 bytes and no line feed,
/// and there are at most [`MOST_BYTES`] bytes.
pub fn check_turning<B: GapBound>(
    alloc: Global,
    bound: &B,
    pins: &Pins,
    bytes: &[u8],
    name: &Name,
    kinds: &Kinds,
) -> Result<TracksProved, TextRejected>
    requires name { IsLogName name.now }
    requires few { length bytes.now ≤ MOST_BYTES }
    ensures accepted { IfOk result (IsTurnAccepted (B.value bound.now) pins.now kinds.now name.now bytes.now) }
    ensures rejected { IfErr result (λ cause. cause ≢ because.NoMemory →
        RejectsTurn (B.value bound.now) pins.now kinds.now name.now bytes.now cause) }
    // no text that is rejected is one to accept
    ensures none { IfErr result (λ cause. cause ≢ because.NoMemory → (proved : ProvedOf) →
        IsTurnAccepted (B.value bound.now) pins.now kinds.now name.now bytes.now proved → ⊥) }
    // what is accepted is true: each legal routing by pieces has that number of tracks or more
    ensures more { IfOk result (λ proved. (f : Fingers) (row : Sequence Column) (r : PieceRouting)
        → AreKinds f kinds.now → IsArrangement row f → gaps_of row ≤ proved.gaps
        → ArePiecesLegal (placement_of row) pins.now r → proved.tracks ≤ r.tracks) }
{
    kinds.show_limits();
    let proved = judge(alloc, bound, pins, bytes, name, kinds)?;
    Ok(proved)
}
