ghost use Rattle.std.specs.Prelude.{ℕ, ◌≡◌, ◌≢◌, ◌≤◌, ◌<◌, IfErr, IfOk, length, List as Sequence};
ghost use Rattle.cell_num.specs.declared.finger.Fingers.{Fingers};
ghost use Rattle.row_model.specs.declared.column.Column.{Column};
ghost use Rattle.row_model.specs.Arrangement.{IsArrangement};
ghost use Rattle.row_model.specs.Gaps.{gaps_of};
ghost use Rattle.row_place.specs.Places.{placement_of};
ghost use Rattle.row_state.specs.Start.{AreKinds};
ghost use Rattle.bound_log.specs.Fits.{IsLogName};
ghost use Rattle.channel_route.specs.declared.routing.Routing.{Routing};
ghost use Rattle.channel_route.specs.Routing.{IsLegal};
ghost use Rattle.dogleg_route.specs.declared.piece.PieceRouting.{PieceRouting};
ghost use Rattle.dogleg_route.specs.Routings.{ArePiecesLegal};
ghost use Rattle.track_log.specs.declared.certificate.Course.TheVariants as course;
ghost use Rattle.track_log.specs.Reading.{course_of};
ghost use Rattle.track_check.specs.declared.rejected.TextRejected.TheVariants as because;
ghost use Rattle.turn_check.specs.declared.course.LowProved.{LowProved as LowOf};
ghost use Rattle.turn_check.specs.Courses.{IsLowAccepted, LowRejects};

use crate::check_turning;
use cell_num::{MOST_BYTES, Name, Pins};
use row_needs::GapBound;
use row_state::Kinds;
use std::alloc::Global;
use track_check::{TextRejected, TracksProved, check_text};
use track_log::{Course, course_of};

/// What an accepted text of either course proves.
#[derive(Clone, Copy, Debug, PartialEq, Eq)]
pub struct LowProved {
    pub course: Course,
    pub proved: TracksProved,
}

/// Checks the text of a certificate of tracks, where nets go straight or may turn as its first line says: by
/// [`check_text`] or [`check_turning`]. The name has 1 to 32 bytes and no line feed, and there are at most
/// [`MOST_BYTES`] bytes.
pub fn check_course<B: GapBound>(
    alloc: Global,
    bound: &B,
    pins: &Pins,
    bytes: &[u8],
    name: &Name,
    kinds: &Kinds,
) -> Result<LowProved, TextRejected>
    requires name { IsLogName name.now }
    requires few { length bytes.now ≤ MOST_BYTES }
    ensures course { IfOk result (λ low. low.course ≡ course_of bytes.now) }
    ensures accepted { IfOk result (IsLowAccepted (B.value bound.now) pins.now kinds.now name.now bytes.now) }
    ensures rejected { IfErr result (λ cause. cause ≢ because.NoMemory →
        LowRejects (B.value bound.now) pins.now kinds.now name.now bytes.now cause) }
    // no text that is rejected is one to accept
    ensures none { IfErr result (λ cause. cause ≢ because.NoMemory → (low : LowOf) →
        IsLowAccepted (B.value bound.now) pins.now kinds.now name.now bytes.now low → ⊥) }
    // what is accepted is true: each legal routing has that number of tracks or more
    ensures straight { IfOk result (λ low. low.course ≡ course.Straight → (f : Fingers) (row : Sequence Column)
        (r : Routing) → AreKinds f kinds.now → IsArrangement row f → gaps_of row ≤ low.proved.gaps
        → IsLegal (placement_of row) pins.now r → low.proved.tracks ≤ r.tracks) }
    ensures turning { IfOk result (λ low. low.course ≡ course.Turning → (f : Fingers) (row : Sequence Column)
        (r : PieceRouting) → AreKinds f kinds.now → IsArrangement row f → gaps_of row ≤ low.proved.gaps
        → ArePiecesLegal (placement_of row) pins.now r → low.proved.tracks ≤ r.tracks) }
{
    kinds.show_limits();
    let course = course_of(bytes);
    match course {
        Course::Straight => {
            let proved = check_text(alloc, bound, pins, bytes, name, kinds)?;
            Ok(LowProved { course, proved })
        }
        Course::Turning => {
            let proved = check_turning(alloc, bound, pins, bytes, name, kinds)?;
            Ok(LowProved { course, proved })
        }
    }
}
