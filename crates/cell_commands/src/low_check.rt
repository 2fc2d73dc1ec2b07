ghost use Rattle.std.specs.Prelude.{◌≡◌, ◌≤◌, IfOk, codes, length};
ghost use Rattle.call_end.specs.declared.status.Status.TheVariants as status;
ghost use Rattle.call_end.specs.End.{reports};
ghost use Rattle.cell_report.specs.Faults.{fault_line};
ghost use Rattle.cell_report.specs.Logs.{low_checked_text};
ghost use Rattle.cell_report.specs.TrackFaults.{track_fault};
ghost use Rattle.cell_commands.specs.LowCheck.{LowChecksTo};

use call_end::{End, Status};
use cell_inputs::Inputs;
use cell_num::{MOST_BYTES, Name, NoMemory};
use cell_report::{put_low_checked, put_track_refusal};
use row_state::{Component, kinds};
use std::alloc::Global;
use track_check::TextRejected;
use turn_check::{LowProved, check_course};

fn accepted_end(alloc: Global, name: &Name, low: LowProved) -> Result<End, NoMemory>
    ensures { IfOk result (λ end. end ≡ reports status.Done
        (low_checked_text low.course name.now low.proved.gaps low.proved.tracks)) }
{
    let mut report = Status::Done.report(alloc)?;
    let proved = low.proved;
    put_low_checked(&mut report, low.course, name, proved.gaps, proved.tracks)?;
    Ok(End::says(alloc, Status::Done, report))
}

fn rejected_end(alloc: Global, cause: &TextRejected) -> Result<End, NoMemory>
    ensures { IfOk result (λ end.
        end ≡ reports status.Rejected (fault_line (codes "tracks") (track_fault cause.now))) }
{
    let mut report = Status::Rejected.report(alloc)?;
    put_track_refusal(&mut report, cause)?;
    Ok(End::says(alloc, Status::Rejected, report))
}

/// Whether the bytes are the text of a certificate of tracks that is accepted for the inputs: each arrangement of the
/// fingers with at most its gaps takes its tracks at least, with nets that go straight or may turn, as the text has it.
pub fn check_low(alloc: Global, inputs: &Inputs, bytes: &[u8]) -> Result<End, NoMemory>
    requires { length bytes.now ≤ MOST_BYTES }
    ensures { IfOk result (LowChecksTo inputs.now bytes.now) }
{
    inputs.show_limits();
    let kinds = kinds(alloc, &inputs.fingers)?;
    let cell = &inputs.cell;
    match check_course(alloc, &Component, &cell.pins, bytes, &cell.name, &kinds) {
        Ok(low) => accepted_end(alloc, &cell.name, low),
        Err(TextRejected::NoMemory) => Err(NoMemory),
        Err(cause) => rejected_end(alloc, &cause),
    }
}
