ghost use Rattle.std.specs.Prelude.{◌≡◌, ◌++◌, codes, OnOk};
ghost use Rattle.cell_report.specs.Faults.{fault_line, log_fault};
ghost use Rattle.cell_report.specs.TrackFaults.{track_fault};

use crate::fault_line::{Field, put_fault};
use crate::faults::put_text_fault;
use bound_log::LogFault;
use cell_num::{Bytes, NoMemory};
use track_check::TextRejected;

/// Adds the line of a fault of the text of a certificate of tracks.
pub fn put_tracks(out: &mut Bytes, fault: &LogFault) -> Result<(), NoMemory>
    ensures { OnOk result (out.new ≡ out.old ++ fault_line (codes "tracks") (log_fault fault.now)) }
{
    put_text_fault(out, b"tracks", fault)
}

/// Adds the line of the cause that rejects the text of a certificate of tracks.
pub fn put_track_refusal(out: &mut Bytes, cause: &TextRejected) -> Result<(), NoMemory>
    ensures { OnOk result (out.new ≡ out.old ++ fault_line (codes "tracks") (track_fault cause.now)) }
{
    match cause {
        TextRejected::Text { fault } => put_tracks(out, fault),
        TextRejected::Unjustified { line } => {
            let line = Field::Number(b"line", u64::from(*line));
            put_fault(out, b"tracks", b"Unproved", &[line])
        }
        TextRejected::NoStart => put_fault(out, b"tracks", b"NoStart", &[]),
        TextRejected::NoMemory => put_fault(out, b"tracks", b"NoMemory", &[]),
    }
}
