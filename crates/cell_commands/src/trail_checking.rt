ghost use Rattle.std.specs.Prelude.{◌≡◌, ◌≢◌, ◌≤◌, IfOk, length};
ghost use Rattle.bound_log.specs.declared.fault.LogFault.TheVariants as misread;
ghost use Rattle.cell_commands.specs.TrailCheck.{Checks, TrailChecksTo, check_end};
ghost use Rattle.cell_commands.specs.Judged.{Judges};
ghost use Rattle.cell_commands.specs.declared.trail_checking.TrailAnswer.TheVariants.{Misread};
ghost use Rattle.trail_either.specs.Either.{lemma_count};

use crate::counts::put_counts;
use crate::listed::listed_row;
use bound_log::LogFault;
use call_end::{End, Status};
use cell_inputs::Inputs;
use cell_num::{MOST_BYTES, NoMemory, columns_of};
use cell_report::{put_row, put_trail_refusal, put_trails};
use row_model::Arrangement;
use row_state::{Kinds, kinds};
use std::alloc::Global;
use trail_check::TrailRefusal;
use trail_either::{TrailEvidence, check_either, read_either};

/// What a check of some bytes resulted in.
#[derive(Drop)]
pub enum TrailAnswer {
    /// They are the text of an accepted certificate, of that many gaps, lemmas and filled gates, that lists the row.
    Accepted {
        row: Arrangement,
        gaps: u32,
        lemmas: u64,
        filled: u64,
    },
    /// They are no text of a certificate for the cell.
    Misread(LogFault),
    /// The certificate is not accepted.
    Rejected(TrailRefusal),
}

// Where the bytes are the text of a certificate.
fn judge(
    alloc: Global,
    inputs: &Inputs,
    kinds: &Kinds,
    trails: &TrailEvidence,
) -> Result<TrailAnswer, NoMemory>
    requires { lemma_count trails.now ≤ MOST_BYTES }
    ensures { IfOk result (Judges inputs.now.fingers kinds.now trails.now) }
{
    inputs.show_limits();
    match check_either(alloc, &inputs.fingers, trails) {
        Ok(gaps) => Ok(TrailAnswer::Accepted {
            row: listed_row(alloc, kinds, trails.best())?,
            gaps,
            lemmas: trails.lemmas(),
            filled: trails.filled(),
        }),
        Err(TrailRefusal::NoMemory) => Err(NoMemory),
        Err(cause) => Ok(TrailAnswer::Rejected(cause)),
    }
}

fn misread(fault: LogFault) -> Result<TrailAnswer, NoMemory>
    ensures { IfOk result (λ answer. (fault ≢ misread.NoMemory) × (answer ≡ Misread fault)) }
{
    match fault {
        LogFault::NoMemory => Err(NoMemory),
        fault => Ok(TrailAnswer::Misread(fault)),
    }
}

/// What a check of the bytes results in: whether they are the text of a certificate by trails, of any version, that
/// is accepted for the inputs.
pub(crate) fn answer_trails(
    alloc: Global,
    inputs: &Inputs,
    bytes: &[u8],
) -> Result<TrailAnswer, NoMemory>
    requires { length bytes.now ≤ MOST_BYTES }
    ensures { IfOk result (Checks inputs.now bytes.now) }
{
    inputs.show_limits();
    let kinds = kinds(alloc, &inputs.fingers)?;
    match read_either(alloc, bytes, &inputs.cell.name, &kinds) {
        Ok(trails) => judge(alloc, inputs, &kinds, &trails),
        Err(fault) => misread(fault),
    }
}

/// The end of a check that resulted in the answer.
pub(crate) fn trails_end(
    alloc: Global,
    inputs: &Inputs,
    answer: &TrailAnswer,
) -> Result<End, NoMemory>
    ensures { IfOk result (λ end. end ≡ check_end inputs.now answer.now) }
{
    inputs.show_limits();
    match answer {
        TrailAnswer::Accepted {
            gaps,
            lemmas,
            filled,
            ..
        } => {
            let columns = columns_of(&inputs.fingers) as u64;
            let mut report = Status::Done.report(alloc)?;
            put_row(&mut report, &inputs.cell.name, columns, *gaps)?;
            put_counts(&mut report, *lemmas, *filled)?;
            Ok(End::says(alloc, Status::Done, report))
        }
        TrailAnswer::Misread(fault) => {
            let mut report = Status::Rejected.report(alloc)?;
            put_trails(&mut report, fault)?;
            Ok(End::says(alloc, Status::Rejected, report))
        }
        TrailAnswer::Rejected(cause) => {
            let mut report = Status::Rejected.report(alloc)?;
            put_trail_refusal(&mut report, &inputs.cell.nets, cause)?;
            Ok(End::says(alloc, Status::Rejected, report))
        }
    }
}

/// Whether the bytes are the text of a certificate by trails, of any version, that is accepted for the inputs.
pub fn check_by_trails(alloc: Global, inputs: &Inputs, bytes: &[u8]) -> Result<End, NoMemory>
    requires { length bytes.now ≤ MOST_BYTES }
    ensures { IfOk result (TrailChecksTo inputs.now bytes.now) }
{
    let answer = answer_trails(alloc, inputs, bytes)?;
    trails_end(alloc, inputs, &answer)
}
