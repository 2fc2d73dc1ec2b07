ghost use Rattle.std.specs.Prelude.{◌≡◌, ℕ, List as Sequence, IfOk, Ok, Some};
ghost use Rattle.bound_log.specs.Pieces.{ended};
ghost use Rattle.cell_commands.specs.Check.{Checks, ChecksTo, check_end, misread_answer, rejected_answer};
ghost use Rattle.cell_commands.specs.LogRead.{AreBehindAll};

use crate::checked_log::CheckedLog;
use bound_log::LogFault;
use call_end::{End, Status};
use cell_inputs::Inputs;
use cell_num::{NoMemory, columns_of};
use cell_report::{put_checked, put_log, put_refused};
use log_check::Refused;
use row_model::Arrangement;
use row_state::kinds;
use std::alloc::Global;

/// What a check of some bytes resulted in.
#[derive(Drop)]
pub enum CheckAnswer {
    /// They are the text of an accepted log, of that many gaps and lemmas, that lists the row.
    Accepted {
        row: Arrangement,
        gaps: u32,
        lemmas: u64,
    },
    /// They are no text of a log for the cell.
    Misread(LogFault),
    /// The log is not accepted.
    Rejected(Refused),
}

fn misread(fault: LogFault) -> Result<CheckAnswer, NoMemory>
    ensures { IfOk result (λ answer. Some answer ≡ misread_answer fault) }
{
    match fault {
        LogFault::NoMemory => Err(NoMemory),
        fault => Ok(CheckAnswer::Misread(fault)),
    }
}

fn rejected(cause: Refused) -> Result<CheckAnswer, NoMemory>
    ensures { IfOk result (λ answer. Some answer ≡ rejected_answer cause) }
{
    match cause {
        Refused::NoMemory => Err(NoMemory),
        cause => Ok(CheckAnswer::Rejected(cause)),
    }
}

// Where the text has no fault.
fn judge(alloc: Global, inputs: &Inputs, log: &CheckedLog) -> Result<CheckAnswer, NoMemory>
    requires { ended log.now.reader.fault log.now.reader.place (tt {0}) ≡ Ok (tt {0}) }
    ensures { IfOk result (λ answer. (bytes : Sequence ℕ) →
        AreBehindAll inputs.now bytes log.now.reader log.now.checker → Checks inputs.now bytes answer) }
{
    inputs.show_limits();
    match log.checker.finish(alloc) {
        Ok(gaps) => {
            let kinds = kinds(alloc, &inputs.fingers)?;
            let row = log.checker.listed(alloc, &kinds)?;
            Ok(CheckAnswer::Accepted {
                row,
                gaps,
                lemmas: log.checker.count() as u64,
            })
        }
        Err(cause) => rejected(cause),
    }
}

/// What a check of the bytes that were read results in: whether they are the text of a log that is accepted for the
/// inputs.
pub(crate) fn answer_log(
    alloc: Global,
    inputs: &Inputs,
    log: &CheckedLog,
) -> Result<CheckAnswer, NoMemory>
    ensures { IfOk result (λ answer. (bytes : Sequence ℕ) →
        AreBehindAll inputs.now bytes log.now.reader log.now.checker → Checks inputs.now bytes answer) }
{
    inputs.show_limits();
    match log.reader.finish() {
        Ok(()) => judge(alloc, inputs, log),
        Err(fault) => misread(fault),
    }
}

/// The end of a check that resulted in the answer.
pub(crate) fn log_end(alloc: Global, inputs: &Inputs, answer: &CheckAnswer) -> Result<End, NoMemory>
    ensures { IfOk result (λ end. end ≡ check_end inputs.now answer.now) }
{
    inputs.show_limits();
    match answer {
        CheckAnswer::Accepted { gaps, lemmas, .. } => {
            let columns = columns_of(&inputs.fingers) as u64;
            let mut report = Status::Done.report(alloc)?;
            put_checked(&mut report, &inputs.cell.name, columns, *gaps, *lemmas)?;
            Ok(End::says(alloc, Status::Done, report))
        }
        CheckAnswer::Misread(fault) => {
            let mut report = Status::Rejected.report(alloc)?;
            put_log(&mut report, fault)?;
            Ok(End::says(alloc, Status::Rejected, report))
        }
        CheckAnswer::Rejected(cause) => {
            let mut report = Status::Rejected.report(alloc)?;
            put_refused(&mut report, cause)?;
            Ok(End::says(alloc, Status::Rejected, report))
        }
    }
}

/// Whether the bytes that were read are the text of a log that is accepted for the inputs.
pub fn check(alloc: Global, inputs: &Inputs, log: &CheckedLog) -> Result<End, NoMemory>
    ensures { IfOk result (λ end. (bytes : Sequence ℕ) →
        AreBehindAll inputs.now bytes log.now.reader log.now.checker → ChecksTo inputs.now bytes end) }
{
    let answer = answer_log(alloc, inputs, log)?;
    log_end(alloc, inputs, &answer)
}
