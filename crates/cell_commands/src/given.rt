// The row of a file of evidence that is given, and its drawing.
ghost use Rattle.std.specs.Prelude.{◌≡◌, ◌≤◌, ℕ, List as Sequence, IfOk, codes, length};
ghost use Rattle.call_words.specs.declared.evidence.Evidence.TheVariants.{Log, Trails};
ghost use Rattle.cell_num.specs.Lines.{count_line};
ghost use Rattle.cell_commands.specs.LogRead.{AreBehindAll};
ghost use Rattle.row_model.specs.Arrangement.{IsArrangement};
ghost use Rattle.cell_commands.specs.declared.given.Given.TheVariants.{Row};
ghost use Rattle.cell_commands.specs.Given.{Arranges, IsGiven, IsGivenEnd, MakesFromTo};

use crate::checked_log::CheckedLog;
use crate::counts::put_counts;
use crate::drawing::drawn;
use crate::evidence::RowEvidence;
use crate::trail_checking::{TrailAnswer, answer_trails, trails_end};
use crate::verdict::{CheckAnswer, answer_log, log_end};
use call_end::{End, Stem};
use cell_inputs::{Inputs, Style};
use cell_num::{Bytes, MOST_BYTES, NoMemory, put_count};
use log_check::Refused;
use row_model::{Arrangement, is_arrangement};
use std::alloc::Global;

/// What a file of evidence gives to draw.
#[derive(Drop)]
pub(crate) enum Given {
    /// The row that it lists, and what the report of a drawn row says of the evidence.
    Row { row: Arrangement, counts: Bytes },
    /// The end of its check, which does not accept it.
    Refused(End),
}

// The row of an accepted log of that many lemmas; a row of other fingers is refused.
fn logged_row(
    alloc: Global,
    inputs: &Inputs,
    row: Arrangement,
    lemmas: u64,
) -> Result<Given, NoMemory>
    ensures arranged { IfOk result (Arranges inputs.now) }
    ensures given { IfOk result (λ given. IsArrangement row inputs.now.fingers
        → given ≡ Row row (count_line (codes "lemmas ") lemmas)) }
{
    inputs.show_limits();
    if !is_arrangement(&row, &inputs.fingers) {
        let other = CheckAnswer::Rejected(Refused::NotArrangement);
        let end = log_end(alloc, inputs, &other)?;
        return Ok(Given::Refused(end));
    }
    let mut counts = Bytes::new(alloc);
    put_count(&mut counts, b"lemmas ", lemmas)?;
    Ok(Given::Row { row, counts })
}

impl Given {
    /// What a log gives that is after the bytes of its file.
    fn by_log(alloc: Global, inputs: &Inputs, log: &CheckedLog) -> Result<Given, NoMemory>
        ensures arranged { IfOk result (Arranges inputs.now) }
        ensures given { IfOk result (λ given. (bytes : Sequence ℕ) →
            AreBehindAll inputs.now bytes log.now.reader log.now.checker → IsGiven Log inputs.now bytes given) }
    {
        let answer = answer_log(alloc, inputs, log)?;
        match answer {
            CheckAnswer::Accepted { row, lemmas, .. } => logged_row(alloc, inputs, row, lemmas),
            CheckAnswer::Misread(fault) => {
                let end = log_end(alloc, inputs, &CheckAnswer::Misread(fault))?;
                Ok(Given::Refused(end))
            }
            CheckAnswer::Rejected(cause) => {
                let end = log_end(alloc, inputs, &CheckAnswer::Rejected(cause))?;
                Ok(Given::Refused(end))
            }
        }
    }

    /// What a certificate by trails gives, by its bytes.
    fn by_trails(alloc: Global, inputs: &Inputs, bytes: &[u8]) -> Result<Given, NoMemory>
        requires { length bytes.now ≤ MOST_BYTES }
        ensures { IfOk result (IsGiven Trails inputs.now bytes.now) }
    {
        let answer = answer_trails(alloc, inputs, bytes)?;
        match answer {
            TrailAnswer::Accepted {
                row,
                lemmas,
                filled,
                ..
            } => {
                let mut counts = Bytes::new(alloc);
                put_counts(&mut counts, lemmas, filled)?;
                Ok(Given::Row { row, counts })
            }
            TrailAnswer::Misread(fault) => {
                let end = trails_end(alloc, inputs, &TrailAnswer::Misread(fault))?;
                Ok(Given::Refused(end))
            }
            TrailAnswer::Rejected(cause) => {
                let end = trails_end(alloc, inputs, &TrailAnswer::Rejected(cause))?;
                Ok(Given::Refused(end))
            }
        }
    }
}

// The row, drawn, without a file of its evidence; or the end of the check.
fn given_end(
    alloc: Global,
    inputs: &Inputs,
    stem: &Stem,
    style: Style,
    given: Given,
) -> Result<End, NoMemory>
    requires { Arranges inputs.now given }
    ensures { IfOk result (IsGivenEnd style inputs.now stem.now given) }
{
    match given {
        Given::Row { row, counts } => {
            let evidence = RowEvidence::without_file(alloc, counts);
            drawn(alloc, inputs, stem, style, &row, evidence)
        }
        Given::Refused(end) => Ok(end),
    }
}

/// The drawing of the row that a log lists, which is after the bytes of its file; or a cycle of the row's nets, or a
/// height that is not enough; or the end of a check that does not accept the log.
pub fn make_from_log(
    alloc: Global,
    inputs: &Inputs,
    stem: &Stem,
    style: Style,
    log: &CheckedLog,
) -> Result<End, NoMemory>
    ensures { IfOk result (λ end. (bytes : Sequence ℕ) →
        AreBehindAll inputs.now bytes log.now.reader log.now.checker →
        MakesFromTo Log style inputs.now bytes stem.now end) }
{
    let given = Given::by_log(alloc, inputs, log)?;
    given_end(alloc, inputs, stem, style, given)
}

/// The same of the bytes of a certificate by trails.
pub fn make_from_trails(
    alloc: Global,
    inputs: &Inputs,
    stem: &Stem,
    style: Style,
    bytes: &[u8],
) -> Result<End, NoMemory>
    requires { length bytes.now ≤ MOST_BYTES }
    ensures { IfOk result (MakesFromTo Trails style inputs.now bytes.now stem.now) }
{
    let given = Given::by_trails(alloc, inputs, bytes)?;
    given_end(alloc, inputs, stem, style, given)
}
