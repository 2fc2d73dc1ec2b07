ghost use Rattle.std.specs.Prelude.{Err, IfErr, IfOk};
ghost use Rattle.cell_io.specs.Desk.{OnlyReads};
ghost use Rattle.call_read.specs.Read.{IsRead, KeepsReads};
ghost use Rattle.call_read.specs.Sources.{LogFile};
ghost use Rattle.call_work.specs.Commands.{ChecksOn, MakesFromOn};
ghost use Rattle.call_work.specs.Evidence.{evidence_file};
ghost use Rattle.call_work.specs.Kept.{HoldsFile, HoldsLog, ReadsBoth};

use crate::material::{CheckMaterial, EvidenceFile, FromMaterial};
use call_end::End;
use call_read::{Refusal, Source, read_file, read_inputs, read_to};
use call_words::{CellAsked, Evidence};
use cell_commands::{CheckedLog, check, check_by_trails, make_from_log, make_from_trails};
use cell_inputs::Inputs;
use cell_io::Desk;
use cell_num::NoMemory;
use std::alloc::Global;

// The log of a check, after all bytes of its file.
fn read_log<D: Desk>(
    alloc: Global,
    desk: &mut D,
    inputs: &Inputs,
    file: &str,
) -> Result<CheckedLog, Refusal>
    ensures read { IfOk result (λ log. HoldsLog (D.view desk.old) (D.view desk.new) file.now inputs.now log) }
    ensures refused { IfErr result (λ e. IsRead (D.view desk.old) (D.view desk.new) (LogFile file.now) (Err e)) }
    ensures quiet { KeepsReads result (D.view desk.old) (D.view desk.new) }
    ensures only { OnlyReads (D.view desk.old) (D.view desk.new) }
{
    let mut log = CheckedLog::new(alloc, inputs)?;
    read_to(alloc, desk, Source::Log(file), &mut log)?;
    Ok(log)
}

// The file of evidence for the inputs.
fn read_evidence<D: Desk>(
    alloc: Global,
    desk: &mut D,
    inputs: &Inputs,
    file: &str,
    evidence: Evidence,
) -> Result<EvidenceFile, Refusal>
    ensures read { IfOk result (HoldsFile (D.view desk.old) (D.view desk.new) evidence file.now inputs.now) }
    ensures refused { IfErr result (λ e.
        IsRead (D.view desk.old) (D.view desk.new) (evidence_file evidence file.now) (Err e)) }
    ensures quiet { KeepsReads result (D.view desk.old) (D.view desk.new) }
    ensures only { OnlyReads (D.view desk.old) (D.view desk.new) }
{
    match evidence {
        Evidence::Log => match read_log(alloc, desk, inputs, file) {
            Ok(log) => Ok(EvidenceFile::Log(log)),
            Err(refusal) => Err(refusal),
        },
        Evidence::Trails => match read_file(alloc, desk, Source::Trails(file)) {
            Ok(bytes) => Ok(EvidenceFile::Trails(bytes)),
            Err(refusal) => Err(refusal),
        },
    }
}

/// Reads the inputs of a cell, and then a file of evidence for them.
pub(crate) fn read_with_evidence<D: Desk>(
    alloc: Global,
    desk: &mut D,
    asked: &CellAsked<'_>,
    file: &str,
    evidence: Evidence,
) -> Result<CheckMaterial, Refusal>
    ensures comes { ReadsBoth (D.view desk.old) (D.view desk.new) asked.now evidence file.now result }
    ensures quiet { KeepsReads result (D.view desk.old) (D.view desk.new) }
    ensures only { OnlyReads (D.view desk.old) (D.view desk.new) }
{
    let inputs = read_inputs(alloc, desk, asked)?;
    let file = read_evidence(alloc, desk, &inputs, file, evidence)?;
    Ok(CheckMaterial { inputs, file })
}

pub(crate) fn check_by(alloc: Global, inputs: &Inputs, file: &EvidenceFile) -> Result<End, NoMemory>
    ensures { IfOk result (ChecksOn inputs.now file.now) }
{
    match file {
        EvidenceFile::Log(log) => check(alloc, inputs, log),
        EvidenceFile::Trails(bytes) => check_by_trails(alloc, inputs, bytes.as_slice()),
    }
}

/// The drawing of the row that the file lists, or the end of its check.
pub(crate) fn make_from(alloc: Global, of: &FromMaterial) -> Result<End, NoMemory>
    ensures { IfOk result (MakesFromOn of.now.style of.now.inputs of.now.file of.now.stem) }
{
    match &of.file {
        EvidenceFile::Log(log) => make_from_log(alloc, &of.inputs, &of.stem, of.style, log),
        EvidenceFile::Trails(bytes) => {
            make_from_trails(alloc, &of.inputs, &of.stem, of.style, bytes.as_slice())
        }
    }
}
