ghost use Rattle.std.specs.Prelude.{IfOk};
ghost use Rattle.bound_log.specs.Fits.{IsLogName};
ghost use Rattle.row_model.specs.Arrangement.{IsArrangement};
ghost use Rattle.cell_commands.specs.Certificate.{CanBeWritten, row_evidence};
ghost use Rattle.cell_commands.specs.Make.{IsDrawnTo, IsOpenEnd, MakesTo};

use crate::certificate::{Certificate, row_evidence};
use crate::drawing::drawn;
use crate::evidence::too_many_pairings;
use crate::make_end::evidence_end;
use crate::searched::Searched;
use call_end::{End, Status, Stem};
use call_words::Evidence;
use cell_inputs::{Inputs, Style};
use cell_num::NoMemory;
use cell_report::unfinished_report;
use row_model::Arrangement;
use spice_net::Subckt;
use std::alloc::Global;

// The row, drawn, with its certificate.
fn certified(
    alloc: Global,
    inputs: &Inputs,
    stem: &Stem,
    style: Style,
    row: &Arrangement,
    certificate: Certificate,
) -> Result<End, NoMemory>
    requires arranged { IsArrangement row.now inputs.now.fingers }
    requires fits { CanBeWritten certificate }
    ensures { IfOk result (IsDrawnTo style inputs.now stem.now row.now
        (row_evidence inputs.now.cell stem.now certificate)) }
{
    inputs.show_limits();
    let evidence = row_evidence(alloc, &inputs.cell, stem, certificate)?;
    drawn(alloc, inputs, stem, style, row, evidence)
}

/// The certificate of what a search proves without a row.
pub(crate) fn open_end(
    alloc: Global,
    cell: &Subckt,
    stem: &Stem,
    certificate: Certificate,
    proved: u32,
) -> Result<End, NoMemory>
    requires name { IsLogName cell.now.name }
    requires fits { CanBeWritten certificate }
    ensures { IfOk result (IsOpenEnd cell.now stem.now proved certificate) }
{
    let report = unfinished_report(alloc, proved, certificate.lemmas())?;
    let evidence = row_evidence(alloc, cell, stem, certificate)?;
    Ok(evidence_end(Status::Unfinished, evidence.files, report))
}

/// The drawing of the first least row with its evidence; or the evidence, with a cycle of the row's nets, with a height
/// that is not enough, or of a search without a row; or a gate whose fingers pair in too many ways.
pub fn make(
    alloc: Global,
    inputs: &Inputs,
    stem: &Stem,
    style: Style,
    evidence: Evidence,
) -> Result<End, NoMemory>
    ensures { IfOk result (MakesTo evidence style inputs.now stem.now) }
{
    inputs.show_limits();
    let searched = Searched::of(alloc, inputs, evidence)?;
    match searched {
        Searched::Found { row, certificate } => {
            certified(alloc, inputs, stem, style, &row, certificate)
        }
        Searched::Open {
            certificate,
            proved,
        } => open_end(alloc, &inputs.cell, stem, certificate, proved),
        Searched::Crowded { gate } => too_many_pairings(alloc, &inputs.cell, gate),
    }
}
