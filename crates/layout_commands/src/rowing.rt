ghost use Rattle.std.specs.Prelude.{◌≡◌, ◌++◌, [], ◌∷◌, codes, length, IfOk, OnOk};
ghost use Rattle.call_end.specs.End.{reports, IsEnd};
ghost use Rattle.call_end.specs.Status.{first_line};
ghost use Rattle.call_end.specs.declared.status.Status.TheVariants as status;
ghost use Rattle.cell_report.specs.Cells.{fewest_text, tall_text};
ghost use Rattle.cell_report.specs.Cycles.{ring_text};
ghost use Rattle.cell_report.specs.Faults.{fault_line};
ghost use Rattle.cell_report.specs.RowFaults.{row_fault};
ghost use Rattle.call_end.specs.Files.{gds_file};
ghost use Rattle.cell_make.specs.CellOfRow.{StopAnswer, TellsWhy};
ghost use Rattle.cell_make.specs.Rowed.{ComesToRow};
ghost use Rattle.layout_commands.specs.Row.{CanBeTold, IsStoppedEnd, RowsTo, input_end, row_text};

use call_end::{End, Output, Status, Stem};
use cell_inputs::Inputs;
use cell_make::{InputFault, RowInputs, RowOutcome, Undrawn};
use cell_num::{Bytes, Name, NoMemory, put_count, put_pair, put_text};
use cell_report::{
    cycle_report, log_unfinished, open_ring_report, put_fold, put_row_fault, put_spice, tall_report,
};
use channel_route::Ring;
use log_output::Content;
use row_abut::RowFault;
use spice_net::Subckt;
use std::alloc::Global;

fn put_made(
    out: &mut Bytes,
    top: &Name,
    cells: usize,
    width: u32,
    height: u32,
) -> Result<(), NoMemory>
    ensures { OnOk result (out.new ≡ out.old ++ row_text top.now cells width height) }
{
    put_text(out, b"cell ", top.as_slice())?;
    put_count(out, b"cells ", cells as u64)?;
    put_pair(out, b"size ", width, b" ", height)
}

// The row's library, in the one file of a row.
fn rowed(
    alloc: Global,
    row: &RowInputs,
    stem: &Stem,
    library: Bytes,
    width: u32,
    height: u32,
) -> Result<End, NoMemory>
    ensures { IfOk result (IsEnd status.Done (gds_file stem.now library ∷ [])
        (first_line status.Done ++ row_text row.now.top (length row.now.names) width height)) }
{
    let mut report = Status::Done.report(alloc)?;
    put_made(&mut report, &row.top, row.names.len(), width, height)?;
    let name = stem.with(alloc, ".gds")?;
    let file = Output {
        name,
        bytes: Content::of_bytes(library),
    };
    End::makes_one(alloc, Status::Done, file, report)
}

fn refused(alloc: Global, fault: &InputFault) -> Result<End, NoMemory>
    ensures { IfOk result (λ end. end ≡ input_end fault.now) }
{
    let mut report = Status::Input.report(alloc)?;
    match fault {
        InputFault::Spice(fault) => put_spice(&mut report, fault)?,
        InputFault::Fold(fault) => put_fold(&mut report, fault)?,
    }
    Ok(End::says(alloc, Status::Input, report))
}

fn unabutted(alloc: Global, fault: &RowFault) -> Result<End, NoMemory>
    ensures { IfOk result (λ end. end ≡ reports status.Row (fault_line (codes "row") (row_fault fault.now))) }
{
    let mut report = Status::Row.report(alloc)?;
    put_row_fault(&mut report, fault)?;
    Ok(End::says(alloc, Status::Row, report))
}

fn cyclic(alloc: Global, cell: &Subckt, ring: &Ring) -> Result<End, NoMemory>
    ensures { IfOk result (λ end. end ≡ reports status.Cycle (ring_text cell.now.nets ring.now)) }
{
    let report = cycle_report(alloc, &cell.nets, ring)?;
    Ok(End::says(alloc, Status::Cycle, report))
}

fn tall(alloc: Global, needed: u32, given: u32) -> Result<End, NoMemory>
    ensures { IfOk result (λ end. end ≡ reports status.TooTall (tall_text needed given)) }
{
    let report = tall_report(alloc, b"", needed, given)?;
    Ok(End::says(alloc, Status::TooTall, report))
}

// No row that can be wired is known, so no row is known to take any tracks.
fn unwired(alloc: Global, cell: &Subckt, ring: &Ring) -> Result<End, NoMemory>
    ensures { IfOk result (λ end. end
        ≡ reports status.Unfinished (fewest_text 0 ++ ring_text cell.now.nets ring.now)) }
{
    let report = open_ring_report(alloc, &cell.nets, ring, 0)?;
    Ok(End::says(alloc, Status::Unfinished, report))
}

// The end of a cell that is not drawn, without files.
#[tactic(auto, using(cell_inputs::proofs::Names::log_name))]
fn stopped(alloc: Global, inputs: &Inputs, why: Undrawn) -> Result<End, NoMemory>
    requires { CanBeTold why }
    ensures { (answer : StopAnswer) → TellsWhy inputs.now why answer → IfOk result (IsStoppedEnd inputs.now answer) }
{
    inputs.show_limits();
    match why {
        Undrawn::Cyclic { ring } => cyclic(alloc, &inputs.cell, &ring),
        Undrawn::Tall { needed, given } => tall(alloc, needed, given),
        Undrawn::Unfinished { log, proved } => log_unfinished(alloc, &inputs.cell, log, proved),
        Undrawn::Unwired { ring } => unwired(alloc, &inputs.cell, &ring),
    }
}

// Reports what making a row resulted in.
fn end_of(alloc: Global, row: &RowInputs, stem: &Stem, outcome: RowOutcome) -> Result<End, NoMemory>
    requires { ComesToRow row.now outcome }
    ensures { IfOk result (RowsTo row.now stem.now) }
{
    match outcome {
        RowOutcome::Rowed {
            library,
            width,
            height,
        } => rowed(alloc, row, stem, library, width, height),
        RowOutcome::Refused(fault) => refused(alloc, &fault),
        RowOutcome::Stopped { inputs, why } => stopped(alloc, &inputs, why),
        RowOutcome::Unabutted(fault) => unabutted(alloc, &fault),
    }
}

/// The library of a row of cells; or the first cell that is not made, and why; or why they can't be side by side.
pub fn row(alloc: Global, row: &RowInputs, stem: &Stem) -> Result<End, NoMemory>
    ensures { IfOk result (RowsTo row.now stem.now) }
{
    let outcome = RowOutcome::of(alloc, row)?;
    end_of(alloc, row, stem, outcome)
}
