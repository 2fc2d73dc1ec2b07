ghost use Rattle.std.specs.Prelude.{◌≡◌, ◌≤◌, ◌<◌, [], ◌∷◌, ◌++◌, IfOk, codes, length, string_bytes};
ghost use Rattle.call_end.specs.declared.status.Status.TheVariants as status;
ghost use Rattle.call_end.specs.Status.{first_line};
ghost use Rattle.cell_report.specs.Cells.{sizes_with};
ghost use Rattle.cell_report.specs.Rows.{plan_text};
ghost use Rattle.gds_read.specs.RoundTrip.{IsReadable};
ghost use Rattle.gds_write.specs.Written.{written};
ghost use Rattle.cell_make.specs.Making.{final_of};
ghost use Rattle.cell_make.specs.Rows.{CanRowBeWritten, IsRowDrawnBy, row_answer};
ghost use Rattle.lef_write.specs.Lef.{cell_text};
ghost use Rattle.call_end.specs.End.{IsEnd, named};
ghost use Rattle.call_end.specs.Files.{gds_file, lef_file};
ghost use Rattle.cell_commands.specs.RowEnd.{IsDrawnEnd, IsRowEnd};
ghost use Rattle.cell_commands.specs.Evidence.{evidence_files, shown};

use crate::evidence::RowEvidence;
use crate::make_report::drawn_report;
use call_end::{End, Output, OutputList, Status, Stem};
use cell_draw::{Drawing, MOST_SHAPES};
use cell_inputs::{Inputs, Style};
use cell_make::{DrawOutcome, Drawn};
use cell_num::{Bytes, NoMemory};
use cell_report::{cycle_report, tall_report};
use channel_route::Routing;
use gds_write::write_cell;
use lef_write::lef_text;
use log_output::Content;
use row_model::Arrangement;
use spice_net::Subckt;
use std::alloc::Global;

fn gds_file(
    alloc: Global,
    cell: &Subckt,
    stem: &Stem,
    drawing: &Drawing,
    unit_nm: u32,
) -> Result<Output, NoMemory>
    requires { IsReadable cell.now.name drawing.now.shapes unit_nm }
    ensures name { IfOk result (λ file. string_bytes file.name ≡ stem.now ++ codes ".gds") }
    ensures bytes { IfOk result (λ file. file.bytes ≡ written cell.now.name drawing.now.shapes unit_nm) }
{
    let name = stem.with(alloc, ".gds")?;
    let library = write_cell(alloc, &cell.name, &drawing.shapes, unit_nm)?;
    let bytes = Content::of_bytes(Bytes::from_vec(library));
    Ok(Output { name, bytes })
}

fn lef_file(
    alloc: Global,
    cell: &Subckt,
    stem: &Stem,
    routing: &Routing,
    drawing: &Drawing,
    unit_nm: u32,
) -> Result<Output, NoMemory>
    requires pins { cell.now.pins.pins ≤ length cell.now.nets }
    requires directions { length cell.now.directions ≡ cell.now.pins.pins }
    requires few { length drawing.now.shapes.rects < MOST_SHAPES }
    ensures name { IfOk result (λ file. string_bytes file.name ≡ stem.now ++ codes ".lef") }
    ensures bytes { IfOk result (λ file. file.bytes ≡ cell_text cell.now routing.now drawing.now unit_nm) }
{
    let name = stem.with(alloc, ".lef")?;
    let text = lef_text(alloc, cell, routing, drawing, unit_nm)?;
    let bytes = Content::of_bytes(Bytes::from_vec(text));
    Ok(Output { name, bytes })
}

// What is reported of a drawn row beside its evidence.
#[derive(Drop)]
struct DrawnParts {
    library: Output,
    summary: Output,
    report: Bytes,
}

// The files of a drawn row beside those of its evidence, and its report.
fn drawn_parts(
    alloc: Global,
    cell: &Subckt,
    stem: &Stem,
    row: &Arrangement,
    evidence: &RowEvidence,
    routing: &Routing,
    drawn: &Drawn,
    unit_nm: u32,
) -> Result<DrawnParts, NoMemory>
    requires columns { length row.now ≤ 64 }
    requires pins { cell.now.pins.pins ≤ length cell.now.nets }
    requires directions { length cell.now.directions ≡ cell.now.pins.pins }
    requires shapes { length drawn.now.drawing.shapes.rects < MOST_SHAPES }
    requires readable { IsReadable cell.now.name (final_of drawn.now).shapes unit_nm }
    ensures library { IfOk result (λ parts. named parts.library
        ≡ gds_file stem.now (written cell.now.name (final_of drawn.now).shapes unit_nm)) }
    ensures summary { IfOk result (λ parts. named parts.summary
        ≡ lef_file stem.now (cell_text cell.now routing.now drawn.now.drawing unit_nm)) }
    ensures report { IfOk result (λ parts. parts.report ≡ first_line status.Done
        ++ plan_text cell.now.name cell.now.nets row.now
        ++ sizes_with routing.now.tracks evidence.now.fewest drawn.now.drawing.width drawn.now.drawing.height
        ++ evidence.now.counts) }
{
    let drawing = &drawn.drawing;
    let report = drawn_report(alloc, cell, row, routing.tracks, drawing, evidence)?;
    let library = gds_file(alloc, cell, stem, drawn.final_drawing(), unit_nm)?;
    let summary = lef_file(alloc, cell, stem, routing, drawing, unit_nm)?;
    Ok(DrawnParts {
        library,
        summary,
        report,
    })
}

// The end of a drawn row: the files of its evidence, then its drawing, then its abstract.
fn drawn_files(files: OutputList, parts: DrawnParts) -> Result<End, NoMemory>
    ensures { IfOk result (IsEnd status.Done (evidence_files files ++ named parts.library ∷ named parts.summary ∷ [])
        parts.report) }
{
    let mut files = files;
    files.push(parts.library)?;
    files.push(parts.summary)?;
    Ok(End::makes(Status::Done, files, parts.report))
}

// The end of a drawn row; with taps where there are taps.
fn with_drawing(
    alloc: Global,
    cell: &Subckt,
    stem: &Stem,
    row: &Arrangement,
    evidence: RowEvidence,
    routing: &Routing,
    drawn: &Drawn,
    unit_nm: u32,
) -> Result<End, NoMemory>
    requires columns { length row.now ≤ 64 }
    requires pins { cell.now.pins.pins ≤ length cell.now.nets }
    requires directions { length cell.now.directions ≡ cell.now.pins.pins }
    requires shapes { length drawn.now.drawing.shapes.rects < MOST_SHAPES }
    requires readable { IsReadable cell.now.name (final_of drawn.now).shapes unit_nm }
    ensures { IfOk result (IsDrawnEnd cell.now stem.now row.now (shown evidence) routing.now drawn.now.drawing
        (final_of drawn.now) unit_nm) }
{
    let parts = drawn_parts(alloc, cell, stem, row, &evidence, routing, drawn, unit_nm)?;
    drawn_files(evidence.files, parts)
}

/// The end of a row that makes the files of its evidence alone.
pub(crate) fn evidence_end(status: Status, files: OutputList, report: Bytes) -> End
    ensures { IsEnd status (evidence_files files) report result }
{
    End::makes(status, files, report)
}

/// The end of a row: its drawing; or its evidence alone, with a cycle of its nets or a height that is not enough.
pub(crate) fn row_end(
    alloc: Global,
    inputs: &Inputs,
    stem: &Stem,
    style: Style,
    row: &Arrangement,
    came: &DrawOutcome,
    evidence: RowEvidence,
) -> Result<End, NoMemory>
    requires columns { length row.now ≤ 64 }
    requires exact { IsRowDrawnBy style inputs.now row.now came.now }
    requires written { CanRowBeWritten inputs.now came.now }
    ensures { IfOk result (IsRowEnd style inputs.now stem.now row.now (shown evidence) (row_answer came.now)) }
{
    inputs.show_limits();
    let cell = &inputs.cell;
    match came {
        DrawOutcome::Drawn { routing, drawn, .. } => with_drawing(
            alloc,
            cell,
            stem,
            row,
            evidence,
            routing,
            drawn,
            inputs.unit_nm(),
        ),
        DrawOutcome::Cyclic { ring, .. } => {
            let report = cycle_report(alloc, &cell.nets, ring)?;
            Ok(evidence_end(Status::Cycle, evidence.files, report))
        }
        DrawOutcome::Tall { needed, given, .. } => {
            let report = tall_report(alloc, evidence.fewest.as_slice(), *needed, *given)?;
            Ok(evidence_end(Status::TooTall, evidence.files, report))
        }
    }
}
