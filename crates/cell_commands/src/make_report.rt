ghost use Rattle.std.specs.Prelude.{◌≡◌, ◌≤◌, ◌++◌, IfOk, length};
ghost use Rattle.call_end.specs.declared.status.Status.TheVariants as status;
ghost use Rattle.call_end.specs.Status.{first_line};
ghost use Rattle.cell_report.specs.Cells.{sizes_with};
ghost use Rattle.cell_report.specs.Rows.{plan_text};

use crate::evidence::RowEvidence;
use call_end::Status;
use cell_draw::Drawing;
use cell_num::{Bytes, NoMemory};
use cell_report::{put_plan, put_sizes};
use row_model::Arrangement;
use spice_net::Subckt;
use std::alloc::Global;

/// The report of a drawn row with its evidence.
pub(crate) fn drawn_report(
    alloc: Global,
    cell: &Subckt,
    row: &Arrangement,
    tracks: u32,
    drawing: &Drawing,
    evidence: &RowEvidence,
) -> Result<Bytes, NoMemory>
    requires { length row.now ≤ 64 }
    ensures { IfOk result (λ report. report ≡ first_line status.Done ++ plan_text cell.now.name cell.now.nets row.now
        ++ sizes_with tracks evidence.now.fewest drawing.now.width drawing.now.height ++ evidence.now.counts) }
{
    let mut report = Status::Done.report(alloc)?;
    put_plan(&mut report, &cell.name, &cell.nets, row)?;
    put_sizes(
        &mut report,
        tracks,
        evidence.fewest.as_slice(),
        drawing.width,
        drawing.height,
    )?;
    report.extend(evidence.counts.as_slice())?;
    Ok(report)
}
