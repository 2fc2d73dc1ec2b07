ghost use Rattle.std.specs.Prelude.{IfOk};
ghost use Rattle.row_model.specs.Arrangement.{IsArrangement};
ghost use Rattle.cell_commands.specs.Make.{IsDrawnTo};
ghost use Rattle.cell_commands.specs.Evidence.{shown};

use crate::evidence::RowEvidence;
use crate::make_end::row_end;
use call_end::{End, Stem};
use cell_inputs::{Inputs, Style};
use cell_make::DrawOutcome;
use cell_num::NoMemory;
use row_model::Arrangement;
use std::alloc::Global;

/// The row, drawn, with its evidence. The drawing is dropped by a call: where it goes out of scope by itself, all its
/// parts are proved at once, and that takes minutes.
pub(crate) fn drawn(
    alloc: Global,
    inputs: &Inputs,
    stem: &Stem,
    style: Style,
    row: &Arrangement,
    evidence: RowEvidence,
) -> Result<End, NoMemory>
    requires arranged { IsArrangement row.now inputs.now.fingers }
    ensures { IfOk result (IsDrawnTo style inputs.now stem.now row.now (shown evidence)) }
{
    inputs.show_limits();
    let came = DrawOutcome::of(alloc, inputs, style, row)?;
    let end = row_end(alloc, inputs, stem, style, row, &came, evidence);
    drop(came);
    end
}
