// One cell of a row: its first least row drawn, or its lowest one.
ghost use Rattle.std.specs.Prelude.{◌≡◌, ◌≤◌, All, IfErr, IfOk};
ghost use Rattle.cell_draw.specs.Frame.{IsTooTall, frame_of};
ghost use Rattle.cell_draw.specs.Small.{HasWidths};
ghost use Rattle.cell_inputs.specs.declared.style.LeastRow.TheVariants.{First, Lowest};
ghost use Rattle.cell_make.specs.Rows.{CanRowBeWritten, LiesRowInFrame};
ghost use Rattle.cell_make.specs.RowSteps.{IsCellBy, IsFoundLow, IsStopBy, ringed};
ghost use Rattle.cell_make.specs.declared.row_stop.RowStop.TheVariants.{Stopped};

use crate::draw_outcome::DrawOutcome;
use crate::drawn::Drawn;
use crate::low_drawn::LowDrawn;
use crate::outcome::Outcome;
use crate::planned::Planned;
use crate::row_outcome::Undrawn;
use crate::row_stop::RowStop;
use cell_draw::{MOST_TRACKS, channel_edges};
use cell_inputs::{Inputs, Style};
use channel_route::{Ring, Routing};
use row_abut::RowCell;
use row_place::Placement;
use std::alloc::Global;

// A made cell, as one of a row.
fn row_cell(inputs: Inputs, placement: &Placement, routing: &Routing, drawn: Drawn) -> RowCell
    requires widths { All HasWidths placement.now.row }
    requires tracks { routing.now.tracks ≤ MOST_TRACKS }
    requires fits { IsTooTall placement.now.row routing.now.tracks inputs.tech.height → ⊥ }
    ensures name { result.name ≡ inputs.cell.name }
    ensures nets { result.nets ≡ inputs.cell.nets }
    ensures pins { result.pins ≡ inputs.cell.pins }
    ensures drawing { result.drawing ≡ drawn.drawing }
    ensures n { result.edges.n ≡ (frame_of placement.now.row routing.now.tracks inputs.tech.height 16).n_edge }
    ensures p { result.edges.p ≡ (frame_of placement.now.row routing.now.tracks inputs.tech.height 16).p_edge }
{
    let edges = channel_edges(placement, routing.tracks, inputs.height());
    let cell = inputs.into_cell();
    RowCell {
        name: cell.name,
        nets: cell.nets,
        pins: cell.pins,
        drawing: drawn.drawing,
        edges,
    }
}

// A cell that is not made. What is not needed any more is dropped by calls, here and below: where a placed row and its
// channel go out of scope by themselves, all their parts are proved at once, and that takes long.
fn stopped<T: Drop>(inputs: Inputs, unneeded: T, why: Undrawn) -> RowStop
    ensures { result ≡ Stopped inputs why }
{
    drop(unneeded);
    RowStop::Stopped { inputs, why }
}

/// The cell of these inputs, with its first least row.
pub(crate) fn first_cell(alloc: Global, inputs: Inputs) -> Result<RowCell, RowStop>
    ensures made { IfOk result (IsCellBy First inputs) }
    ensures stops { IfErr result (IsStopBy First inputs) }
{
    inputs.show_limits();
    let outcome = Outcome::of(alloc, &inputs, Style::plain())?;
    match outcome {
        Outcome::Made {
            placement,
            log,
            routing,
            drawn,
        } => {
            let cell = row_cell(inputs, &placement, &routing, drawn);
            drop((placement, log, routing));
            Ok(cell)
        }
        Outcome::Cyclic {
            placement,
            log,
            ring,
        } => Err(stopped(inputs, (placement, log), Undrawn::Cyclic { ring })),
        Outcome::Tall {
            placement,
            log,
            routing,
            needed,
            given,
        } => Err(stopped(
            inputs,
            (placement, log, routing),
            Undrawn::Tall { needed, given },
        )),
        Outcome::Unfinished { log, proved } => Err(RowStop::Stopped {
            inputs,
            why: Undrawn::Unfinished { log, proved },
        }),
    }
}

// Why a cycle of the first least row ends it.
fn ringed(ring: Ring, none_wired: bool) -> Undrawn
    ensures { result ≡ ringed ring none_wired }
{
    if none_wired {
        Undrawn::Cyclic { ring }
    } else {
        Undrawn::Unwired { ring }
    }
}

// The lowest row, drawn, as a cell; or why there is no drawing.
fn low_cell(inputs: Inputs, low: LowDrawn) -> Result<RowCell, RowStop>
    requires low { IsFoundLow inputs low }
    requires written { CanRowBeWritten inputs low.came }
    requires extent { LiesRowInFrame inputs low.came }
    ensures made { IfOk result (IsCellBy Lowest inputs) }
    ensures stops { IfErr result (IsStopBy Lowest inputs) }
{
    inputs.show_limits();
    let LowDrawn { came, none_wired } = low;
    match came {
        DrawOutcome::Drawn {
            placement,
            routing,
            drawn,
        } => {
            let cell = row_cell(inputs, &placement, &routing, drawn);
            drop((placement, routing));
            Ok(cell)
        }
        DrawOutcome::Cyclic { placement, ring } => {
            Err(stopped(inputs, placement, ringed(ring, none_wired)))
        }
        DrawOutcome::Tall {
            placement,
            routing,
            needed,
            given,
        } => Err(stopped(
            inputs,
            (placement, routing),
            Undrawn::Tall { needed, given },
        )),
    }
}

/// The cell of these inputs, with its lowest row; where the search for that is open, with the first row that can be
/// wired with the fewest gaps.
pub(crate) fn lowest_cell(alloc: Global, inputs: Inputs) -> Result<RowCell, RowStop>
    ensures made { IfOk result (IsCellBy Lowest inputs) }
    ensures stops { IfErr result (IsStopBy Lowest inputs) }
{
    let planned = Planned::of(alloc, &inputs)?;
    match planned {
        Planned::Found { row, log } => {
            let low = LowDrawn::of(alloc, &inputs, &row)?;
            drop((row, log));
            low_cell(inputs, low)
        }
        Planned::Unfinished { log, proved } => Err(RowStop::Stopped {
            inputs,
            why: Undrawn::Unfinished { log, proved },
        }),
    }
}
