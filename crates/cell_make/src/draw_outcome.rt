ghost use Rattle.std.specs.Prelude.{◌≡◌, IfOk};
ghost use Rattle.row_model.specs.Arrangement.{IsArrangement};
ghost use Rattle.row_place.specs.Places.{IsPlacement, placement_of};
ghost use Rattle.cell_make.specs.Rows.{CanRowBeWritten, ComesAs, ComesFrom, IsThat, IsWired, LiesRowInFrame};
ghost use Rattle.cell_make.specs.Style.{AreLegal};

use crate::channel::{ChannelStop, route_by};
use crate::drawn::{Drawn, draw_routed};
use cell_draw::DrawFault;
use cell_inputs::{Inputs, Style};
use cell_num::NoMemory;
use channel_route::{Ring, Routing};
use row_model::Arrangement;
use row_place::{Placement, place};
use std::alloc::Global;

/// What drawing a row results in.
#[derive(Drop)]
pub enum DrawOutcome {
    /// The row on its lines, drawn.
    Drawn {
        placement: Placement,
        routing: Routing,
        drawn: Drawn,
    },
    /// Nets of the row, or parts of them, are above each other in a cycle.
    Cyclic {
        placement: Placement,
        ring: Ring,
    },
    /// The given height is below the one that the routed row needs.
    Tall {
        placement: Placement,
        routing: Routing,
        needed: u32,
        given: u32,
    },
}

// Draws the row with this legal routing.
fn of_routed(
    alloc: Global,
    inputs: &Inputs,
    style: Style,
    placement: Placement,
    routing: Routing,
) -> Result<DrawOutcome, NoMemory>
    requires arranged { IsArrangement placement.row inputs.now.fingers }
    requires placed { placement ≡ placement_of placement.row }
    requires places { IsPlacement placement }
    requires legal { AreLegal style.wiring placement inputs.now.cell.pins routing }
    ensures comes { IfOk result (ComesAs (IsThat routing) style inputs.now placement.row) }
    ensures wired { IfOk result IsWired }
    ensures written { IfOk result (CanRowBeWritten inputs.now) }
    ensures extent { IfOk result (LiesRowInFrame inputs.now) }
{
    inputs.show_limits();
    match draw_routed(
        alloc,
        style,
        &inputs.cell,
        &placement,
        &routing,
        inputs.height(),
    ) {
        Ok(drawn) => Ok(DrawOutcome::Drawn {
            placement,
            routing,
            drawn,
        }),
        Err(DrawFault::TooTall { needed, given }) => Ok(DrawOutcome::Tall {
            placement,
            routing,
            needed,
            given,
        }),
        Err(DrawFault::NoMemory) => Err(NoMemory),
    }
}

impl DrawOutcome {
    /// The drawing of an arrangement of the fingers in this style; or a cycle of its nets, or a height that is not
    /// enough. A drawing can be written.
    pub fn of(
        alloc: Global,
        inputs: &Inputs,
        style: Style,
        row: &Arrangement,
    ) -> Result<DrawOutcome, NoMemory>
        requires { IsArrangement row.now inputs.now.fingers }
        ensures comes { IfOk result (ComesFrom style inputs.now row.now) }
        ensures written { IfOk result (CanRowBeWritten inputs.now) }
        ensures extent { IfOk result (LiesRowInFrame inputs.now) }
    {
        inputs.show_limits();
        let placement = place(alloc, row)?;
        match route_by(alloc, style.wiring, &placement, &inputs.cell.pins) {
            Ok(routing) => of_routed(alloc, inputs, style, placement, routing),
            Err(ChannelStop::Ring(ring)) => Ok(DrawOutcome::Cyclic { placement, ring }),
            Err(ChannelStop::NoMemory) => Err(NoMemory),
        }
    }

    /// The drawing in this style of an arrangement of the fingers on its lines, with this legal routing; or a height
    /// that is not enough. A drawing can be written.
    pub fn lowest(
        alloc: Global,
        inputs: &Inputs,
        style: Style,
        placement: Placement,
        routing: Routing,
    ) -> Result<DrawOutcome, NoMemory>
        requires arranged { IsArrangement placement.row inputs.now.fingers }
        requires placed { placement ≡ placement_of placement.row }
        requires legal { AreLegal style.wiring placement inputs.now.cell.pins routing }
        // with that routing
        ensures comes { IfOk result (ComesAs (IsThat routing) style inputs.now placement.row) }
        ensures wired { IfOk result IsWired }
        ensures written { IfOk result (CanRowBeWritten inputs.now) }
        ensures extent { IfOk result (LiesRowInFrame inputs.now) }
    {
        inputs.show_limits();
        of_routed(alloc, inputs, style, placement, routing)
    }
}
