ghost use Rattle.std.specs.Prelude.{IfOk, MatchOption};
ghost use Rattle.row_model.specs.Arrangement.{IsArrangement};
ghost use Rattle.cell_make.specs.LowRows.{CanBeRouted, IsRinged, IsWired};

use crate::channel::{ChannelStop, route_by};
use cell_inputs::{Inputs, Wiring};
use cell_num::NoMemory;
use channel_route::Ring;
use row_model::Arrangement;
use row_place::place;
use std::alloc::Global;

/// The cycle in which nets of the row, or pieces of them, stand above each other, where they do.
pub(crate) fn ring_of(
    alloc: Global,
    inputs: &Inputs,
    wiring: Wiring,
    row: &Arrangement,
) -> Result<Option<Ring>, NoMemory>
    requires { IsArrangement row.now inputs.now.fingers }
    ensures ring { IfOk result (λ found. MatchOption found (IsWired wiring inputs.now row.now)
        (IsRinged wiring inputs.now row.now)) }
    ensures routed { IfOk result (λ _. CanBeRouted wiring inputs.now row.now) }
{
    inputs.show_limits();
    let placement = place(alloc, row)?;
    match route_by(alloc, wiring, &placement, &inputs.cell.pins) {
        Ok(routing) => {
            drop(routing);
            Ok(None)
        }
        Err(ChannelStop::Ring(ring)) => Ok(Some(ring)),
        Err(ChannelStop::NoMemory) => Err(NoMemory),
    }
}
