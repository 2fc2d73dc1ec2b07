// Cells that are routed and drawn in pieces.

ghost use Rattle.std.specs.Prelude.{◌≤◌, IfOk, length};
ghost use Rattle.cell_num.specs.Pins.{ArePins};
ghost use Rattle.row_place.specs.Places.{IsPlacement};
ghost use Rattle.row_place.specs.Trunks.{HasPins};
ghost use Rattle.row_compact.specs.Allowed.{AreAllowed, stretches_of};
ghost use Rattle.dogleg_route.specs.Routings.{ArePiecesLegal};
ghost use Rattle.cell_draw.specs.Sound.{IsSoundRow};

use crate::inverters::{Cell, inverter};
use cell_draw::{DrawFault, Drawing, MOST_X};
use cell_num::{NoMemory, Pins};
use dogleg_route::{PieceRouting, draw_pieces, piece_distances, route_pieces};
use row_compact::{LineXs, least_lines, lines_of, x_of};
use row_place::{Placement, place};
use std::alloc::Global;
use std::test::Fail;

fn lines(
    alloc: Global,
    placement: &Placement,
    routing: &PieceRouting,
    pins: &Pins,
) -> Result<LineXs, NoMemory>
    requires placement { IsPlacement placement.now }
    requires routing { ArePiecesLegal placement.now pins.now routing.now }
    ensures { IfOk result (λ xs. AreAllowed placement.now pins.now (stretches_of routing.now.pieces) xs) }
{
    let distances = piece_distances(alloc, placement, routing, pins)?;
    least_lines(alloc, &distances)
}

fn drawn_by(
    alloc: Global,
    cell: &Cell,
    placement: &Placement,
    routing: &PieceRouting,
) -> Result<Drawing, DrawFault>
    requires placement { IsPlacement placement.now }
    requires row { IsSoundRow cell.now.names cell.now.pins placement.now.row }
    requires routing { ArePiecesLegal placement.now cell.now.pins routing.now }
{
    let xs = lines(alloc, placement, routing, &cell.pins)?;
    if x_of(xs.as_slice(), lines_of(placement) - 1) > MOST_X {
        return Err(DrawFault::NoMemory);
    }
    draw_pieces(alloc, &cell.names, &cell.pins, placement, routing, &xs, 0)
}

fn drawn_in(alloc: Global, cell: &Cell, placement: &Placement) -> Result<Drawing, DrawFault>
    requires placement { IsPlacement placement.now }
    requires row { IsSoundRow cell.now.names cell.now.pins placement.now.row }
    requires pins { HasPins placement.now cell.now.pins }
{
    match route_pieces(alloc, placement, &cell.pins) {
        Ok(routing) => drawn_by(alloc, cell, placement, &routing),
        Err(_) => Err(DrawFault::NoMemory),
    }
}

// A cell on its least lines. A cycle gives NoMemory, which no row of the tests expects.
fn drawn_in_pieces(alloc: Global, cell: &Cell) -> Result<Drawing, DrawFault>
    requires sound { IsSoundRow cell.now.names cell.now.pins cell.now.row }
    requires pins { ArePins (length cell.now.names) cell.now.pins }
    requires few { length cell.now.row ≤ 32 }
{
    let placement = place(alloc, &cell.row)?;
    let drawing = drawn_in(alloc, cell, &placement);
    drop(placement);
    drawing
}

// Its nets have no inner places, so it is drawn as with trunks.
#[test]
fn draws_the_inverter_in_pieces(rt: HostRuntime) -> Result<(), Fail> {
    let cell = inverter(rt.alloc())?;
    let drawing = drawn_in_pieces(rt.alloc(), &cell);
    drop(cell);
    let drawing = drawing?;
    assert!(rt; (drawing.width, drawing.height, drawing.shapes.rects.len()) == (41, 118, 29));
    Ok(())
}
