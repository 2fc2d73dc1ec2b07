// The classes of the cells of a set, as the nets of the set drawn in poly.
ghost use Rattle.std.specs.Prelude.{◌≡◌, All, IfOk, map};
ghost use Rattle.box_geom.specs.Rectangle.{IsRectangle};
ghost use Rattle.net_extract.specs.Corners.{HaveFewSides};
ghost use Rattle.net_extract.specs.Cuts.{poly_of};
ghost use Rattle.net_extract.specs.GateNets.{AreGateNets, AreWellNets};
ghost use Rattle.net_extract.specs.Pieces.{rect_of};

use crate::conductor::gate_pieces;
use crate::connections::{Connections, connections_of};
use crate::piece::{Conductor, Piece};
use crate::shared::drawn;
use box_geom::{Layer, Rect, Shape};
use cell_num::NoMemory;
use std::alloc::Global;

fn poly_shape(piece: &Piece) -> Shape
    requires { IsRectangle (rect_of piece.now) }
    ensures { result ≡ poly_of piece.now }
{
    Shape {
        layer: Layer::Poly,
        rect: Rect {
            x1: piece.left,
            y1: piece.low,
            x2: piece.right,
            y2: piece.top,
        },
    }
}

fn poly_shapes(alloc: Global, pieces: &[Piece]) -> Result<Vec<Shape>, NoMemory>
    requires { All (λ p. IsRectangle (rect_of p)) pieces.now }
    ensures { IfOk result (λ shapes. shapes.items ≡ map poly_of pieces.now) }
{
    let mut shapes = Vec::new(alloc);
    for piece in pieces {
        shapes.push(poly_shape(piece)).map_err(|_| NoMemory)?;
    }
    Ok(shapes)
}

/// The classes of gate cells.
pub(crate) fn gate_map(alloc: Global, shapes: &[Shape]) -> Result<Connections, NoMemory>
    requires limits { All (λ s. IsRectangle s.rect) shapes.now }
    requires few { HaveFewSides shapes.now }
    ensures { IfOk result (λ m. AreGateNets shapes.now m.wires.items m.firsts.items) }
{
    let pieces = gate_pieces(alloc, shapes)?;
    let gates = poly_shapes(alloc, pieces.as_slice())?;
    connections_of(alloc, gates.as_slice())
}

/// The classes of well cells.
pub(crate) fn well_map(alloc: Global, shapes: &[Shape]) -> Result<Connections, NoMemory>
    requires limits { All (λ s. IsRectangle s.rect) shapes.now }
    requires few { HaveFewSides shapes.now }
    ensures { IfOk result (λ m. AreWellNets shapes.now m.wires.items m.firsts.items) }
{
    let pieces = drawn(alloc, shapes, Layer::Well, Conductor::Poly)?;
    let wells = poly_shapes(alloc, pieces.as_slice())?;
    connections_of(alloc, wells.as_slice())
}
