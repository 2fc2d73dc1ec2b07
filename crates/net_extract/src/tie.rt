// Ties of taps by numbers: pieces with taps of one class of well cells have one tie, and those with taps of the
// substrate another.
ghost use Rattle.std.specs.Prelude.{◌≡◌, IfOk};
ghost use Rattle.net_extract.specs.Ties.{well_tie, p_tie, n_tie, tie_of, ties_of};

use crate::area::does_meet;
use crate::connections::Wire;
use crate::lookup::net_of_cell;
use crate::piece::{Conductor, Piece};
use crate::side::whole;
use box_geom::{Layer, Shape};
use cell_num::NoMemory;
use std::alloc::Global;

/// The tie of taps of the substrate; those of wells come after it.
pub(crate) const SUBSTRATE: u64 = 0;

/// The tie of the well that a cell lies in; None outside the well.
pub(crate) fn well_tie(wells: &[Wire], x: i32, y: i32) -> Option<u64>
    ensures { result ≡ well_tie wells.now x y }
{
    net_of_cell(wells, Conductor::Poly, i64::from(x), i64::from(y)).map(|class| u64::from(class)
        + 1)
}

fn p_tie(shapes: &[Shape], wells: &[Wire], piece: &Piece) -> Option<u64>
    ensures { result ≡ p_tie shapes.now wells.now piece.now }
{
    if does_meet(shapes, Layer::NSelect, &whole(piece)) {
        well_tie(wells, piece.left, piece.low)
    } else {
        None
    }
}

fn n_tie(shapes: &[Shape], piece: &Piece) -> Option<u64>
    ensures { result ≡ n_tie shapes.now piece.now }
{
    if does_meet(shapes, Layer::PSelect, &whole(piece)) {
        Some(SUBSTRATE)
    } else {
        None
    }
}

/// What ties a piece to others; None where it has no tap.
pub(crate) fn tie_of(shapes: &[Shape], wells: &[Wire], piece: &Piece) -> Option<u64>
    ensures { result ≡ tie_of shapes.now wells.now piece.now }
{
    match piece.kind {
        Conductor::PDiffusion => p_tie(shapes, wells, piece),
        Conductor::NDiffusion => n_tie(shapes, piece),
        Conductor::Poly | Conductor::Metal1 | Conductor::Metal2 => None,
    }
}

/// The ties of all pieces.
pub(crate) fn ties_of(
    alloc: Global,
    shapes: &[Shape],
    wells: &[Wire],
    pieces: &[Piece],
) -> Result<Vec<Option<u64>>, NoMemory>
    ensures { IfOk result (λ ties. ties.items ≡ ties_of shapes.now wells.now pieces.now) }
{
    let mut ties = Vec::new(alloc);
    for piece in pieces {
        ties.push(tie_of(shapes, wells, piece))
            .map_err(|_| NoMemory)?;
    }
    Ok(ties)
}
