// Shapes as pieces, and what pieces have in common with shapes.
ghost use Rattle.std.specs.Prelude.{◌≡◌, ◌++◌, IfOk, OnOk};
ghost use Rattle.std.specs.List.{flat_map};
ghost use Rattle.net_extract.specs.Cuts.{common_part, shared_part, shared_once, shared_all};
ghost use Rattle.net_extract.specs.Cuts.{drawn_once, drawn_all};
ghost use Rattle.net_extract.specs.Pieces.{piece_of};

use crate::cut::keep;
use crate::piece::{Conductor, Piece};
use box_geom::{Layer, Rect, Shape};
use cell_num::{List, NoMemory};
use std::alloc::Global;

fn common(piece: &Piece, rect: &Rect) -> Piece
    ensures { result ≡ common_part piece.now rect.now }
{
    Piece {
        low: piece.low.max(rect.y1),
        left: piece.left.max(rect.x1),
        kind: piece.kind,
        top: piece.top.min(rect.y2),
        right: piece.right.min(rect.x2),
    }
}

fn keep_common(out: &mut List<Piece>, pieces: &[Piece], rect: &Rect) -> Result<(), NoMemory>
    ensures { OnOk result (out.new ≡ out.old ++ flat_map (shared_part rect.now) pieces.now) }
{
    for piece in pieces {
        keep(out, common(piece, rect))?;
    }
    Ok(())
}

fn keep_shared(
    out: &mut List<Piece>,
    pieces: &[Piece],
    layer: Layer,
    shape: &Shape,
) -> Result<(), NoMemory>
    ensures { OnOk result (out.new ≡ out.old ++ shared_once layer pieces.now shape.now) }
{
    if shape.is_on(layer) {
        keep_common(out, pieces, &shape.rect)
    } else {
        Ok(())
    }
}

/// What pieces have in common with the shapes of a layer.
pub(crate) fn within(
    alloc: Global,
    pieces: &[Piece],
    shapes: &[Shape],
    layer: Layer,
) -> Result<List<Piece>, NoMemory>
    ensures { IfOk result (λ ps. ps ≡ shared_all layer pieces.now shapes.now) }
{
    let mut out = List::new(alloc);
    for shape in shapes {
        keep_shared(&mut out, pieces, layer, shape)?;
    }
    Ok(out)
}

fn piece(kind: Conductor, rect: &Rect) -> Piece
    ensures { result ≡ piece_of kind rect.now }
{
    Piece {
        low: rect.y1,
        left: rect.x1,
        kind,
        top: rect.y2,
        right: rect.x2,
    }
}

fn add_drawn(
    out: &mut List<Piece>,
    kind: Conductor,
    layer: Layer,
    shape: &Shape,
) -> Result<(), NoMemory>
    ensures { OnOk result (out.new ≡ out.old ++ drawn_once kind layer shape.now) }
{
    if shape.is_on(layer) {
        out.push(piece(kind, &shape.rect))
    } else {
        Ok(())
    }
}

/// The shapes of a layer as pieces of a kind.
pub(crate) fn drawn(
    alloc: Global,
    shapes: &[Shape],
    layer: Layer,
    kind: Conductor,
) -> Result<List<Piece>, NoMemory>
    ensures { IfOk result (λ ps. ps ≡ drawn_all kind layer shapes.now) }
{
    let mut out = List::new(alloc);
    for shape in shapes {
        add_drawn(&mut out, kind, layer, shape)?;
    }
    Ok(out)
}
