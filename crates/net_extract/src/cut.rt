// Pieces without the shapes of a layer.
ghost use Rattle.std.specs.Prelude.{◌≡◌, ◌++◌, ◌∷◌, [], IfOk, OnOk};
ghost use Rattle.std.specs.List.{flat_map};
ghost use Rattle.net_extract.specs.Cuts.{is_some_piece, kept, left_part, right_part, low_part, high_part};
ghost use Rattle.net_extract.specs.Cuts.{around, carved, carved_once, left_of_piece, left_of_pieces, cut_all};

use crate::bond::meets;
use crate::layers::on_layer;
use crate::piece::Piece;
use box_geom::{Layer, Rect, Shape};
use cell_num::{List, NoMemory};
use std::alloc::Global;

fn has_cells(piece: &Piece) -> bool
    ensures { result ≡ is_some_piece piece.now }
{
    piece.left < piece.right && piece.low < piece.top
}

pub(crate) fn keep(out: &mut List<Piece>, piece: Piece) -> Result<(), NoMemory>
    ensures { OnOk result (out.new ≡ out.old ++ kept piece) }
{
    if has_cells(&piece) {
        out.push(piece)
    } else {
        Ok(())
    }
}

fn left_of(piece: &Piece, rect: &Rect) -> Piece
    ensures { result ≡ left_part piece.now rect.now }
{
    Piece {
        right: piece.right.min(rect.x1),
        ..*piece
    }
}

fn right_of(piece: &Piece, rect: &Rect) -> Piece
    ensures { result ≡ right_part piece.now rect.now }
{
    Piece {
        left: piece.left.max(rect.x2),
        ..*piece
    }
}

fn below(piece: &Piece, rect: &Rect) -> Piece
    ensures { result ≡ low_part piece.now rect.now }
{
    Piece {
        left: piece.left.max(rect.x1),
        top: piece.top.min(rect.y1),
        right: piece.right.min(rect.x2),
        ..*piece
    }
}

fn above(piece: &Piece, rect: &Rect) -> Piece
    ensures { result ≡ high_part piece.now rect.now }
{
    Piece {
        low: piece.low.max(rect.y2),
        left: piece.left.max(rect.x1),
        right: piece.right.min(rect.x2),
        ..*piece
    }
}

fn keep_around(out: &mut List<Piece>, piece: &Piece, rect: &Rect) -> Result<(), NoMemory>
    ensures { OnOk result (out.new ≡ out.old ++ around rect.now piece.now) }
{
    keep(out, left_of(piece, rect))?;
    keep(out, right_of(piece, rect))?;
    keep(out, below(piece, rect))?;
    keep(out, above(piece, rect))
}

fn keep_carved(out: &mut List<Piece>, piece: &Piece, rect: &Rect) -> Result<(), NoMemory>
    ensures { OnOk result (out.new ≡ out.old ++ carved rect.now piece.now) }
{
    if meets(piece, rect) {
        keep_around(out, piece, rect)
    } else {
        out.push(*piece)
    }
}

fn cut_by(alloc: Global, parts: &[Piece], rect: &Rect) -> Result<List<Piece>, NoMemory>
    ensures { IfOk result (λ ps. ps ≡ flat_map (carved rect.now) parts.now) }
{
    let mut out = List::new(alloc);
    for part in parts {
        keep_carved(&mut out, part, rect)?;
    }
    Ok(out)
}

// The parts of a piece without one more shape.
fn cut_once(
    alloc: Global,
    parts: List<Piece>,
    piece: &Piece,
    shape: &Shape,
) -> Result<List<Piece>, NoMemory>
    ensures { IfOk result (λ ps. ps ≡ carved_once piece.now parts shape.now) }
{
    if meets(piece, &shape.rect) {
        cut_by(alloc, parts.as_slice(), &shape.rect)
    } else {
        Ok(parts)
    }
}

fn only(alloc: Global, piece: &Piece) -> Result<List<Piece>, NoMemory>
    ensures { IfOk result (λ ps. ps ≡ piece.now ∷ []) }
{
    let mut out = List::new(alloc);
    out.push(*piece)?;
    Ok(out)
}

fn cut_piece(alloc: Global, piece: &Piece, shapes: &[Shape]) -> Result<List<Piece>, NoMemory>
    ensures { IfOk result (λ ps. ps ≡ left_of_piece shapes.now piece.now) }
{
    let mut parts = only(alloc, piece)?;
    for shape in shapes {
        parts = cut_once(alloc, parts, piece, shape)?;
    }
    Ok(parts)
}

fn keep_left(
    alloc: Global,
    out: &mut List<Piece>,
    piece: &Piece,
    shapes: &[Shape],
) -> Result<(), NoMemory>
    ensures { OnOk result (out.new ≡ out.old ++ left_of_piece shapes.now piece.now) }
{
    let parts = cut_piece(alloc, piece, shapes)?;
    out.extend(parts.as_slice())
}

fn cut_pieces(alloc: Global, pieces: &[Piece], shapes: &[Shape]) -> Result<List<Piece>, NoMemory>
    ensures { IfOk result (λ ps. ps ≡ left_of_pieces shapes.now pieces.now) }
{
    let mut out = List::new(alloc);
    for piece in pieces {
        keep_left(alloc, &mut out, piece, shapes)?;
    }
    Ok(out)
}

/// What is left of pieces without the shapes of a layer.
pub(crate) fn without(
    alloc: Global,
    pieces: &[Piece],
    shapes: &[Shape],
    layer: Layer,
) -> Result<List<Piece>, NoMemory>
    ensures { IfOk result (λ ps. ps ≡ cut_all layer pieces.now shapes.now) }
{
    let shapes = on_layer(alloc, shapes, layer)?;
    cut_pieces(alloc, pieces, shapes.as_slice())
}
