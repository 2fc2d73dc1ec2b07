// Whether two pieces are of one kind and touch, or a contact or a via links them.
ghost use Rattle.std.specs.Prelude.{◌≡◌, ◌↔◌, ◌∷◌, [], IsTrue};
ghost use Rattle.box_geom.specs.Comparisons.{beside, stacked, touching};
ghost use Rattle.box_geom.specs.Rectangle.{IsProper};
ghost use Rattle.scmos_rules.specs.declared.rules.Deck.TheVariants.{Plain};
ghost use Rattle.net_extract.specs.Meetings.{sharing, crossing_across, crossing_upward, crossing};
ghost use Rattle.net_extract.specs.Meetings.{sharing_cell, linking, links_kind, is_reached, bonding};
ghost use Rattle.net_extract.specs.Bonds.{AreJoined, Bond};
ghost use Rattle.net_extract.specs.Pieces.{rect_of, link_layer};

use crate::piece::{Conductor, Piece};
use box_geom::{Layer, Rect, Shape, overlap, reach};

// Whether three spans have a place in common.
#[tactic(auto, unfolding(crate::specs::Meetings::sharing))]
fn share(a: i32, b: i32, c: i32, d: i32, e: i32, f: i32) -> bool
    ensures { result ≡ sharing a b c d e f }
{
    let low = a.max(c).max(e);
    let high = b.min(d).min(f);
    low < high
}

fn is_beside(a: &Piece, b: &Piece) -> bool
    ensures { result ≡ beside (rect_of a.now) (rect_of b.now) }
{
    reach(a.left, a.right, b.left, b.right) && overlap(a.low, a.top, b.low, b.top)
}

fn is_stacked(a: &Piece, b: &Piece) -> bool
    ensures { result ≡ stacked (rect_of a.now) (rect_of b.now) }
{
    overlap(a.left, a.right, b.left, b.right) && reach(a.low, a.top, b.low, b.top)
}

fn touches(a: &Piece, b: &Piece) -> bool
    ensures { result ≡ touching (rect_of a.now) (rect_of b.now) }
{
    is_beside(a, b) || is_stacked(a, b)
}

fn share_column(a: &Piece, b: &Piece, c: &Rect) -> bool
    ensures { result ≡ crossing_across (rect_of a.now) (rect_of b.now) c.now }
{
    share(a.left, a.right, b.left, b.right, c.x1, c.x2)
}

fn share_row(a: &Piece, b: &Piece, c: &Rect) -> bool
    ensures { result ≡ crossing_upward (rect_of a.now) (rect_of b.now) c.now }
{
    share(a.low, a.top, b.low, b.top, c.y1, c.y2)
}

fn crosses(a: &Piece, b: &Piece, c: &Rect) -> bool
    ensures { result ≡ crossing (rect_of a.now) (rect_of b.now) c.now }
{
    share_column(a, b, c) && share_row(a, b, c)
}

/// Whether a piece and a rectangle have a cell in common.
pub(crate) fn meets(piece: &Piece, rect: &Rect) -> bool
    ensures { result ≡ sharing_cell (rect_of piece.now) rect.now }
{
    overlap(piece.left, piece.right, rect.x1, rect.x2)
        && overlap(piece.low, piece.top, rect.y1, rect.y2)
}

fn layer_between(a: Conductor, b: Conductor) -> Option<Layer>
    ensures { result ≡ link_layer a b }
{
    use Conductor::*;
    match (a, b) {
        (Metal1, PDiffusion | NDiffusion | Poly) => Some(Layer::Contact),
        (PDiffusion | NDiffusion | Poly, Metal1) => Some(Layer::Contact),
        (Metal1, Metal2) | (Metal2, Metal1) => Some(Layer::Via),
        _ => None,
    }
}

fn does_link(link: &Shape, a: &Piece, b: &Piece) -> bool
    ensures { result ≡ linking link.now (link_layer a.now.kind b.now.kind) (rect_of a.now) (rect_of b.now) }
{
    match layer_between(a.kind, b.kind) {
        Some(layer) => link.is_on(layer) && crosses(a, b, &link.rect),
        None => false,
    }
}

/// Whether a contact or a via links two pieces: it has a cell that they have in common, and links their kinds.
#[tactic(auto, using(crate::proofs::Linking::link_decides))]
pub(crate) fn are_linked(link: &Shape, a: &Piece, b: &Piece) -> bool
    ensures { IsTrue result ↔ AreJoined (link.now ∷ []) a.now b.now }
{
    does_link(link, a, b)
}

fn links_kind(layer: Layer, kind: Conductor) -> bool
    ensures { result ≡ links_kind layer kind }
{
    match (layer, kind) {
        (Layer::Contact, Conductor::Metal2) => false,
        (Layer::Contact, _) => true,
        (Layer::Via, Conductor::Metal1 | Conductor::Metal2) => true,
        _ => false,
    }
}

/// Whether a piece is of a kind that a contact or a via links, and has a cell in common with it.
pub(crate) fn does_reach(link: &Shape, piece: &Piece) -> bool
    ensures { result ≡ is_reached link.now piece.now }
{
    links_kind(link.layer, piece.kind) && meets(piece, &link.rect)
}

fn do_touch(a: &Piece, b: &Piece) -> bool
    ensures { result ≡ bonding a.now b.now }
{
    a.kind == b.kind && touches(a, b)
}

/// Whether two pieces are of one kind and touch.
#[tactic(auto, using(crate::proofs::Linking::touch_bonds))]
pub(crate) fn are_touching(a: &Piece, b: &Piece) -> bool
    requires one { IsProper (rect_of a.now) }
    requires other { IsProper (rect_of b.now) }
    ensures { IsTrue result ↔ Bond Plain [] a.now b.now }
{
    do_touch(a, b)
}
