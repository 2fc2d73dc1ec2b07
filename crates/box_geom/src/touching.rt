ghost use Rattle.std.specs.Prelude.{◌≡◌, ◌↔◌, ◌⊎◌, IsTrue, IfSome, IsNone};
ghost use Rattle.box_geom.specs.Comparisons.{beside, stacked, touching, gap_between};
ghost use Rattle.box_geom.specs.Touching.{Touch, Overlap, Face, FaceInNeither};

use crate::rect::Rect;
use crate::span::{gap, overlap, reach};

fn is_beside(a: &Rect, b: &Rect) -> bool
    ensures { result ≡ beside a.now b.now }
{
    reach(a.x1, a.x2, b.x1, b.x2) && overlap(a.y1, a.y2, b.y1, b.y2)
}

fn is_stacked(a: &Rect, b: &Rect) -> bool
    ensures { result ≡ stacked a.now b.now }
{
    overlap(a.x1, a.x2, b.x1, b.x2) && reach(a.y1, a.y2, b.y1, b.y2)
}

fn do_sides_meet(a: &Rect, b: &Rect) -> bool
    ensures { result ≡ touching a.now b.now }
{
    is_beside(a, b) || is_stacked(a, b)
}

/// Whether two rectangles share a cell or a piece of an edge. A corner alone does not count.
#[tactic(auto, using(crate::proofs::Meeting::touch_decides))]
pub fn touches(a: &Rect, b: &Rect) -> bool
    ensures { IsTrue result ↔ Touch a.now b.now }
{
    a.show_limits();
    b.show_limits();
    do_sides_meet(a, b)
}

fn distance(a: &Rect, b: &Rect) -> Option<u32>
    ensures { result ≡ gap_between a.now b.now }
{
    let rows = overlap(a.y1, a.y2, b.y1, b.y2);
    let columns = overlap(a.x1, a.x2, b.x1, b.x2);
    match (rows, columns) {
        (true, false) => Some(gap(a.x1, a.x2, b.x1, b.x2)),
        (false, true) => Some(gap(a.y1, a.y2, b.y1, b.y2)),
        _ => None,
    }
}

/// The distance of facing edges, in grid units. None where the rectangles overlap or face in
/// neither direction.
#[tactic(auto, using(crate::proofs::Facing::faces, crate::proofs::Facing::faces_not))]
pub fn facing_gap(a: &Rect, b: &Rect) -> Option<u32>
    ensures some { IfSome result (λ d. Face a.now b.now d) }
    ensures none { IsNone result ↔ (Overlap a.now b.now ⊎ FaceInNeither a.now b.now) }
{
    a.show_limits();
    b.show_limits();
    distance(a, b)
}
