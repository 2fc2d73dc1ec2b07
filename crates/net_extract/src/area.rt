// Whether all cells of an area, or none, are covered on a layer.
ghost use Rattle.std.specs.Prelude.{◌≡◌, ◌↔◌, ◌≤ℤ◌, ◌<ℤ◌, All, IsTrue, IfSome, None};
ghost use Rattle.box_geom.specs.Comparisons.{holding, overlapping};
ghost use Rattle.box_geom.specs.Rectangle.{IsProper};
ghost use Rattle.net_extract.specs.Areas.{cells_in, holder, meeting_across, meeting_upward};
ghost use Rattle.net_extract.specs.Areas.{meeting, meeting_any, IsFull, IsFree, AreRows};

use crate::layers::Layers;
use crate::lookup::is_within;
use box_geom::{Layer, Rect, Shape};

/// Cells from (x1, y1) to before (x2, y2).
#[derive(Clone, Copy, Debug)]
pub struct Area {
    pub x1: i64,
    pub y1: i64,
    pub x2: i64,
    pub y2: i64,
}

fn holds(rect: &Rect, x: i64, y: i64) -> bool
    ensures { result ≡ holding rect.now x y }
{
    is_within(rect.x1, rect.x2, x) && is_within(rect.y1, rect.y2, y)
}

fn rect_at(shapes: &[Shape], layer: Layer, x: i64, y: i64) -> Option<Rect>
    ensures { result ≡ holder shapes.now layer x y }
{
    shapes
        .iter()
        .find(|shape| shape.is_on(layer) && holds(&shape.rect, x, y))
        .map(|shape| shape.rect)
}

#[tactic(auto, unfolding(box_geom::specs::Comparisons::overlapping))]
fn do_overlap(a: i64, b: i64, c: i32, d: i32) -> bool
    ensures { result ≡ overlapping a b c d }
{
    a < i64::from(d) && i64::from(c) < b
}

fn meets_across(area: &Area, rect: &Rect) -> bool
    ensures { result ≡ meeting_across (cells_in area.now) rect.now }
{
    do_overlap(area.x1, area.x2, rect.x1, rect.x2)
}

fn meets_upward(area: &Area, rect: &Rect) -> bool
    ensures { result ≡ meeting_upward (cells_in area.now) rect.now }
{
    do_overlap(area.y1, area.y2, rect.y1, rect.y2)
}

fn meets(area: &Area, rect: &Rect) -> bool
    ensures { result ≡ meeting (cells_in area.now) rect.now }
{
    meets_across(area, rect) && meets_upward(area, rect)
}

/// Whether the area has a cell in common with a shape of the layer.
pub(crate) fn does_meet(shapes: &[Shape], layer: Layer, area: &Area) -> bool
    ensures { result ≡ meeting_any shapes.now layer (cells_in area.now) }
{
    shapes
        .iter()
        .any(|shape| shape.is_on(layer) && meets(area, &shape.rect))
}

#[tactic(auto, using(crate::proofs::Filling::free_decides))]
fn is_area_free(shapes: &[Shape], layer: Layer, area: &Area) -> bool
    requires area { IsProper (cells_in area.now) }
    requires shapes { All (λ s. IsProper s.rect) shapes.now }
    ensures { IsTrue result ↔ IsFree shapes.now layer (cells_in area.now) }
{
    !does_meet(shapes, layer, area)
}

// Up to which row the cells from row y on are covered, at most to the area's end; None where some cell is not.
fn covered_rows(shapes: &[Shape], layer: Layer, area: &Area, y: i64) -> Option<i64>
    requires area { IsProper (cells_in area.now) }
    requires low { area.now.y1 ≤ℤ y }
    requires high { y <ℤ area.now.y2 }
    ensures some { IfSome result (λ top. AreRows shapes.now layer (cells_in area.now) y top) }
    ensures none { result ≡ None → IsFull shapes.now layer (cells_in area.now) → ⊥ }
{
    let mut at = area.x1;
    let mut top = area.y2;
    'places: while at < area.x2 {
        match rect_at(shapes, layer, at, y) {
            Some(rect) => {
                at = i64::from(rect.x2).min(area.x2);
                top = i64::from(rect.y2).min(top);
            }
            None => return None,
        }
    }
    Some(top)
}

fn is_area_full(shapes: &[Shape], layer: Layer, area: &Area) -> bool
    requires { IsProper (cells_in area.now) }
    ensures { IsTrue result ↔ IsFull shapes.now layer (cells_in area.now) }
{
    let mut y = area.y1;
    'rows: while y < area.y2 {
        match covered_rows(shapes, layer, area, y) {
            Some(top) => y = top,
            None => return false,
        }
    }
    true
}

/// Whether no cell of the area is covered on the layer.
pub(crate) fn is_free(shapes: &Layers, layer: Layer, area: &Area) -> bool
    requires area { IsProper (cells_in area.now) }
    requires shapes { All (λ s. IsProper s.rect) shapes.now }
    ensures { IsTrue result ↔ IsFree shapes.now layer (cells_in area.now) }
{
    is_area_free(shapes.on(layer), layer, area)
}

/// Whether all cells of the area are covered on the layer.
#[tactic(auto, using(crate::proofs::Filling::full_like))]
pub(crate) fn is_full(shapes: &Layers, layer: Layer, area: &Area) -> bool
    requires { IsProper (cells_in area.now) }
    ensures { IsTrue result ↔ IsFull shapes.now layer (cells_in area.now) }
{
    is_area_full(shapes.on(layer), layer, area)
}
