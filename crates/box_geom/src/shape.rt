ghost use Rattle.std.specs.Prelude.{◌≡◌, ◌↔◌, IsTrue};
ghost use Rattle.box_geom.specs.Layers.{same_layer, rects_on, AreWithinLimits};
ghost use Rattle.box_geom.specs.Rectangle.{Covers};
ghost use Rattle.box_geom.specs.Comparisons.{holding, covering};

use crate::rect::Rect;
use crate::span::in_span;
use crate::{LabelList, Layer, ShapeList};
use cell_num::Name;

/// A rectangle on a layer.
#[derive(Clone, Copy, Debug, PartialEq, Eq)]
pub struct Shape {
    pub layer: Layer,
    pub rect: Rect,
}

/// A name at the lower left corner of a cell, in grid units.
#[derive(Clone, Debug, PartialEq, Eq, Drop)]
pub struct Label {
    pub layer: Layer,
    pub x: i32,
    pub y: i32,
    pub name: Name,
}

/// The rectangles and the labels of a drawing, each list in its own order.
#[derive(Clone, Debug, PartialEq, Eq, Drop)]
pub struct Shapes {
    pub rects: ShapeList,
    pub labels: LabelList,
}

impl Shapes {
    /// Shows a caller's proof the limits of all rectangles; it does nothing.
    pub fn show_limits(&self)
        ensures { AreWithinLimits self.now.rects }
    {
        show_all_limits(self.rects.as_slice());
    }
}

fn show_all_limits(shapes: &[Shape])
    ensures { AreWithinLimits shapes.now }
{
    for shape in shapes {
        shape.rect.show_limits();
    }
}

impl Shape {
    /// Whether the shape is on the layer.
    pub fn is_on(&self, layer: Layer) -> bool
        ensures { result ≡ same_layer self.now.layer layer }
    {
        self.layer == layer
    }
}

fn is_in(rect: &Rect, x: i32, y: i32) -> bool
    ensures { result ≡ holding rect.now x y }
{
    in_span(rect.x1, rect.x2, x) && in_span(rect.y1, rect.y2, y)
}

fn is_covered(shapes: &[Shape], layer: Layer, x: i32, y: i32) -> bool
    ensures { result ≡ covering shapes.now layer x y }
{
    shapes
        .iter()
        .any(|shape| shape.is_on(layer) && is_in(&shape.rect, x, y))
}

/// Whether the layer covers the cell with that lower left corner: some rectangle holds it.
#[tactic(auto, using(crate::proofs::Covering::cover_rules))]
pub fn covered(shapes: &Shapes, layer: Layer, x: i32, y: i32) -> bool
    ensures { IsTrue result ↔ Covers (rects_on layer shapes.now.rects) x y }
{
    is_covered(shapes.rects.as_slice(), layer, x, y)
}
