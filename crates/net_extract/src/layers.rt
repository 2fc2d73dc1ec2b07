// The shapes of a drawing, with those of the layers of devices by themselves.
ghost use Rattle.std.specs.Prelude.{◌≡◌, All, IfOk};
ghost use Rattle.box_geom.specs.Layers.{rects_on};
ghost use Rattle.box_geom.specs.Rectangle.{IsProper};
ghost use Rattle.net_extract.specs.Cuts.{shapes_on};

use box_geom::{Layer, Shape};
use cell_num::{List, NoMemory};
use std::alloc::Global;
use std::marker::Model;

/// The shapes of a drawing. Those of the layers of devices are kept apart as well, so that a search of one
/// of these layers passes none of the others. Contracts see the list of all shapes.
#[derive(Debug, Drop)]
pub struct Layers {
    all: List<Shape>,
    well: List<Shape>,
    active: List<Shape>,
    poly: List<Shape>,
}

impl Model for Layers {
    ghost use Rattle.std.specs.Prelude.{List as Sequence};
    ghost use Rattle.box_geom.specs.declared.shape.Shape.{Shape as DrawnShape};
    ghost use Rattle.net_extract.specs.Cuts.{AreApart};

    ghost Value = { Sequence DrawnShape };

    ghost view = { λ l. l.all };

    ghost invariant = { λ l. AreApart l.all l.well l.active l.poly };
}

/// The shapes of one layer.
pub(crate) fn on_layer(
    alloc: Global,
    shapes: &[Shape],
    layer: Layer,
) -> Result<List<Shape>, NoMemory>
    ensures { IfOk result (λ ss. ss ≡ shapes_on layer shapes.now) }
{
    let mut out = List::new(alloc);
    for shape in shapes {
        if shape.is_on(layer) {
            out.push(*shape)?;
        }
    }
    Ok(out)
}

fn all(alloc: Global, shapes: &[Shape]) -> Result<List<Shape>, NoMemory>
    ensures { IfOk result (λ ss. ss ≡ shapes.now) }
{
    let mut all = List::new(alloc);
    all.extend(shapes)?;
    Ok(all)
}

impl Layers {
    pub(crate) fn new(alloc: Global, shapes: &[Shape]) -> Result<Layers, NoMemory>
        ensures { IfOk result (λ l. l ≡ shapes.now) }
    {
        Ok(Layers {
            all: all(alloc, shapes)?,
            well: on_layer(alloc, shapes, Layer::Well)?,
            active: on_layer(alloc, shapes, Layer::Active)?,
            poly: on_layer(alloc, shapes, Layer::Poly)?,
        })
    }

    /// Shapes that have all those of a layer.
    pub(crate) fn on(&self, layer: Layer) -> &[Shape]
        ensures rects { rects_on layer result.now ≡ rects_on layer self.now }
        ensures proper { All (λ s. IsProper s.rect) self.now → All (λ s. IsProper s.rect) result.now }
    {
        match layer {
            Layer::Well => self.well.as_slice(),
            Layer::Active => self.active.as_slice(),
            Layer::Poly => self.poly.as_slice(),
            _ => self.all.as_slice(),
        }
    }
}
