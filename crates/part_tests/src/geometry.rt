use crate::drawings::{Sides, rect, shapes_of};
use crate::texts::prints;
use box_geom::{Cuts, Layer, Rect, Shapes, Slabs, covered, facing_gap, touches};
use std::alloc::{AllocError, Global};
use std::test::Fail;

// Squares of ten by ten: whether they touch the middle one, and how far their facing edges lie apart. They are
// the middle one, those that share with it a cell, a side, a piece of an edge, and a corner, and those with a
// column or seven rows between, and in neither direction beside it.
const LIES: [(Sides, bool, Option<u32>); 8] = [
    ([20, 20, 30, 30], true, None),
    ([29, 29, 39, 39], true, None),
    ([30, 20, 40, 30], true, Some(0)),
    ([11, 10, 21, 20], true, Some(0)),
    ([30, 30, 40, 40], false, None),
    ([31, 29, 41, 39], false, Some(1)),
    ([25, 3, 35, 13], false, Some(7)),
    ([40, 35, 50, 45], false, None),
];

fn lies(middle: &Rect, other: &Rect, touch: bool, gap: Option<u32>) -> bool {
    touches(middle, other) == touch && facing_gap(other, middle) == gap
}

#[test]
fn squares_lie(rt: HostRuntime) -> Result<(), Fail> {
    let middle = rect([20, 20, 30, 30])?;
    for (sides, touch, gap) in &LIES {
        let other = rect(*sides)?;
        assert!(rt; lies(&middle, &other, *touch, *gap));
    }
    Ok(())
}

// Metal1 with three rectangles that make an angle, and a bar of poly over it.
const ANGLE_AND_BAR: [(Layer, Sides); 4] = [
    (Layer::Metal1, [0, 0, 10, 2]),
    (Layer::Metal1, [0, 2, 2, 8]),
    (Layer::Metal1, [2, 2, 4, 5]),
    (Layer::Poly, [1, 4, 6, 6]),
];

const CUTS: &str =
    "Ok(Cuts { xs: List { items: [0, 1, 2, 4, 6, 10] }, ys: List { items: [0, 2, 4, 5, 6, 8] } })";

const SLABS: &str = "Ok(Slabs { list: List { items: [\
    Slab { layer: Poly, y1: 4, y2: 6, ranges: List { items: [XRange { x1: 1, x2: 6 }] } }, \
    Slab { layer: Metal1, y1: 0, y2: 2, ranges: List { items: [XRange { x1: 0, x2: 10 }] } }, \
    Slab { layer: Metal1, y1: 2, y2: 5, ranges: List { items: [XRange { x1: 0, x2: 4 }] } }, \
    Slab { layer: Metal1, y1: 5, y2: 8, ranges: List { items: [XRange { x1: 0, x2: 2 }] } }] } })";

fn has_cuts(alloc: Global, shapes: &Shapes) -> Result<bool, AllocError> {
    prints(alloc, &Cuts::new(alloc, shapes), CUTS)
}

fn has_slabs(alloc: Global, shapes: &Shapes) -> Result<bool, AllocError> {
    prints(alloc, &Slabs::new(alloc, shapes), SLABS)
}

fn has_cells(shapes: &Shapes) -> bool {
    covered(shapes, Layer::Metal1, 3, 4)
        && !covered(shapes, Layer::Metal1, 3, 5)
        && !covered(shapes, Layer::Poly, 6, 5)
}

fn is_cut(alloc: Global, shapes: &Shapes) -> Result<bool, AllocError> {
    Ok(has_cells(shapes) && has_cuts(alloc, shapes)? && has_slabs(alloc, shapes)?)
}

#[test]
fn cells_cuts_and_slabs(rt: HostRuntime) -> Result<(), Fail> {
    let shapes = shapes_of(rt.alloc(), &ANGLE_AND_BAR)?;
    let is = is_cut(rt.alloc(), &shapes);
    drop(shapes);
    assert!(rt; is?);
    Ok(())
}
