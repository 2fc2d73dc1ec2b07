ghost use Rattle.std.specs.Prelude.{◌≡◌, IfOk};
ghost use Rattle.box_geom.specs.Cutting.{ends_of, sides, AreCuts, AreAlike};
ghost use Rattle.box_geom.specs.declared.cuts.Axis.TheVariants.{X, Y};

use crate::{CoordList, Rect, Shape, Shapes};
use cell_num::{List, NoMemory};
use std::alloc::{AllocError, Global};

/// The axis along which sides are listed.
#[derive(Clone, Copy, Debug, PartialEq, Eq)]
pub enum Axis {
    X,
    Y,
}

/// The x and the y values of all sides of the rectangles, ascending, each once. Two cells
/// between the same neighbouring cuts are covered alike on every layer.
#[derive(Clone, Debug, PartialEq, Eq, Drop)]
pub struct Cuts {
    pub xs: CoordList,
    pub ys: CoordList,
}

fn ends(rect: &Rect, axis: Axis) -> [i32; 2]
    ensures { result ≡ ends_of axis rect.now }
{
    match axis {
        Axis::X => [rect.x1, rect.x2],
        Axis::Y => [rect.y1, rect.y2],
    }
}

fn all_sides(alloc: Global, shapes: &[Shape], axis: Axis) -> Result<Vec<i32>, AllocError>
    ensures { IfOk result (λ v. v.items ≡ sides axis shapes.now) }
{
    let mut values = Vec::new(alloc);
    for shape in shapes {
        values.extend_from_slice(&ends(&shape.rect, axis))?;
    }
    Ok(values)
}

pub(crate) fn once_each(mut values: Vec<i32>) -> Vec<i32>
    ensures { AreCuts values.items result.items }
{
    values.sort_unstable();
    values.dedup();
    values
}

fn cuts_along(alloc: Global, shapes: &[Shape], axis: Axis) -> Result<CoordList, NoMemory>
    ensures { IfOk result (λ cuts. AreCuts (sides axis shapes.now) cuts) }
{
    let values = all_sides(alloc, shapes, axis)?;
    Ok(List::from_vec(once_each(values)))
}

impl Cuts {
    /// The cuts of all rectangles.
    #[tactic(auto, using(crate::proofs::Slots::alike))]
    pub fn new(alloc: Global, shapes: &Shapes) -> Result<Cuts, NoMemory>
        ensures xs { IfOk result (λ c. AreCuts (sides X shapes.now.rects) c.xs) }
        ensures ys { IfOk result (λ c. AreCuts (sides Y shapes.now.rects) c.ys) }
        ensures alike { IfOk result (λ c. AreAlike shapes.now.rects c.xs c.ys) }
    {
        let xs = cuts_along(alloc, shapes.rects.as_slice(), Axis::X)?;
        let ys = cuts_along(alloc, shapes.rects.as_slice(), Axis::Y)?;
        Ok(Cuts { xs, ys })
    }
}
