// Rules on the cells within a distance.
ghost use Rattle.std.specs.Prelude.{◌≤◌, IfOk};
ghost use Rattle.box_geom.specs.Rectangle.{Covers};
ghost use Rattle.scmos_rules.specs.Failing.{FailsSurround, FailsAway, FailsPartly};
ghost use Rattle.scmos_rules.specs.Layout.{On};
ghost use Rattle.scmos_rules.specs.Cells.{AreCells, AreInner};

use crate::sets::on;
use box_geom::{Layer, Region, Shapes};
use cell_num::NoMemory;
use std::alloc::Global;

// The cells of a set with a cell within a distance that is not in the other set.
pub(crate) fn not_surrounded(
    alloc: Global,
    inside: &Region,
    outside: &Region,
    by: u32,
) -> Result<Region, NoMemory>
    requires inner { AreInner inside.now }
    requires small { by ≤ 1000 }
    ensures { IfOk result (λ r. AreCells (FailsSurround (Covers inside.now) (Covers outside.now) by) r) }
{
    let around = inside.grown(alloc, by)?;
    let out = around.minus(alloc, outside)?;
    let near_out = out.grown(alloc, by)?;
    let region = inside.both(alloc, &near_out)?;
    Ok(region)
}

// The cells of a set with a cell of the other set within a distance.
pub(crate) fn not_away(
    alloc: Global,
    inside: &Region,
    outside: &Region,
    by: u32,
) -> Result<Region, NoMemory>
    requires inner { AreInner inside.now }
    requires small { by ≤ 1000 }
    ensures { IfOk result (λ r. AreCells (FailsAway (Covers inside.now) (Covers outside.now) by) r) }
{
    let near = outside.grown(alloc, by)?;
    let region = inside.both(alloc, &near)?;
    Ok(region)
}

// The same for two layers.
pub(crate) fn layer_not_surrounded(
    alloc: Global,
    shapes: &Shapes,
    inside: Layer,
    outside: Layer,
    by: u32,
) -> Result<Region, NoMemory>
    requires small { by ≤ 1000 }
    ensures { IfOk result (λ r. AreCells
        (FailsSurround (On inside shapes.now.rects) (On outside shapes.now.rects) by) r) }
{
    let a = on(alloc, shapes, inside)?;
    let b = on(alloc, shapes, outside)?;
    let region = not_surrounded(alloc, &a, &b, by)?;
    Ok(region)
}

pub(crate) fn layer_not_away(
    alloc: Global,
    shapes: &Shapes,
    inside: Layer,
    outside: Layer,
    by: u32,
) -> Result<Region, NoMemory>
    requires small { by ≤ 1000 }
    ensures { IfOk result (λ r. AreCells (FailsAway (On inside shapes.now.rects) (On outside shapes.now.rects) by) r) }
{
    let a = on(alloc, shapes, inside)?;
    let b = on(alloc, shapes, outside)?;
    let region = not_away(alloc, &a, &b, by)?;
    Ok(region)
}

// The cells of a layer where the cells within a distance are partly of the other and partly not.
pub(crate) fn layer_partly(
    alloc: Global,
    shapes: &Shapes,
    inside: Layer,
    outside: Layer,
    by: u32,
) -> Result<Region, NoMemory>
    requires small { by ≤ 1000 }
    ensures { IfOk result (λ r. AreCells
        (FailsPartly (On inside shapes.now.rects) (On outside shapes.now.rects) by) r) }
{
    let near = layer_not_away(alloc, shapes, inside, outside, by)?;
    let out = layer_not_surrounded(alloc, shapes, inside, outside, by)?;
    let region = near.both(alloc, &out)?;
    Ok(region)
}
