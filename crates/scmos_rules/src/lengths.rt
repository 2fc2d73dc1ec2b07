// Rules on the lengths of the runs of a layer.
ghost use Rattle.std.specs.Prelude.{IfOk};
ghost use Rattle.scmos_rules.specs.Cells.{AreCells};
ghost use Rattle.scmos_rules.specs.Lengths.{FailsWidth, FailsSize, FailsRun};
ghost use Rattle.scmos_rules.specs.Layout.{On};

use crate::runs::{Measure, wrong_runs};
use crate::sets::on;
use box_geom::{Layer, Region, Shapes};
use cell_num::NoMemory;
use std::alloc::Global;

fn wrong_lengths(
    alloc: Global,
    shapes: &Shapes,
    layer: Layer,
    measure: Measure,
    value: u32,
) -> Result<Region, NoMemory>
    ensures { IfOk result (λ r. AreCells (FailsRun measure (On layer shapes.now.rects) value) r) }
{
    let set = on(alloc, shapes, layer)?;
    let turned = set.turned(alloc)?;
    let region = wrong_runs(alloc, &set, &turned, measure, value)?;
    Ok(region)
}

pub(crate) fn width(
    alloc: Global,
    shapes: &Shapes,
    layer: Layer,
    value: u32,
) -> Result<Region, NoMemory>
    ensures { IfOk result (λ r. AreCells (FailsWidth (On layer shapes.now.rects) value) r) }
{
    wrong_lengths(alloc, shapes, layer, Measure::Width, value)
}

pub(crate) fn size(
    alloc: Global,
    shapes: &Shapes,
    layer: Layer,
    value: u32,
) -> Result<Region, NoMemory>
    ensures { IfOk result (λ r. AreCells (FailsSize (On layer shapes.now.rects) value) r) }
{
    wrong_lengths(alloc, shapes, layer, Measure::Size, value)
}
