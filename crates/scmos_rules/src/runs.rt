// Runs of a set that have not the length, from the rectangles of the set and of what it leaves free.
ghost use Rattle.std.specs.Prelude.{◌≡◌, ◌≤◌, ◌↔◌, ℤ, IfOk};
ghost use Rattle.std.specs.List.{filter};
ghost use Rattle.box_geom.specs.Rectangle.{Covers};
ghost use Rattle.scmos_rules.specs.Lengths.{FailsOpen, IsWrong, FailsRun, is_wrong as is_wrong_run};
ghost use Rattle.scmos_rules.specs.Cells.{AreCells, AreInner};

use box_geom::{Block, Region};
use cell_num::NoMemory;
use std::alloc::{AllocError, Global};

/// What is asked of the length of a run.
#[derive(Clone, Copy, Debug, PartialEq, Eq)]
pub enum Measure {
    /// At least the value.
    Width,
    /// Exactly the value.
    Size,
}

fn is_wrong(block: &Block, measure: Measure, value: u32) -> bool
    ensures { result ≡ is_wrong_run measure value block.now }
{
    let width = block.x2.abs_diff(block.x1);
    match measure {
        Measure::Width => width < value,
        Measure::Size => width != value,
    }
}

fn wrong_blocks(
    alloc: Global,
    blocks: &[Block],
    measure: Measure,
    value: u32,
) -> Result<Vec<Block>, AllocError>
    ensures { IfOk result (λ v. v.items ≡ filter (is_wrong_run measure value) blocks.now) }
{
    let mut out = Vec::new(alloc);
    for block in blocks {
        if is_wrong(block, measure, value) {
            out.push(*block)?;
        }
    }
    Ok(out)
}

fn wrong_rows(alloc: Global, set: &Region, measure: Measure, value: u32) -> Result<Region, NoMemory>
    ensures { IfOk result (λ r. AreCells
        (λ x y. Covers set.now x y × IsWrong measure (λ z. Covers set.now z y) value x) r) }
{
    let blocks = wrong_blocks(alloc, set.blocks(), measure, value)?;
    let region = Region::from_blocks(alloc, blocks.as_slice())?;
    Ok(region)
}

// The cells of a set whose run along the row or along the column has not the length, in grid units. The set is given
// as it is, and with x and y exchanged.
pub(crate) fn wrong_runs(
    alloc: Global,
    set: &Region,
    turned: &Region,
    measure: Measure,
    value: u32,
) -> Result<Region, NoMemory>
    requires turned { (x y : ℤ) → Covers turned.now x y ↔ Covers set.now y x }
    ensures { IfOk result (λ r. AreCells (FailsRun measure (Covers set.now) value) r) }
{
    let rows = wrong_rows(alloc, set, measure, value)?;
    let across = wrong_rows(alloc, turned, measure, value)?;
    let columns = across.turned(alloc)?;
    let region = rows.either(alloc, &columns)?;
    Ok(region)
}

// The cells of the gaps below a value in a set, in grid units. A gap is a run of the cells that are not in the set,
// with cells of the set at both ends. Their columns are the rows of what the turned set leaves free, which has few
// rectangles in each band.
pub(crate) fn short_gaps(alloc: Global, set: &Region, value: u32) -> Result<Region, NoMemory>
    requires inner { AreInner set.now }
    requires small { value ≤ 1000 }
    ensures { IfOk result (λ r. AreCells (FailsOpen (Covers set.now) value) r) }
{
    let plane = Region::plane(alloc)?;
    let rest = plane.minus(alloc, set)?;
    let turned = set.turned(alloc)?;
    let turned_rest = plane.minus(alloc, &turned)?;
    let region = wrong_runs(alloc, &rest, &turned_rest, Measure::Width, value)?;
    Ok(region)
}
