// Two sets of cells, each given by rectangles in any order, put together band by band.
ghost use Rattle.std.specs.Prelude.{◌≡◌, ◌∷◌, ◌++◌, map, IfOk, OnOk};
ghost use Rattle.std.specs.List.{All, flat_map};
ghost use Rattle.box_geom.specs.Cutting.{AreCuts};
ghost use Rattle.box_geom.specs.Banding.{in_band, sides_up, all_sides_up, AreMadeOf};
ghost use Rattle.box_geom.specs.Standing.{AreRising};
ghost use Rattle.box_geom.specs.Regions.{IsBlock};

use crate::block::Block;
use crate::cuts::once_each;
use crate::ranges::XRange;
use crate::standing::{advance, from_below};
use crate::sweep::{Operation, ranges};
use std::alloc::{AllocError, Global};

fn block_of(low: i32, high: i32, range: &XRange) -> Block
    ensures { result ≡ in_band low high range.now }
{
    Block {
        x1: range.x1,
        y1: low,
        x2: range.x2,
        y2: high,
    }
}

fn add_band(out: &mut Vec<Block>, low: i32, high: i32, ranges: &[XRange]) -> Result<(), AllocError>
    ensures { OnOk result (out.new.items ≡ out.old.items ++ map (in_band low high) ranges.now) }
{
    for range in ranges {
        out.push(block_of(low, high, range))?;
    }
    Ok(())
}

fn add_sides(values: &mut Vec<i32>, blocks: &[Block]) -> Result<(), AllocError>
    ensures { OnOk result (values.new.items ≡ values.old.items ++ flat_map sides_up blocks.now) }
{
    for block in blocks {
        values.extend_from_slice(&[block.y1, block.y2])?;
    }
    Ok(())
}

fn all_sides(alloc: Global, first: &[Block], second: &[Block]) -> Result<Vec<i32>, AllocError>
    ensures { IfOk result (λ v. v.items ≡ all_sides_up first.now second.now) }
{
    let mut values = Vec::new(alloc);
    add_sides(&mut values, first)?;
    add_sides(&mut values, second)?;
    Ok(values)
}

// The bands, of rectangles in the order of their lower sides.
fn add_bands(
    alloc: Global,
    operation: Operation,
    first: &[Block],
    second: &[Block],
    lowest: i32,
    rest: &[i32],
) -> Result<Vec<Block>, AllocError>
    requires first { All IsBlock first.now }
    requires second { All IsBlock second.now }
    requires first_rising { AreRising first.now }
    requires second_rising { AreRising second.now }
    requires cuts { AreCuts (all_sides_up first.now second.now) (lowest ∷ rest.now) }
    ensures { IfOk result (λ v. AreMadeOf operation first.now second.now v.items) }
{
    let mut out = Vec::new(alloc);
    let mut low = lowest;
    let mut a = Vec::new(alloc);
    let mut b = Vec::new(alloc);
    let mut a_rest = first;
    let mut b_rest = second;
    for high in rest {
        a_rest = advance(&mut a, a_rest, low)?;
        b_rest = advance(&mut b, b_rest, low)?;
        let row = ranges(alloc, operation, a.as_slice(), b.as_slice())?;
        add_band(&mut out, low, *high, row.as_slice())?;
        low = *high;
    }
    Ok(out)
}

fn rising_bands(
    alloc: Global,
    operation: Operation,
    first: &[Block],
    second: &[Block],
) -> Result<Vec<Block>, AllocError>
    requires first { All IsBlock first.now }
    requires second { All IsBlock second.now }
    requires first_rising { AreRising first.now }
    requires second_rising { AreRising second.now }
    ensures { IfOk result (λ v. AreMadeOf operation first.now second.now v.items) }
{
    let cuts = once_each(all_sides(alloc, first, second)?);
    match cuts.split_first() {
        None => Ok(Vec::new(alloc)),
        Some((lowest, rest)) => add_bands(alloc, operation, first, second, *lowest, rest),
    }
}

// The bands of what the operation makes of the cells of two lists of rectangles.
pub(crate) fn bands(
    alloc: Global,
    operation: Operation,
    first: &[Block],
    second: &[Block],
) -> Result<Vec<Block>, AllocError>
    requires first { All IsBlock first.now }
    requires second { All IsBlock second.now }
    ensures { IfOk result (λ v. AreMadeOf operation first.now second.now v.items) }
{
    let a = from_below(alloc, first)?;
    let b = from_below(alloc, second)?;
    let made = rising_bands(alloc, operation, a.as_slice(), b.as_slice())?;
    Ok(made)
}
