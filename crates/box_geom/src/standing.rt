// The rectangles of a list that a row goes through, from row to row upward.
ghost use Rattle.std.specs.Prelude.{◌≡◌, ◌≤◌, ◌++◌, true, false, length, int_le, IfOk, OnOk, IsPermutation};
ghost use Rattle.std.specs.List.{filter};
ghost use Rattle.std.specs.List.Sorted.{IsPartitionPoint};
ghost use Rattle.box_geom.specs.Standing.{stands_at, ends_above, AreRising, IsAdvanced};

use crate::block::Block;
use crate::span::in_span;
use std::alloc::{AllocError, Global};

// The rectangles in the order of their lower sides.
pub(crate) fn from_below(alloc: Global, blocks: &[Block]) -> Result<Vec<Block>, AllocError>
    ensures same { IfOk result (λ v. IsPermutation blocks.now v.items) }
    ensures rising { IfOk result (λ v. AreRising v.items) }
{
    let mut out = Vec::from_slice(alloc, blocks)?;
    out.sort_unstable_by_key(|block| block.y1);
    Ok(out)
}

// How many of the rectangles, which are in the order of their lower sides, begin at the row or below.
pub(crate) fn count_begun(blocks: &[Block], y: i32) -> usize
    requires { AreRising blocks.now }
    ensures bound { result ≤ length blocks.now }
    ensures parts { IsPartitionPoint (λ r. int_le r.y1 y ≡ true) (λ r. int_le r.y1 y ≡ false) blocks.now result }
{
    blocks.partition_point(|block| block.y1 <= y)
}

fn does_stand(block: &Block, y: i32) -> bool
    ensures { result ≡ stands_at y block.now }
{
    in_span(block.y1, block.y2, y)
}

fn drop_ended(standing: &mut Vec<Block>, y: i32)
    ensures { standing.new.items ≡ filter (ends_above y) standing.old.items }
{
    standing.retain(|block| y < block.y2);
}

fn add_begun(standing: &mut Vec<Block>, begun: &[Block], y: i32) -> Result<(), AllocError>
    ensures { OnOk result (standing.new.items ≡ standing.old.items ++ filter (stands_at y) begun.now) }
{
    for block in begun {
        if does_stand(block, y) {
            standing.push(*block)?;
        }
    }
    Ok(())
}

// Goes up to a row: from the rectangles that stand at a lower one, and those that begin above that one,
// to the same of the row.
pub(crate) fn advance<'a>(
    standing: &mut Vec<Block>,
    rest: &'a [Block],
    y: i32,
) -> Result<&'a [Block], AllocError>
    requires { AreRising rest.now }
    ensures { IfOk result (λ after. IsAdvanced rest.now standing.old.items y standing.new.items after.now) }
{
    let (begun, after) = rest.split_at(count_begun(rest, y));
    drop_ended(standing, y);
    add_begun(standing, begun, y)?;
    Ok(after)
}
