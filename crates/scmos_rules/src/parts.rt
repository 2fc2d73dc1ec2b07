// The rectangles of a set with their places in the list, and which of them lie near one.
ghost use Rattle.std.specs.Prelude.{◌≡◌, ◌++◌, IfOk, OnOk};
ghost use Rattle.scmos_rules.specs.Near.{closer, close_upward, close_across, some_close, numbered, near_from};

use box_geom::Block;
use std::alloc::{AllocError, Global};

/// A rectangle of a set, with its place in the list of the set's rectangles.
#[derive(Clone, Copy, Debug)]
pub struct NumberedBlock {
    pub number: usize,
    pub block: Block,
}

pub(crate) fn parts_of(alloc: Global, blocks: &[Block]) -> Result<Vec<NumberedBlock>, AllocError>
    ensures { IfOk result (λ v. v.items ≡ numbered 0 blocks.now) }
{
    let mut parts = Vec::new(alloc);
    for (number, block) in blocks.iter().enumerate() {
        parts.push(NumberedBlock {
            number,
            block: *block,
        })?;
    }
    Ok(parts)
}

// Whether a span begins less than a distance after the end of another, or before it.
#[tactic(auto, unfolding(crate::specs::Near::closer))]
fn is_closer(end: i32, begin: i32, by: u32) -> bool
    ensures { result ≡ closer by end begin }
{
    begin < end || begin.abs_diff(end) < by
}

fn is_close_upward(block: &Block, other: &Block, by: u32) -> bool
    ensures { result ≡ close_upward by block.now other.now }
{
    is_closer(block.y2, other.y1, by)
}

fn is_close_across(block: &Block, other: &Block, by: u32) -> bool
    ensures { result ≡ close_across by block.now other.now }
{
    is_closer(block.x2, other.x1, by) && is_closer(other.x2, block.x1, by)
}

fn add_close(
    near: &mut Vec<NumberedBlock>,
    part: &NumberedBlock,
    other: &NumberedBlock,
    by: u32,
) -> Result<(), AllocError>
    ensures { OnOk result (near.new.items ≡ near.old.items ++ some_close by part.now other.now) }
{
    if is_close_across(&part.block, &other.block, by) {
        near.push(*other)?;
    }
    Ok(())
}

// Those of the parts after one that lie within a distance of it, where the lower sides ascend: the
// first that begins too high ends the search.
pub(crate) fn near_behind(
    alloc: Global,
    part: &NumberedBlock,
    behind: &[NumberedBlock],
    by: u32,
) -> Result<Vec<NumberedBlock>, AllocError>
    ensures { IfOk result (λ v. v.items ≡ near_from by part.now behind.now) }
{
    let mut near = Vec::new(alloc);
    for other in behind {
        if !is_close_upward(&part.block, &other.block, by) {
            return Ok(near);
        }
        add_close(&mut near, part, other, by)?;
    }
    Ok(near)
}
