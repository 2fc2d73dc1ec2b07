// Rectangles of a region whose sides move, and rectangles whose x and y are exchanged.
ghost use Rattle.std.specs.Prelude.{◌≡◌, ◌≤◌, pos, neg_ℤ, map, IfOk};
ghost use Rattle.std.specs.List.{All, filter};
ghost use Rattle.box_geom.specs.Regions.{IsBlock, IsSmall};
ghost use Rattle.box_geom.specs.Moving.{whole, spread_by, moved_by, is_proper, turned_by, AreSmall, MovesAre};

use crate::block::Block;
use std::alloc::{AllocError, Global};

const LEAST: i32 = -2_000_000_000;

const MOST: i32 = 2_000_000_000;

// How far the sides of a rectangle move.
#[derive(Clone, Copy, Debug)]
pub struct Moves {
    x1: i32,
    y1: i32,
    x2: i32,
    y2: i32,
}

// How the sides move where a rectangle grows.
pub(crate) fn outward(by: u32) -> Moves
    requires { by ≤ 1000 }
    ensures sides { MovesAre (neg_ℤ (pos by)) (neg_ℤ (pos by)) (pos by) (pos by) result }
    ensures small { AreSmall result }
{
    let by = by as i32;
    Moves {
        x1: -by,
        y1: -by,
        x2: by,
        y2: by,
    }
}

// How they move where it is shifted.
pub(crate) fn along(dx: i32, dy: i32) -> Moves
    requires dx { IsSmall dx }
    requires dy { IsSmall dy }
    ensures sides { MovesAre dx dy dx dy result }
    ensures small { AreSmall result }
{
    Moves {
        x1: dx,
        y1: dy,
        x2: dx,
        y2: dy,
    }
}

fn spread(block: &Block, by: &Moves) -> Block
    requires block { IsBlock block.now }
    requires small { AreSmall by.now }
    ensures { result ≡ spread_by by.now block.now }
{
    Block {
        x1: block.x1 + by.x1,
        y1: block.y1 + by.y1,
        x2: block.x2 + by.x2,
        y2: block.y2 + by.y2,
    }
}

fn moved(block: &Block, by: &Moves) -> Block
    requires block { IsBlock block.now }
    requires small { AreSmall by.now }
    ensures { result ≡ moved_by by.now block.now }
{
    spread(block, by).common(&whole_plane())
}

// Each rectangle with its sides moved, without those that leave the plane.
pub(crate) fn all_moved(
    alloc: Global,
    blocks: &[Block],
    by: &Moves,
) -> Result<Vec<Block>, AllocError>
    requires blocks { All IsBlock blocks.now }
    requires small { AreSmall by.now }
    ensures { IfOk result (λ v. v.items ≡ filter is_proper (map (moved_by by.now) blocks.now)) }
{
    let mut out = Vec::new(alloc);
    for block in blocks {
        let next = moved(block, by);
        if next.does_ascend() {
            out.push(next)?;
        }
    }
    Ok(out)
}

// All cells that regions reach.
pub(crate) fn whole_plane() -> Block
    ensures { result ≡ whole }
{
    Block {
        x1: LEAST,
        y1: LEAST,
        x2: MOST,
        y2: MOST,
    }
}

fn turned_block(block: &Block) -> Block
    ensures { result ≡ turned_by block.now }
{
    Block {
        x1: block.y1,
        y1: block.x1,
        x2: block.y2,
        y2: block.x2,
    }
}

// Each rectangle with x and y exchanged.
pub(crate) fn all_turned(alloc: Global, blocks: &[Block]) -> Result<Vec<Block>, AllocError>
    ensures { IfOk result (λ v. v.items ≡ map turned_by blocks.now) }
{
    let mut out = Vec::new(alloc);
    for block in blocks {
        out.push(turned_block(block))?;
    }
    Ok(out)
}
