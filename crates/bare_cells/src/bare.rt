// The first cell that some rectangles cover and others don't, in a time that grows little faster than their number.
ghost use Rattle.std.specs.Prelude.{◌≡◌, map, IfOk, IfSome, IsNone};
ghost use Rattle.std.specs.List.{All, filter};
ghost use Rattle.box_geom.specs.Regions.{Bare, IsBlock, IsEmpty, IsFirst};
ghost use Rattle.bare_cells.specs.Rows.{in_row, reached, reaching, stands_in, IsBareIn, IsClearIn, IsRowOf};

use crate::rows::{bare_rows, region_of};
use box_geom::{Block, Place, Region, XRange};
use cell_num::NoMemory;
use std::alloc::{AllocError, Global};

fn reaching(columns: &XRange, block: &Block) -> XRange
    ensures { result ≡ reaching columns.now block.now }
{
    XRange {
        x1: columns.x1.min(block.x1),
        x2: columns.x2.max(block.x2),
    }
}

// Columns that reach over all of the rectangles.
fn reached(blocks: &[Block]) -> XRange
    ensures { result ≡ reached blocks.now }
{
    let mut columns = XRange { x1: 0, x2: 1 };
    for block in blocks {
        columns = reaching(&columns, block);
    }
    columns
}

fn stands_in(block: &Block, y: i32) -> bool
    ensures { result ≡ stands_in y block.now }
{
    block.y1 <= y && y < block.y2
}

fn in_row(block: &Block) -> Block
    ensures { result ≡ in_row block.now }
{
    Block {
        x1: block.x1,
        y1: 0,
        x2: block.x2,
        y2: 1,
    }
}

fn parts_of_row(alloc: Global, y: i32, blocks: &[Block]) -> Result<Vec<Block>, AllocError>
    ensures { IfOk result (λ v. v.items ≡ map in_row (filter (stands_in y) blocks.now)) }
{
    let mut parts = Vec::new(alloc);
    for block in blocks {
        if stands_in(block, y) {
            parts.push(in_row(block))?;
        }
    }
    Ok(parts)
}

// The cells of a row that the rectangles cover, as cells of row 0.
fn row(alloc: Global, y: i32, blocks: &[Block]) -> Result<Region, NoMemory>
    requires { All IsBlock blocks.now }
    ensures { IfOk result (IsRowOf blocks.now y) }
{
    let parts = parts_of_row(alloc, y, blocks)?;
    let region = region_of(alloc, parts.as_slice())?;
    Ok(region)
}

#[tactic(auto, using(crate::proofs::FirstBare::in_row_none))]
fn first_in_row(
    alloc: Global,
    y: i32,
    first: &[Block],
    second: &[Block],
) -> Result<Option<Place>, NoMemory>
    requires first { All IsBlock first.now }
    requires second { All IsBlock second.now }
    ensures some { IfOk result (λ o. IfSome o (IsBareIn first.now second.now y)) }
    ensures none { IfOk result (λ o. IsNone o → IsClearIn first.now second.now y) }
{
    let held = row(alloc, y, first)?;
    let shut = row(alloc, y, second)?;
    let bare = held.minus(alloc, &shut)?;
    match bare.first_cell() {
        Some(place) => Ok(Some(Place { x: place.x, y })),
        None => Ok(None),
    }
}

fn add_between(cuts: &mut Vec<i32>, columns: &XRange, side: i32) -> Result<(), AllocError> {
    if columns.x1 < side && side < columns.x2 {
        cuts.push(side)?;
    }
    Ok(())
}

// The sides of the rectangles between the columns, ascending: where a stretch is divided best.
fn cuts(alloc: Global, columns: &XRange, blocks: &[Block]) -> Result<Vec<i32>, AllocError> {
    let mut cuts = Vec::new(alloc);
    for block in blocks {
        add_between(&mut cuts, columns, block.x1)?;
        add_between(&mut cuts, columns, block.x2)?;
    }
    cuts.sort_unstable();
    cuts.dedup();
    Ok(cuts)
}

/// The first cell, by y and then x, that some rectangle of `first` holds and none of `second`.
pub fn first_bare(
    alloc: Global,
    first: &[Block],
    second: &[Block],
) -> Result<Option<Place>, NoMemory>
    requires first { All IsBlock first.now }
    requires second { All IsBlock second.now }
    ensures some { IfOk result (λ o. IfSome o (λ p. IsFirst (Bare first.now second.now) p.x p.y)) }
    ensures none { IfOk result (λ o. IsNone o → IsEmpty (Bare first.now second.now)) }
{
    let columns = reached(first);
    let cuts = cuts(alloc, &columns, second)?;
    let rows = bare_rows(alloc, &columns, cuts.as_slice(), first, second)?;
    match rows.bare.first_cell() {
        Some(place) => first_in_row(alloc, place.x, first, second),
        None => Ok(None),
    }
}
