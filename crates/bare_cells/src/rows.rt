// The rows of a drawing in which some cell of a stretch of columns is bare. A stretch is halved until each rectangle of
// the second list that has cells in it is as wide as it is; so each one is looked at on two ways from the whole down.
ghost use Rattle.std.specs.Prelude.{◌≡◌, ◌↔◌, ◌⊎◌, ℤ, ◌<ℤ◌, ◌+ℤ◌, pos, map, IfOk};
ghost use Rattle.std.specs.List.{All, filter};
ghost use Rattle.box_geom.specs.Rectangle.{Covers};
ghost use Rattle.box_geom.specs.Regions.{IsBlock, SameCells};
ghost use Rattle.bare_cells.specs.Rows.{as_rows, does_meet, is_part, is_wide, AreAlike};
ghost use Rattle.bare_cells.specs.Rows.{AreHalves, AreJoined, AreRows, AreRowsOf};

use box_geom::{Block, Region, XRange};
use cell_num::NoMemory;
use std::alloc::{AllocError, Global};

/// Rows as cells of row 0: those in which some cell is bare, and those in which all are covered by the second list.
#[derive(Drop)]
pub struct Rows {
    pub bare: Region,
    pub shut: Region,
}

fn is_wide(block: &Block, columns: &XRange) -> bool
    ensures { result ≡ is_wide columns.now block.now }
{
    block.x1 <= columns.x1 && columns.x2 <= block.x2
}

fn does_meet(block: &Block, columns: &XRange) -> bool
    ensures { result ≡ does_meet columns.now block.now }
{
    block.x1 < columns.x2 && columns.x1 < block.x2
}

fn is_part(block: &Block, columns: &XRange) -> bool
    ensures { result ≡ is_part columns.now block.now }
{
    does_meet(block, columns) && !is_wide(block, columns)
}

fn as_rows(block: &Block) -> Block
    ensures { result ≡ as_rows block.now }
{
    Block {
        x1: block.y1,
        y1: 0,
        x2: block.y2,
        y2: 1,
    }
}

// The rectangles that have cells in a part of the columns alone.
fn parts(alloc: Global, columns: &XRange, blocks: &[Block]) -> Result<Vec<Block>, AllocError>
    ensures { IfOk result (λ v. v.items ≡ filter (is_part columns.now) blocks.now) }
{
    let mut parts = Vec::new(alloc);
    for block in blocks {
        if is_part(block, columns) {
            parts.push(*block)?;
        }
    }
    Ok(parts)
}

fn wide(alloc: Global, columns: &XRange, blocks: &[Block]) -> Result<Vec<Block>, AllocError>
    ensures { IfOk result (λ v. v.items ≡ filter (is_wide columns.now) blocks.now) }
{
    let mut wide = Vec::new(alloc);
    for block in blocks {
        if is_wide(block, columns) {
            wide.push(*block)?;
        }
    }
    Ok(wide)
}

fn all_rows(alloc: Global, blocks: &[Block]) -> Result<Vec<Block>, AllocError>
    ensures { IfOk result (λ v. v.items ≡ map as_rows blocks.now) }
{
    let mut rows = Vec::new(alloc);
    for block in blocks {
        rows.push(as_rows(block))?;
    }
    Ok(rows)
}

// The cells of rectangles; where there are none it costs nothing.
#[tactic(auto, using(crate::proofs::Stretches::none_same))]
pub(crate) fn region_of(alloc: Global, blocks: &[Block]) -> Result<Region, NoMemory>
    requires { All IsBlock blocks.now }
    ensures { IfOk result (λ r. SameCells r blocks.now) }
{
    if blocks.is_empty() {
        return Ok(Region::empty(alloc));
    }
    let region = Region::from_blocks(alloc, blocks)?;
    Ok(region)
}

// The rows in which some of the rectangles stands.
fn rows_of(alloc: Global, blocks: &[Block]) -> Result<Region, NoMemory>
    requires { All IsBlock blocks.now }
    ensures { IfOk result (AreRowsOf blocks.now) }
{
    let rows = all_rows(alloc, blocks)?;
    let region = region_of(alloc, rows.as_slice())?;
    Ok(region)
}

// The rows of the rectangles that have cells in all of the columns.
fn rows_of_wide(alloc: Global, columns: &XRange, blocks: &[Block]) -> Result<Region, NoMemory>
    requires { All IsBlock blocks.now }
    ensures { IfOk result (AreRowsOf (filter (is_wide columns.now) blocks.now)) }
{
    let wide = wide(alloc, columns, blocks)?;
    let region = rows_of(alloc, wide.as_slice())?;
    Ok(region)
}

// A column at which a stretch is divided: the middle one of the cuts, which are the sides inside it.
fn middle_of(columns: &XRange, cuts: &[i32]) -> i32
    requires { (columns.now.x1 +ℤ pos 1) <ℤ columns.now.x2 }
    ensures low { columns.now.x1 <ℤ result }
    ensures high { result <ℤ columns.now.x2 }
{
    match cuts.get(cuts.len() / 2) {
        Some(cut) if columns.x1 < *cut && *cut < columns.x2 => *cut,
        _ => columns.x1 + 1,
    }
}

fn halves(columns: &XRange, cuts: &[i32]) -> (XRange, XRange)
    requires { (columns.now.x1 +ℤ pos 1) <ℤ columns.now.x2 }
    ensures { AreHalves columns.now result.0 result.1 }
{
    let middle = middle_of(columns, cuts);
    let left = XRange {
        x1: columns.x1,
        x2: middle,
    };
    let right = XRange {
        x1: middle,
        x2: columns.x2,
    };
    (left, right)
}

// Sets of rows are put together here, as regions are; most stretches have no rows at all, and these cost nothing.
fn either(alloc: Global, one: Region, other: Region) -> Result<Region, NoMemory>
    ensures { IfOk result (λ r. (x y : ℤ) → Covers r x y ↔ (Covers one x y ⊎ Covers other x y)) }
{
    if one.is_empty() {
        return Ok(other);
    }
    if other.is_empty() {
        return Ok(one);
    }
    one.either(alloc, &other)
}

fn both(alloc: Global, one: Region, other: Region) -> Result<Region, NoMemory>
    ensures { IfOk result (λ r. (x y : ℤ) → Covers r x y ↔ (Covers one x y × Covers other x y)) }
{
    if one.is_empty() {
        return Ok(one);
    }
    if other.is_empty() {
        return Ok(other);
    }
    one.both(alloc, &other)
}

fn minus(alloc: Global, one: Region, other: &Region) -> Result<Region, NoMemory>
    ensures { IfOk result (λ r. (x y : ℤ) → Covers r x y ↔ (Covers one x y × (Covers other.now x y → ⊥))) }
{
    if one.is_empty() {
        return Ok(one);
    }
    if other.is_empty() {
        return Ok(one);
    }
    one.minus(alloc, other)
}

// The rows of a stretch from those of its two parts. The wide rectangles of both lists give these.
fn joined(
    alloc: Global,
    filled: Region,
    closed: Region,
    left: Rows,
    right: Rows,
) -> Result<Rows, NoMemory>
    ensures { IfOk result (λ rows. AreJoined filled closed left right rows) }
{
    let shut = both(alloc, left.shut, right.shut)?;
    let unshut = minus(alloc, filled, &shut)?;
    let bare = either(alloc, left.bare, right.bare)?;
    let bare = either(alloc, bare, unshut)?;
    Ok(Rows {
        bare: minus(alloc, bare, &closed)?,
        shut: either(alloc, shut, closed)?,
    })
}

// Where each rectangle of the second list that has cells in the columns is wide, those of the first list, wide or not,
// are bare in all other rows.
fn alike(alloc: Global, filled: Region, partly: Region, closed: Region) -> Result<Rows, NoMemory>
    ensures { IfOk result (AreAlike filled partly closed) }
{
    let held = either(alloc, filled, partly)?;
    Ok(Rows {
        bare: minus(alloc, held, &closed)?,
        shut: closed,
    })
}

/// The rows in which some cell of the columns is in a rectangle of `first` and in none of `second`, and those in which
/// all cells of the columns are in some of `second`. The cuts are the sides of `second` between, ascending.
pub(crate) fn bare_rows(
    alloc: Global,
    columns: &XRange,
    cuts: &[i32],
    first: &[Block],
    second: &[Block],
) -> Result<Rows, NoMemory>
    requires columns { columns.now.x1 <ℤ columns.now.x2 }
    requires first { All IsBlock first.now }
    requires second { All IsBlock second.now }
    ensures { IfOk result (AreRows columns.now first.now second.now) }
{
    let filled = rows_of_wide(alloc, columns, first)?;
    let closed = rows_of_wide(alloc, columns, second)?;
    let first_parts = parts(alloc, columns, first)?;
    let second_parts = parts(alloc, columns, second)?;
    let some = first_parts.as_slice();
    let more = second_parts.as_slice();
    if more.is_empty() {
        let partly = rows_of(alloc, some)?;
        return alike(alloc, filled, partly, closed);
    }
    let (before, behind) = cuts.split_at(cuts.len() / 2);
    let (left, right) = halves(columns, cuts);
    let left = bare_rows(alloc, &left, before, some, more)?;
    let right = bare_rows(alloc, &right, behind, some, more)?;
    joined(alloc, filled, closed, left, right)
}
