// The rectangles of a boundary by the even-odd rule, row by row: no more is kept than the crossings of
// one row.
ghost use Rattle.std.specs.Prelude.{◌≡◌, ◌≤◌, [], ◌∷◌, ◌++◌, None, map, ℤ, IfOk, OnOk};
ghost use Rattle.gds_area.specs.Points.{steps_from};
ghost use Rattle.gds_area.specs.EvenOdd.{odd_ones, runs, inside_walk};
ghost use Rattle.gds_area.specs.Areas.{area_of, has_some, put, Puts};
ghost use Rattle.gds_area.specs.Sweep.{ends_of, unpaired, PairsOff, row_areas, swept_all};

use crate::GdsFault;
use crate::area::{Area, DrawContext, add_area, doubled};
use crate::point::Point;
use crate::units::MOST_PICOMETRES;
use box_geom::ShapeList;
use std::alloc::{AllocError, Global};

/// An end of a side. From its row on upward one more side or one fewer crosses at `x`.
#[derive(Clone, Copy, Debug, PartialEq, Eq, PartialOrd, Ord)]
pub struct SideEnd {
    pub y: i32,
    pub x: i32,
}

// The ends of the sides, in the order of the points.
fn side_ends(alloc: Global, first: &Point, rest: &[Point]) -> Result<Vec<SideEnd>, AllocError>
    ensures { IfOk result (λ v. v.items ≡ ends_of (steps_from first.now rest.now)) }
{
    let mut ends = Vec::new(alloc);
    let mut from = *first;
    for to in rest {
        ends.push(SideEnd {
            y: from.y,
            x: from.x,
        })?;
        ends.push(SideEnd { y: to.y, x: from.x })?;
        from = *to;
    }
    Ok(ends)
}

fn push(xs: &mut Vec<i32>, x: &i32) -> Result<(), AllocError>
    ensures { OnOk result (xs.new.items ≡ xs.old.items ++ x.now ∷ []) }
{
    xs.push(*x)?;
    Ok(())
}

// A number of a sorted list goes away with its like, or waits for it.
#[tactic(auto, using(crate::proofs::Unpaired::waits, crate::proofs::Unpaired::goes, crate::proofs::Unpaired::stays))]
fn pair_off(out: &mut Vec<i32>, waiting: Option<i32>, x: &i32) -> Result<Option<i32>, AllocError>
    ensures { IfOk result (λ now. PairsOff out.old.items waiting x.now out.new.items now) }
{
    match waiting {
        None => Ok(Some(*x)),
        Some(y) => {
            if y == *x {
                return Ok(None);
            }
            push(out, &y)?;
            Ok(Some(*x))
        }
    }
}

fn finish(mut out: Vec<i32>, waiting: Option<i32>) -> Result<Vec<i32>, AllocError>
    ensures { IfOk result (λ v. v.items ≡ out.items ++ unpaired waiting []) }
{
    match waiting {
        None => Ok(out),
        Some(y) => {
            out.push(y)?;
            Ok(out)
        }
    }
}

// Of a sorted list, the numbers that it has an odd number of times.
fn unpaired(alloc: Global, xs: &[i32]) -> Result<Vec<i32>, AllocError>
    ensures { IfOk result (λ v. v.items ≡ unpaired None xs.now) }
{
    let mut out = Vec::new(alloc);
    let mut waiting = None;
    for x in xs {
        waiting = pair_off(&mut out, waiting, x)?;
    }
    finish(out, waiting)
}

// The numbers that a list has an odd number of times, ascending.
fn odd_ones(alloc: Global, mut xs: Vec<i32>) -> Result<Vec<i32>, AllocError>
    ensures { IfOk result (λ v. v.items ≡ odd_ones xs.items) }
{
    xs.sort_unstable();
    unpaired(alloc, xs.as_slice())
}

#[tactic(auto, unfolding(crate::specs::Areas::area_of))]
fn run(low: &SideEnd, high: &SideEnd, from: &i32, to: &i32) -> Area
    ensures { result ≡ area_of (record { x1 = from.now; y1 = low.now.y; x2 = to.now; y2 = high.now.y }) }
{
    Area {
        across: doubled(from, to),
        upward: doubled(&low.y, &high.y),
    }
}

// Draws the runs of the rows from one end's height to that of another.
#[tactic(auto, using(crate::proofs::Putting::stops, crate::proofs::Putting::goes_on))]
fn add_runs(
    low: &SideEnd,
    high: &SideEnd,
    xs: &[i32],
    draw_context: &DrawContext,
    rects: &mut ShapeList,
) -> Result<(), GdsFault>
    requires grid { 1 ≤ draw_context.now.grid.lambda_nm }
    requires unit { draw_context.now.grid.picometres ≤ MOST_PICOMETRES }
    ensures { Puts result rects.new (put draw_context.now rects.old (map area_of (runs low.now.y high.now.y xs.now))) }
{
    let mut rest = xs;
    while let [from, to, more @ ..] = rest {
        add_area(draw_context, &run(low, high, from, to), rects)?;
        rest = more;
    }
    Ok(())
}

// Draws the runs of the rows from one end's height to that of the next one. Of the crossings of the rows
// below come those of the rows above, but that the others at that height are not among them yet.
fn next_row(
    alloc: Global,
    row: &SideEnd,
    end: &SideEnd,
    xs: Vec<i32>,
    draw_context: &DrawContext,
    rects: &mut ShapeList,
) -> Result<Vec<i32>, GdsFault>
    requires grid { 1 ≤ draw_context.now.grid.lambda_nm }
    requires unit { draw_context.now.grid.picometres ≤ MOST_PICOMETRES }
    ensures drawn { Puts result rects.new (put draw_context.now rects.old (row_areas row.now end.now xs.items)) }
    ensures crossings { IfOk result (λ v. v.items ≡ odd_ones xs.items ++ end.now.x ∷ []) }
{
    let mut odd = odd_ones(alloc, xs)?;
    add_runs(row, end, odd.as_slice(), draw_context, rects)?;
    push(&mut odd, &end.x)?;
    Ok(odd)
}

// Draws what lies between the heights of ends that are sorted.
fn sweep(
    alloc: Global,
    ends: &[SideEnd],
    draw_context: &DrawContext,
    rects: &mut ShapeList,
) -> Result<(), GdsFault>
    requires grid { 1 ≤ draw_context.now.grid.lambda_nm }
    requires unit { draw_context.now.grid.picometres ≤ MOST_PICOMETRES }
    ensures { Puts result rects.new (put draw_context.now rects.old (map area_of (swept_all ends.now))) }
{
    let Some(first) = ends.first() else {
        return Ok(());
    };
    let mut row = *first;
    let mut xs = Vec::new(alloc);
    for end in ends {
        if end.y == row.y {
            push(&mut xs, &end.x)?;
            continue;
        }
        xs = next_row(alloc, &row, end, xs, draw_context, rects)?;
        row = *end;
    }
    Ok(())
}

/// Draws what lies inside a walk that ends where it began.
#[tactic(auto, using(crate::proofs::Sweeping::walk_swept))]
pub fn add_inside(
    alloc: Global,
    walk: &[Point],
    draw_context: &DrawContext,
    rects: &mut ShapeList,
) -> Result<(), GdsFault>
    requires grid { 1 ≤ draw_context.now.grid.lambda_nm }
    requires unit { draw_context.now.grid.picometres ≤ MOST_PICOMETRES }
    ensures { Puts result rects.new (put draw_context.now rects.old (map area_of (inside_walk walk.now))) }
{
    let Some((first, rest)) = walk.split_first() else {
        return Ok(());
    };
    let mut ends = side_ends(alloc, first, rest)?;
    ends.sort_unstable();
    sweep(alloc, ends.as_slice(), draw_context, rects)
}

fn has_run(xs: &[i32]) -> bool
    ensures { (low high : ℤ) → result ≡ has_some (runs low high xs.now) }
{
    match xs {
        [_, _, ..] => true,
        _ => false,
    }
}

// Whether any row between ends that are sorted has a run. A row without one leaves at most one crossing to the
// rows above, so no end is sorted again and again.
#[tactic(auto, using(crate::proofs::Enclosing::crossed_rules))]
fn crossed(alloc: Global, ends: &[SideEnd]) -> Result<bool, AllocError>
    ensures { IfOk result (λ some. some ≡ has_some (swept_all ends.now)) }
{
    let Some(first) = ends.first() else {
        return Ok(false);
    };
    let mut row = *first;
    let mut xs = Vec::new(alloc);
    for end in ends {
        if end.y == row.y {
            push(&mut xs, &end.x)?;
            continue;
        }
        let mut odd = odd_ones(alloc, xs)?;
        if has_run(odd.as_slice()) {
            return Ok(true);
        }
        push(&mut odd, &end.x)?;
        xs = odd;
        row = *end;
    }
    Ok(false)
}

/// Whether anything lies inside a walk that ends where it began.
#[tactic(auto, using(crate::proofs::Sweeping::walk_swept))]
pub fn encloses(alloc: Global, walk: &[Point]) -> Result<bool, AllocError>
    ensures { IfOk result (λ some. some ≡ has_some (inside_walk walk.now)) }
{
    let Some((first, rest)) = walk.split_first() else {
        return Ok(false);
    };
    let mut ends = side_ends(alloc, first, rest)?;
    ends.sort_unstable();
    crossed(alloc, ends.as_slice())
}
