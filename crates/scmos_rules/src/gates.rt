// Rules on the cells that follow outward from a cell.
ghost use Rattle.std.specs.Prelude.{◌≡◌, ◌≤◌, IfOk};
ghost use Rattle.box_geom.specs.Rectangle.{Covers};
ghost use Rattle.box_geom.specs.Regions.{OnPlane, IsSmall};
ghost use Rattle.scmos_rules.specs.Gates.{Ahead, FailsPolyEnd, FailsActiveEnd, FailsFieldPoly};
ghost use Rattle.scmos_rules.specs.Outward.{shift_across, shift_upward, EndsEarly, StandsEarly, MeetsEarly, AreOneOf};
ghost use Rattle.scmos_rules.specs.Layout.{Bare};
ghost use Rattle.scmos_rules.specs.Cells.{AreCells, AreInner};
ghost use Rattle.scmos_rules.specs.Regions.{Lacks, way_of};

use crate::sets::{diffusion, field_poly, gate, on};
use box_geom::{Layer, Region, Shapes};
use cell_num::NoMemory;
use std::alloc::Global;

/// The four directions.
#[derive(Clone, Copy, Debug, PartialEq, Eq)]
pub enum Heading {
    Right,
    Left,
    Up,
    Down,
}

// How far a set is shifted so that each cell shows the one at a distance ahead.
fn across(heading: Heading, distance: u32) -> i32
    requires { distance ≤ 1000 }
    ensures value { result ≡ shift_across heading distance }
    ensures small { IsSmall result }
{
    match heading {
        Heading::Right => -(distance as i32),
        Heading::Left => distance as i32,
        Heading::Up | Heading::Down => 0,
    }
}

fn upward(heading: Heading, distance: u32) -> i32
    requires { distance ≤ 1000 }
    ensures value { result ≡ shift_upward heading distance }
    ensures small { IsSmall result }
{
    match heading {
        Heading::Up => -(distance as i32),
        Heading::Down => distance as i32,
        Heading::Right | Heading::Left => 0,
    }
}

// The cells whose cell at a distance in a direction is in the set.
fn ahead(alloc: Global, set: &Region, heading: Heading, distance: u32) -> Result<Region, NoMemory>
    requires small { distance ≤ 1000 }
    ensures { IfOk result (λ r. AreCells
        (λ x y. OnPlane x y × Ahead (Covers set.now) (way_of heading) distance x y) r) }
{
    let dx = across(heading, distance);
    let dy = upward(heading, distance);
    let region = set.shifted(alloc, dx, dy)?;
    Ok(region)
}

// The cells of a set from which, in a direction, one of a number of cells is not in the other set.
fn lacking(
    alloc: Global,
    base: &Region,
    set: &Region,
    heading: Heading,
    last: u32,
) -> Result<Region, NoMemory>
    requires inner { AreInner base.now }
    requires small { last ≤ 1000 }
    ensures { IfOk result (λ r. AreCells
        (λ x y. Covers base.now x y × Lacks (Covers set.now) (way_of heading) last x y) r) }
{
    let mut found = Region::empty(alloc);
    for distance in 0..last {
        let there = ahead(alloc, set, heading, distance + 1)?;
        let out = base.minus(alloc, &there)?;
        let more = found.either(alloc, &out)?;
        found = more;
    }
    Ok(found)
}

fn together(
    alloc: Global,
    right: &Region,
    left: &Region,
    up: &Region,
    down: &Region,
) -> Result<Region, NoMemory>
    ensures { IfOk result (λ r. AreOneOf right.now left.now up.now down.now r) }
{
    let across = right.either(alloc, left)?;
    let upward = up.either(alloc, down)?;
    let region = across.either(alloc, &upward)?;
    Ok(region)
}

fn ending_early(alloc: Global, shapes: &Shapes, heading: Heading) -> Result<Region, NoMemory>
    ensures { IfOk result (λ r. AreCells (EndsEarly shapes.now.rects 4 (way_of heading)) r) }
{
    let gates = gate(alloc, shapes)?;
    let active = on(alloc, shapes, Layer::Active)?;
    let poly = on(alloc, shapes, Layer::Poly)?;
    let beyond = ahead(alloc, &active, heading, 1)?;
    let base = gates.minus(alloc, &beyond)?;
    let region = lacking(alloc, &base, &poly, heading, 4)?;
    Ok(region)
}

fn standing_early(alloc: Global, shapes: &Shapes, heading: Heading) -> Result<Region, NoMemory>
    ensures { IfOk result (λ r. AreCells (StandsEarly shapes.now.rects 6 (way_of heading)) r) }
{
    let gates = gate(alloc, shapes)?;
    let active = on(alloc, shapes, Layer::Active)?;
    let bare = diffusion(alloc, shapes)?;
    let beside = ahead(alloc, &bare, heading, 1)?;
    let base = gates.both(alloc, &beside)?;
    let region = lacking(alloc, &base, &active, heading, 6)?;
    Ok(region)
}

fn meeting_early(alloc: Global, shapes: &Shapes, heading: Heading) -> Result<Region, NoMemory>
    ensures { IfOk result (λ r. AreCells (MeetsEarly shapes.now.rects 2 (way_of heading)) r) }
{
    let field = field_poly(alloc, shapes)?;
    let bare = diffusion(alloc, shapes)?;
    let next = ahead(alloc, &bare, heading, 1)?;
    let first = field.both(alloc, &next)?;
    let free = bare_ahead(alloc, shapes, &field, heading)?;
    let behind = ahead(alloc, &bare, heading, 2)?;
    let second = free.both(alloc, &behind)?;
    let region = first.either(alloc, &second)?;
    Ok(region)
}

// The cells of a set whose next cell in a direction is neither poly nor active.
fn bare_ahead(
    alloc: Global,
    shapes: &Shapes,
    set: &Region,
    heading: Heading,
) -> Result<Region, NoMemory>
    requires inner { AreInner set.now }
    ensures { IfOk result (λ r. AreCells
        (λ x y. Covers set.now x y × Ahead (Bare shapes.now.rects) (way_of heading) 1 x y) r) }
{
    let poly = on(alloc, shapes, Layer::Poly)?;
    let active = on(alloc, shapes, Layer::Active)?;
    let poly_next = ahead(alloc, &poly, heading, 1)?;
    let active_next = ahead(alloc, &active, heading, 1)?;
    let no_poly = set.minus(alloc, &poly_next)?;
    let region = no_poly.minus(alloc, &active_next)?;
    Ok(region)
}

// Gate cells where poly ends too early past active.
pub(crate) fn poly_end(alloc: Global, shapes: &Shapes) -> Result<Region, NoMemory>
    ensures { IfOk result (λ r. AreCells (FailsPolyEnd shapes.now.rects 4) r) }
{
    let right = ending_early(alloc, shapes, Heading::Right)?;
    let left = ending_early(alloc, shapes, Heading::Left)?;
    let up = ending_early(alloc, shapes, Heading::Up)?;
    let down = ending_early(alloc, shapes, Heading::Down)?;
    let region = together(alloc, &right, &left, &up, &down)?;
    Ok(region)
}

// Gate cells where active ends too early past poly.
pub(crate) fn active_end(alloc: Global, shapes: &Shapes) -> Result<Region, NoMemory>
    ensures { IfOk result (λ r. AreCells (FailsActiveEnd shapes.now.rects 6) r) }
{
    let right = standing_early(alloc, shapes, Heading::Right)?;
    let left = standing_early(alloc, shapes, Heading::Left)?;
    let up = standing_early(alloc, shapes, Heading::Up)?;
    let down = standing_early(alloc, shapes, Heading::Down)?;
    let region = together(alloc, &right, &left, &up, &down)?;
    Ok(region)
}

// Field poly cells too close to active.
pub(crate) fn field_distance(alloc: Global, shapes: &Shapes) -> Result<Region, NoMemory>
    ensures { IfOk result (λ r. AreCells (FailsFieldPoly shapes.now.rects 2) r) }
{
    let right = meeting_early(alloc, shapes, Heading::Right)?;
    let left = meeting_early(alloc, shapes, Heading::Left)?;
    let up = meeting_early(alloc, shapes, Heading::Up)?;
    let down = meeting_early(alloc, shapes, Heading::Down)?;
    let region = together(alloc, &right, &left, &up, &down)?;
    Ok(region)
}
