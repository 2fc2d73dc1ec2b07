// Areas of a file as rectangles of a drawing.
ghost use Rattle.std.specs.Prelude.{◌≡◌, ◌≤◌, [], ◌∷◌, IfSome, OnOk};
ghost use Rattle.gds_area.specs.Units.{IsSide};
ghost use Rattle.gds_area.specs.Moves.{between_corners, moved_area, IsWithin};
ghost use Rattle.gds_area.specs.Areas.{span_of, side_of, rectangle_of, with_kept, put, Puts};

use crate::GdsFault;
use crate::placement::{Move, Vector, moved};
use crate::units::{Ends, Grid, MOST_PICOMETRES, whole_units};
use box_geom::{Layer, Rect, Shape, ShapeList};
use cell_num::NoMemory;

/// The most rectangles that are read from one structure.
pub const MOST_RECTANGLES: usize = 1_000_000;

/// From one coordinate to another, in halves of a file unit.
#[derive(Clone, Copy, Debug, PartialEq, Eq)]
pub struct Span {
    pub low: i64,
    pub high: i64,
}

/// A rectangle of the file.
#[derive(Clone, Copy, Debug, PartialEq, Eq)]
pub struct Area {
    pub across: Span,
    pub upward: Span,
}

/// What an element draws with: the grid, how its structure is placed, its layer, and the place of its points.
#[derive(Clone, Copy, Debug, PartialEq, Eq)]
pub struct DrawContext {
    pub grid: Grid,
    pub stands: Move,
    pub layer: Layer,
    pub at: u64,
}

/// Two coordinates of the file in halves of its unit.
pub fn doubled(low: &i32, high: &i32) -> Span
    ensures { result ≡ span_of low.now high.now }
{
    Span {
        low: 2 * i64::from(*low),
        high: 2 * i64::from(*high),
    }
}

// Two coordinates as the ends of a side, if they are whole and differ.
fn side(grid: &Grid, low: i128, high: i128) -> Option<Ends>
    requires grid { 1 ≤ grid.now.lambda_nm }
    requires unit { grid.now.picometres ≤ MOST_PICOMETRES }
    requires low { IsWithin 66 low }
    requires high { IsWithin 66 high }
    ensures value { result ≡ side_of grid.now (record { low = low; high = high }) }
    ensures sides { IfSome result IsSide }
{
    match (whole_units(grid, low), whole_units(grid, high)) {
        (Some(a), Some(b)) => {
            if a < b {
                Some(Ends { low: a, high: b })
            } else if b < a {
                Some(Ends { low: b, high: a })
            } else {
                None
            }
        }
        _ => None,
    }
}

fn between(across: Ends, upward: Ends) -> Rect
    requires across { IsSide across }
    requires upward { IsSide upward }
    ensures { result ≡ record { x1 = across.low; y1 = upward.low; x2 = across.high; y2 = upward.high } }
{
    Rect {
        x1: across.low,
        y1: upward.low,
        x2: across.high,
        y2: upward.high,
    }
}

// Between two corners, in grid units.
#[tactic(auto, unfolding(crate::specs::Areas::rectangle_of))]
fn cornered(grid: &Grid, first: &Vector, last: &Vector) -> Option<Rect>
    requires grid { 1 ≤ grid.now.lambda_nm }
    requires unit { grid.now.picometres ≤ MOST_PICOMETRES }
    requires first_x { IsWithin 66 first.now.x }
    requires first_y { IsWithin 66 first.now.y }
    requires last_x { IsWithin 66 last.now.x }
    requires last_y { IsWithin 66 last.now.y }
    ensures { result ≡ rectangle_of grid.now (between_corners first.now last.now) }
{
    let Some(across) = side(grid, first.x, last.x) else {
        return None;
    };
    let Some(upward) = side(grid, first.y, last.y) else {
        return None;
    };
    Some(between(across, upward))
}

// The area at its place, in grid units.
#[tactic(auto, unfolding(crate::specs::Moves::moved_area))]
fn rectangle(grid: &Grid, stands: &Move, area: &Area) -> Option<Rect>
    requires grid { 1 ≤ grid.now.lambda_nm }
    requires unit { grid.now.picometres ≤ MOST_PICOMETRES }
    ensures { result ≡ rectangle_of grid.now (moved_area stands.now area.now) }
{
    let first = moved(stands, area.across.low, area.upward.low);
    let last = moved(stands, area.across.high, area.upward.high);
    cornered(grid, &first, &last)
}

// Adds a rectangle, unless there is one above the limit already.
#[tactic(auto, unfolding(crate::specs::Areas::with_kept))]
fn keep(rects: &mut ShapeList, shape: Shape) -> Result<(), NoMemory>
    ensures { OnOk result (rects.new ≡ with_kept rects.old shape) }
{
    if rects.len() > MOST_RECTANGLES {
        return Ok(());
    }
    rects.push(shape)?;
    Ok(())
}

/// Draws an area.
pub fn add_area(
    draw_context: &DrawContext,
    area: &Area,
    rects: &mut ShapeList,
) -> Result<(), GdsFault>
    requires grid { 1 ≤ draw_context.now.grid.lambda_nm }
    requires unit { draw_context.now.grid.picometres ≤ MOST_PICOMETRES }
    ensures { Puts result rects.new (put draw_context.now rects.old (area.now ∷ [])) }
{
    let Some(rect) = rectangle(&draw_context.grid, &draw_context.stands, area) else {
        return Err(GdsFault::Grid {
            at: draw_context.at,
        });
    };
    keep(
        rects,
        Shape {
            layer: draw_context.layer,
            rect,
        },
    )?;
    Ok(())
}
