// The areas of a path.
ghost use Rattle.std.specs.Prelude.{◌≡◌, ◌≤◌, ◌==◌};
ghost use Rattle.gds_area.specs.Areas.{has_some, put, Puts};
ghost use Rattle.gds_area.specs.Paths.{thinned, width_of, stretch, long, segment};
ghost use Rattle.gds_area.specs.Paths.{all_segments, past_second, past_ends, path_areas};

use crate::GdsFault;
use crate::area::{Area, DrawContext, Span, add_area};
use crate::point::{Point, signed};
use crate::units::MOST_PICOMETRES;
use box_geom::ShapeList;

/// Half the width of a path, and how far it goes past its outer points, in halves of a file unit.
#[derive(Clone, Copy, Debug, PartialEq, Eq)]
pub struct Reach {
    pub half: u32,
    pub ends: u32,
}

/// The width of a path: the data of its WIDTH record, or none.
pub fn width(content: &[u8]) -> u32
    ensures { result ≡ width_of content.now }
{
    if content.len() != 4 {
        return 0;
    }
    signed(content, 0).unsigned_abs()
}

/// How far a path of a type goes past its outer points; None where the type is neither 0 nor 2.
pub fn past_ends(half: u32, form: u16) -> Option<u32>
    ensures { result ≡ past_ends half form }
{
    match form {
        0 => Some(0),
        2 => Some(half),
        _ => None,
    }
}

// From a coordinate to a higher one, and past each of them.
#[tactic(auto, unfolding(crate::specs::Paths::stretch))]
fn stretch(before: u32, behind: u32, low: &i32, high: &i32) -> Span
    ensures { result ≡ stretch before behind low.now high.now }
{
    let first = 2 * i64::from(*low);
    let last = 2 * i64::from(*high);
    Span {
        low: first - i64::from(before),
        high: last + i64::from(behind),
    }
}

fn long(past_a: u32, past_b: u32, a: &i32, b: &i32) -> Span
    ensures { result ≡ long past_a past_b a.now b.now }
{
    if *a < *b {
        stretch(past_a, past_b, a, b)
    } else {
        stretch(past_b, past_a, b, a)
    }
}

#[tactic(auto, unfolding(crate::specs::Paths::segment))]
fn segment(half: u32, past_a: u32, past_b: u32, a: &Point, b: &Point) -> Area
    ensures { result ≡ segment half past_a past_b a.now b.now }
{
    if a.y == b.y {
        Area {
            across: long(past_a, past_b, &a.x, &b.x),
            upward: stretch(half, half, &a.y, &a.y),
        }
    } else {
        Area {
            across: stretch(half, half, &a.x, &a.x),
            upward: long(past_a, past_b, &a.y, &b.y),
        }
    }
}

// How far a segment goes past its second point, before these points.
fn past_second(reach: &Reach, more: &[Point]) -> u32
    ensures { result ≡ past_second reach.now.half reach.now.ends more.now }
{
    match more {
        [] => reach.ends,
        [_, ..] => reach.half,
    }
}

// Draws the segments between points that neighbours do not share.
#[tactic(auto, using(crate::proofs::Putting::stops, crate::proofs::Putting::goes_on, crate::proofs::Rows::no_segment))]
fn add_segments(
    reach: &Reach,
    points: &[Point],
    draw_context: &DrawContext,
    rects: &mut ShapeList,
) -> Result<(), GdsFault>
    requires grid { 1 ≤ draw_context.now.grid.lambda_nm }
    requires unit { draw_context.now.grid.picometres ≤ MOST_PICOMETRES }
    ensures { Puts result rects.new
        (put draw_context.now rects.old (all_segments reach.now.half reach.now.ends points.now)) }
{
    let mut rest = points;
    let mut past = reach.ends;
    while let [a, b, more @ ..] = rest {
        let past_second = past_second(reach, more);
        add_area(
            draw_context,
            &segment(reach.half, past, past_second, a, b),
            rects,
        )?;
        past = reach.half;
        rest = &rest[1..];
    }
    Ok(())
}

fn thin(mut points: Vec<Point>) -> Vec<Point>
    ensures { result.items ≡ thinned points.items }
{
    points.dedup();
    points
}

/// Draws a path through points.
pub fn add_path_areas(
    reach: &Reach,
    points: Vec<Point>,
    draw_context: &DrawContext,
    rects: &mut ShapeList,
) -> Result<(), GdsFault>
    requires grid { 1 ≤ draw_context.now.grid.lambda_nm }
    requires unit { draw_context.now.grid.picometres ≤ MOST_PICOMETRES }
    ensures { Puts result rects.new
        (put draw_context.now rects.old (path_areas reach.now.half reach.now.ends points.items)) }
{
    if reach.half == 0 {
        return Ok(());
    }
    let points = thin(points);
    add_segments(reach, points.as_slice(), draw_context, rects)
}

/// Whether a path through points covers anything.
#[tactic(auto, using(crate::proofs::Enclosing::some_segment, crate::proofs::Enclosing::few_points))]
pub fn has_path_areas(reach: &Reach, points: Vec<Point>) -> bool
    ensures { result ≡ has_some (path_areas reach.now.half reach.now.ends points.items) }
{
    if reach.half == 0 {
        return false;
    }
    let points = thin(points);
    points.len() >= 2
}
