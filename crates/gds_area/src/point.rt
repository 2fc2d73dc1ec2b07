// The points of boundaries and paths.
ghost use Rattle.std.specs.Prelude.{◌≡◌, ◌≤◌, ◌+◌, length, IfOk, OnOk};
ghost use Rattle.gds_area.specs.Points.{signed_at, point_at, points_of, is_slanted, has_slant, closed};

use std::alloc::{AllocError, Global};

/// A point of a file, in file units.
#[derive(Clone, Copy, Debug, PartialEq, Eq)]
pub struct Point {
    pub x: i32,
    pub y: i32,
}

/// A four-byte integer, the high byte first.
pub fn signed(content: &[u8], at: usize) -> i32
    requires { at + 4 ≤ length content.now }
    ensures { result ≡ signed_at at content.now }
{
    i32::from_be_bytes([
        content[at],
        content[at + 1],
        content[at + 2],
        content[at + 3],
    ])
}

/// The point at a place.
pub fn read_point(xy: &[u8], at: usize) -> Point
    requires { at + 8 ≤ length xy.now }
    ensures { result ≡ point_at at xy.now }
{
    Point {
        x: signed(xy, at),
        y: signed(xy, at + 4),
    }
}

/// The points of an XY record's data.
#[tactic(auto, using(crate::proofs::PointLists::points_more))]
pub fn points(alloc: Global, xy: &[u8]) -> Result<Vec<Point>, AllocError>
    ensures { IfOk result (λ v. v.items ≡ points_of xy.now) }
{
    let mut points = Vec::new(alloc);
    for at in 0..xy.len() / 8 {
        points.push(read_point(xy, 8 * at))?;
    }
    Ok(points)
}

fn slant(from: &Point, to: &Point) -> bool
    ensures { result ≡ is_slanted (record { from = from.now; to = to.now }) }
{
    from.x != to.x && from.y != to.y
}

/// Whether two neighbouring points differ in both coordinates.
pub fn slanted(points: &[Point]) -> bool
    ensures { result ≡ has_slant points.now }
{
    let Some((first, rest)) = points.split_first() else {
        return false;
    };
    let mut from = *first;
    for to in rest {
        if slant(&from, to) {
            return true;
        }
        from = *to;
    }
    false
}

/// Takes the points round to the first one again.
pub fn close(points: &mut Vec<Point>) -> Result<(), AllocError>
    ensures { OnOk result (points.new.items ≡ closed points.old.items) }
{
    let Some(first) = points.first() else {
        return Ok(());
    };
    let first = *first;
    points.push(first)?;
    Ok(())
}
