// The shapes of fingers and of contacted node places.

ghost use Rattle.std.specs.Prelude.{◌≡◌, ◌≤◌, ◌<◌, ◌+◌, pos};
ghost use Rattle.box_geom.specs.declared.layer.Layer.TheVariants.{Metal1, Metal2};
ghost use Rattle.cell_draw.specs.Shapes.{upright, finger_low, finger_high, finger, centre, landing};
ghost use Rattle.cell_draw.specs.Shapes.{strap_low, strap_high, strap, branch_low, branch_high, branch};
ghost use Rattle.cell_draw.specs.Small.{IsSmallFrame, IsSmallStrip, IsSmallContact, IsHeight};

use crate::shape::upright;
use crate::{Contact, Frame, HALF_METAL, HALF_PAD, LANDING, MOST_X, MOST_Y, RAIL, RAIL_GAP, Strip};
use box_geom::{Layer, Rect, Shape};
use cell_num::Row;

// From a lower to an upper height.
#[derive(Clone, Copy)]
struct Span {
    low: u32,
    high: u32,
}

fn finger_span(frame: &Frame, strip: &Strip) -> Span
    requires frame { IsSmallFrame frame.now }
    requires strip { IsSmallStrip frame.now strip.now }
    ensures low { pos result.low ≡ finger_low frame.now strip.now.row strip.now.width }
    ensures high { pos result.high ≡ finger_high frame.now strip.now.row strip.now.width }
    ensures ascends { result.low < result.high }
    ensures most { result.high ≤ MOST_Y }
{
    match strip.row {
        Row::N => Span {
            low: frame.n_edge - strip.width,
            high: frame.n_edge,
        },
        Row::P => Span {
            low: frame.p_edge,
            high: frame.p_edge + strip.width,
        },
    }
}

/// The active of a finger, between its node lines and as high as its transistor is wide.
pub fn finger(frame: &Frame, strip: &Strip) -> Shape
    requires frame { IsSmallFrame frame.now }
    requires strip { IsSmallStrip frame.now strip.now }
    ensures { result ≡ finger frame.now strip.now }
{
    let span = finger_span(frame, strip);
    Shape {
        layer: Layer::Active,
        rect: Rect {
            x1: strip.left as i32,
            y1: span.low as i32,
            x2: strip.right as i32,
            y2: span.high as i32,
        },
    }
}

/// The height of the centre of a node's contact, in grid units: half a pad inside the row.
pub fn centre(frame: &Frame, row: Row) -> u32
    requires { IsSmallFrame frame.now }
    ensures value { pos result ≡ centre frame.now row }
    ensures most { result ≤ 150000 }
{
    match row {
        Row::N => frame.n_edge - HALF_PAD,
        Row::P => frame.p_edge + HALF_PAD,
    }
}

/// The height of the centre of a signal's landing via, in grid units: inside the channel.
pub fn landing(frame: &Frame, row: Row) -> u32
    requires { IsSmallFrame frame.now }
    ensures value { pos result ≡ landing frame.now row }
    ensures most { result ≤ 150000 }
{
    match row {
        Row::N => frame.n_edge + LANDING,
        Row::P => frame.p_edge - LANDING,
    }
}

// A rail's strap begins at the rail; a signal's goes past the landing via. Both go past the contact.
fn strap_span(frame: &Frame, row: Row, reach: Option<u32>) -> Span
    requires { IsSmallFrame frame.now }
    ensures low { pos result.low ≡ strap_low frame.now row reach }
    ensures high { pos result.high ≡ strap_high frame.now row reach }
    ensures ascends { result.low < result.high }
    ensures most { result.high ≤ MOST_Y }
{
    let centre = centre(frame, row);
    let landing = landing(frame, row);
    match (row, reach) {
        (Row::N, None) => Span {
            low: RAIL,
            high: centre + HALF_METAL,
        },
        (Row::P, None) => Span {
            low: centre - HALF_METAL,
            high: frame.p_edge + frame.p_height + RAIL_GAP,
        },
        (Row::N, Some(_)) => Span {
            low: centre - HALF_METAL,
            high: landing + HALF_METAL,
        },
        (Row::P, Some(_)) => Span {
            low: landing - HALF_METAL,
            high: centre + HALF_METAL,
        },
    }
}

/// The metal1 of a node's contact: to the rail of a rail's net, to the landing via of a signal.
pub fn strap(frame: &Frame, contact: &Contact) -> Shape
    requires frame { IsSmallFrame frame.now }
    requires contact { IsSmallContact frame.now contact.now }
    ensures { result ≡ strap frame.now contact.now.row contact.now.x contact.now.reach }
{
    let span = strap_span(frame, contact.row, contact.reach);
    upright(Layer::Metal1, contact.x, HALF_METAL, span.low, span.high)
}

// From past the landing via to past the track that is reached.
fn branch_span(frame: &Frame, row: Row, reach: u32) -> Span
    requires frame { IsSmallFrame frame.now }
    requires reach { IsHeight frame.now reach }
    ensures low { pos result.low ≡ branch_low frame.now row reach }
    ensures high { pos result.high ≡ branch_high frame.now row reach }
    ensures ascends { result.low < result.high }
    ensures most { result.high ≤ MOST_Y }
{
    let landing = landing(frame, row);
    match row {
        Row::N => Span {
            low: landing - HALF_METAL,
            high: reach + HALF_METAL,
        },
        Row::P => Span {
            low: reach - HALF_METAL,
            high: landing + HALF_METAL,
        },
    }
}

/// The metal2 from the landing via at `x` to a track whose middle is at the height `reach`.
pub fn branch(frame: &Frame, row: Row, x: u32, reach: u32) -> Shape
    requires frame { IsSmallFrame frame.now }
    requires x { x ≤ MOST_X }
    requires reach { IsHeight frame.now reach }
    ensures { result ≡ branch frame.now row x reach }
{
    let span = branch_span(frame, row, reach);
    upright(Layer::Metal2, x, HALF_METAL, span.low, span.high)
}
