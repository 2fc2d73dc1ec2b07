// One shape of a layout: primitives, and well, selects and rails.

ghost use Rattle.std.specs.Prelude.{◌≡◌, ◌≤◌, ◌<◌, ◌+◌, ◌-ℤ◌, pos};
ghost use Rattle.box_geom.specs.declared.layer.Layer.TheVariants.{Metal1};
ghost use Rattle.cell_draw.specs.Shapes.{box, around, upright, well, p_select, n_select, gnd_rail, vdd_rail};
ghost use Rattle.cell_draw.specs.Small.{IsSmallFrame};

use crate::{
    Frame, MOST_X, MOST_Y, RAIL, RAIL_GAP, ROW_EDGE, SELECT_PAST_ROW, SELECT_PAST_SIDE,
    WELL_PAST_ROW, WELL_PAST_SIDE,
};
use box_geom::{Layer, Rect, Shape};

// A rectangle over the width of the cell and `beyond` grid units past it on both sides.
fn across(layer: Layer, frame: &Frame, beyond: u32, low: u32, high: u32) -> Shape
    requires frame { IsSmallFrame frame.now }
    requires beyond { beyond ≤ 10 }
    requires ascends { low < high }
    requires high { high ≤ MOST_Y }
    ensures { result ≡ box layer (pos 0 -ℤ pos beyond) (pos low) (pos (frame.now.width + beyond)) (pos high) }
{
    Shape {
        layer,
        rect: Rect {
            x1: 0 - beyond as i32,
            y1: low as i32,
            x2: (frame.width + beyond) as i32,
            y2: high as i32,
        },
    }
}

/// The square around a point that reaches `by` grid units to each side.
pub fn square(layer: Layer, x: u32, y: u32, by: u32) -> Shape
    // Its sides stay within the limits of a rectangle.
    requires x { x ≤ 999999990 }
    requires y { y ≤ 999999990 }
    requires some { 0 < by }
    requires by { by ≤ 10 }
    ensures { result ≡ around layer x (pos y) by }
{
    Shape {
        layer,
        rect: Rect {
            x1: x as i32 - by as i32,
            y1: y as i32 - by as i32,
            x2: x as i32 + by as i32,
            y2: y as i32 + by as i32,
        },
    }
}

/// From `low` to `high`, and `by` grid units to both sides of a line.
pub fn upright(layer: Layer, x: u32, by: u32, low: u32, high: u32) -> Shape
    requires x { x ≤ MOST_X }
    requires some { 0 < by }
    requires by { by ≤ 10 }
    requires ascends { low < high }
    requires high { high ≤ MOST_Y }
    ensures { result ≡ upright layer x by (pos low) (pos high) }
{
    Shape {
        layer,
        rect: Rect {
            x1: x as i32 - by as i32,
            y1: low as i32,
            x2: x as i32 + by as i32,
            y2: high as i32,
        },
    }
}

/// The well: over the P row, past its channel edge and the cell's sides, up to the top of the cell.
pub fn well(frame: &Frame) -> Shape
    requires { IsSmallFrame frame.now }
    ensures { result ≡ well frame.now }
{
    across(
        Layer::Well,
        frame,
        WELL_PAST_SIDE,
        frame.p_edge - WELL_PAST_ROW,
        frame.p_edge + frame.p_height + ROW_EDGE,
    )
}

/// The select of the P row, past the row on all sides.
pub fn p_select(frame: &Frame) -> Shape
    requires { IsSmallFrame frame.now }
    ensures { result ≡ p_select frame.now }
{
    across(
        Layer::PSelect,
        frame,
        SELECT_PAST_SIDE,
        frame.p_edge - SELECT_PAST_ROW,
        frame.p_edge + frame.p_height + SELECT_PAST_ROW,
    )
}

/// The select of the N row, past the row on all sides.
pub fn n_select(frame: &Frame) -> Shape
    requires { IsSmallFrame frame.now }
    ensures { result ≡ n_select frame.now }
{
    across(
        Layer::NSelect,
        frame,
        SELECT_PAST_SIDE,
        frame.n_edge - (frame.n_height + SELECT_PAST_ROW),
        frame.n_edge + SELECT_PAST_ROW,
    )
}

/// The lower rail, at the bottom of the cell.
pub fn gnd_rail(frame: &Frame) -> Shape
    requires { IsSmallFrame frame.now }
    ensures { result ≡ gnd_rail frame.now }
{
    across(Layer::Metal1, frame, 0, 0, RAIL)
}

/// The upper rail, at the top of the cell.
pub fn vdd_rail(frame: &Frame) -> Shape
    requires { IsSmallFrame frame.now }
    ensures { result ≡ vdd_rail frame.now }
{
    across(
        Layer::Metal1,
        frame,
        0,
        frame.p_edge + frame.p_height + RAIL_GAP,
        frame.p_edge + frame.p_height + ROW_EDGE,
    )
}
