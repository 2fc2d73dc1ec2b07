// The shapes of gates and of bars.

ghost use Rattle.std.specs.Prelude.{◌≡◌, ◌≤◌, ◌<◌, ◌+◌, pos, IfSome};
ghost use Rattle.box_geom.specs.declared.layer.Layer.TheVariants.{Poly, Metal1};
ghost use Rattle.cell_draw.specs.Laid.{IsWidth};
ghost use Rattle.cell_draw.specs.Shapes.{upright, gate_low, gate_high, gate_strip, bar_metal};
ghost use Rattle.cell_draw.specs.Small.{IsSmallFrame, IsSmallGate, IsSmallBar, IsReach};

use crate::shape::upright;
use crate::{Bar, END_CAP, Frame, Gate, HALF_GATE, HALF_METAL, MOST_Y};
use box_geom::{Layer, Rect, Shape};

// The lower end of a gate, by the finger of the N row.
fn gate_low(frame: &Frame, n: Option<u32>, track: Option<u32>) -> u32
    requires frame { IsSmallFrame frame.now }
    requires n { IsWidth frame.now.n_height n }
    requires track { IsReach frame.now track }
    ensures value { pos result ≡ gate_low frame.now n track }
    ensures most { result + END_CAP ≤ frame.now.p_edge }
    ensures over { IfSome n (λ w. result ≤ frame.now.n_edge) }
{
    match (n, track) {
        (Some(width), _) => frame.n_edge - (width + END_CAP),
        (None, Some(track)) => track,
        (None, None) => frame.p_edge - END_CAP,
    }
}

// The upper end of a gate, by the finger of the P row.
fn gate_high(frame: &Frame, p: Option<u32>, track: Option<u32>) -> u32
    requires frame { IsSmallFrame frame.now }
    requires p { IsWidth frame.now.p_height p }
    requires track { IsReach frame.now track }
    ensures value { pos result ≡ gate_high frame.now p track }
    ensures least { frame.now.n_edge + END_CAP ≤ result }
    ensures over { IfSome p (λ w. frame.now.p_edge ≤ result) }
    ensures most { result ≤ MOST_Y }
{
    match (p, track) {
        (Some(width), _) => frame.p_edge + width + END_CAP,
        (None, Some(track)) => track,
        (None, None) => frame.n_edge + END_CAP,
    }
}

/// The poly of a gate: past its fingers, or from its one finger to its track.
#[tactic(auto, using(crate::proofs::Sizes::low_high))]
pub fn gate_strip(frame: &Frame, gate: &Gate) -> Shape
    requires frame { IsSmallFrame frame.now }
    requires gate { IsSmallGate frame.now gate.now }
    ensures { result ≡ gate_strip frame.now gate.now }
{
    let low = gate_low(frame, gate.n, gate.track);
    let high = gate_high(frame, gate.p, gate.track);
    upright(Layer::Poly, gate.x, HALF_GATE, low, high)
}

/// The metal1 of a bar along its track.
pub fn bar_metal(frame: &Frame, bar: &Bar) -> Shape
    requires frame { IsSmallFrame frame.now }
    requires bar { IsSmallBar frame.now bar.now }
    ensures { result ≡ bar_metal bar.now }
{
    let past = HALF_METAL as i32;
    Shape {
        layer: Layer::Metal1,
        rect: Rect {
            x1: bar.left as i32 - past,
            y1: bar.y as i32 - past,
            x2: bar.right as i32 + past,
            y2: bar.y as i32 + past,
        },
    }
}
