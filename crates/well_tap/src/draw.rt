// Adding taps to a drawing.

ghost use Rattle.std.specs.Prelude.{◌≡◌, ◌≤◌, ◌<◌, ◌+◌, ◌++◌, ℕ, List, map, length, All, IfOk, OnOk};
ghost use Rattle.box_geom.specs.declared.layer.Layer.TheVariants.{PSelect, NSelect};
ghost use Rattle.cell_num.specs.declared.net.Pins.{Pins};
ghost use Rattle.scmos_rules.specs.Rules.{Obeys};
ghost use Rattle.scmos_rules.specs.declared.rules.Deck.TheVariants.{Plain, Taps};
ghost use Rattle.cell_draw.specs.Bounds.{AreWithin};
ghost use Rattle.well_tap.specs.Base.{IsBase, last_line};
ghost use Rattle.well_tap.specs.Bodied.{AreBodied, AreRails};
ghost use Rattle.well_tap.specs.Kept.{KeepsMetal, IsSameCircuit, ShowsTheSame};
ghost use Rattle.well_tap.specs.Measures.{MOST_TAPPED_HEIGHT, TAP_SHAPES};
ghost use Rattle.well_tap.specs.Tapped.{CanRise, raised, tap_at, taps_at, tapped};

use crate::{HALF_SELECT, TAP_RISE, WELL_PAST_END};
use box_geom::{Layer, Rect, Shape, ShapeList, Shapes};
use cell_draw::{Drawing, HALF_CUT, HALF_PAD, square};
use cell_num::NoMemory;
use row_compact::{LineXs, x_of};
use std::alloc::Global;

// No line of a drawing is further to the right: the well ends 18 past the last one, and no rectangle goes past
// 1,000,000,000.
const MOST_LINE: u32 = 999_999_982;

// The height at which the well ends.
fn raised(shape: &Shape, top: u32) -> Shape
    requires below { CanRise top shape.now }
    requires top { top ≤ MOST_TAPPED_HEIGHT + WELL_PAST_END }
    ensures { result ≡ raised top shape.now }
{
    if shape.layer != Layer::Well {
        return *shape;
    }
    Shape {
        layer: shape.layer,
        rect: Rect {
            y2: top as i32,
            ..shape.rect
        },
    }
}

fn add_raised(shapes: &[Shape], top: u32, out: &mut ShapeList) -> Result<(), NoMemory>
    requires below { All (CanRise top) shapes.now }
    requires top { top ≤ MOST_TAPPED_HEIGHT + WELL_PAST_END }
    ensures { OnOk result (out.new ≡ out.old ++ map (raised top) shapes.now) }
{
    for shape in shapes {
        out.push(raised(shape, top))?;
    }
    Ok(())
}

fn add_tap(out: &mut ShapeList, select: Layer, x: u32, y: u32) -> Result<(), NoMemory>
    requires x { x ≤ MOST_LINE }
    requires y { y ≤ MOST_TAPPED_HEIGHT }
    ensures { OnOk result (out.new ≡ out.old ++ tap_at select x y) }
{
    out.push(square(Layer::Active, x, y, HALF_PAD))?;
    out.push(square(select, x, y, HALF_SELECT))?;
    out.push(square(Layer::Contact, x, y, HALF_CUT))
}

// The taps of a line: of the substrate over the lower rail, of the well over the upper one.
fn add_taps(out: &mut ShapeList, height: u32, x: u32) -> Result<(), NoMemory>
    requires x { x ≤ MOST_LINE }
    requires least { TAP_RISE ≤ height }
    requires height { height ≤ MOST_TAPPED_HEIGHT }
    ensures { OnOk result (out.new ≡ out.old ++ taps_at height x) }
{
    add_tap(out, Layer::PSelect, x, TAP_RISE)?;
    add_tap(out, Layer::NSelect, x, height - TAP_RISE)
}

// The position of the last line.
fn last_x(xs: &[u32]) -> u32
    ensures { result ≡ last_line xs.now }
{
    match xs.last() {
        Some(x) => *x,
        None => 0,
    }
}

// The drawing with taps, exactly.
fn tapped(alloc: Global, base: &Drawing, xs: &LineXs) -> Result<Drawing, NoMemory>
    requires base { IsBase xs.now base.now }
    requires height { base.now.height ≤ MOST_TAPPED_HEIGHT }
    ensures { IfOk result (λ d. d ≡ tapped xs.now base.now) }
{
    base.shapes.show_limits();
    let xs = xs.as_slice();
    let mut rects = ShapeList::new(alloc);
    add_raised(
        base.shapes.rects.as_slice(),
        base.height + WELL_PAST_END,
        &mut rects,
    )?;
    add_taps(&mut rects, base.height, x_of(xs, 0))?;
    add_taps(&mut rects, base.height, last_x(xs))?;
    Ok(Drawing {
        shapes: Shapes {
            rects,
            labels: base.shapes.labels.clone()?,
        },
        width: base.width,
        height: base.height,
    })
}

/// Adds taps to a drawing that obeys the rules: at its first and at its last line one of the substrate over the lower
/// rail, and one of the well over the upper rail. What comes out obeys the rules for cells with taps and is the same
/// circuit, and the body of each device is its row's rail. Lines are in grid units.
pub fn draw_taps(alloc: Global, base: &Drawing, xs: &LineXs) -> Result<Drawing, NoMemory>
    requires base { IsBase xs.now base.now }
    requires height { base.now.height ≤ MOST_TAPPED_HEIGHT }
    requires obeys { Obeys Plain base.now.shapes.rects }
    ensures exact { IfOk result (λ d. d ≡ tapped xs.now base.now) }
    ensures obeys { IfOk result (λ d. Obeys Taps d.shapes.rects) }
    ensures same { IfOk result (KeepsMetal base.now) }
    ensures count { IfOk result (λ d. length d.shapes.rects ≡ length base.now.shapes.rects + TAP_SHAPES) }
    ensures within { AreWithin base.now.shapes → IfOk result (λ d. AreWithin d.shapes) }
    ensures circuit { IfOk result (IsSameCircuit base.now) }
    ensures shows { IfOk result (ShowsTheSame base.now) }
    ensures bodies { (names : List (List ℕ)) (pins : Pins) → AreRails names pins base.now
        → IfOk result (λ d. AreBodied names pins d.shapes) }
{
    tapped(alloc, base, xs)
}
