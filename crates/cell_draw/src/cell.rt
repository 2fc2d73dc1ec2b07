// Drawing a routed row.

ghost use Rattle.std.specs.Prelude.{◌≡◌, ◌≤◌, ◌<◌, ◌+◌, ◌*◌, All, Contains, IfOk, IfErr, length};
ghost use Rattle.row_place.specs.Places.{IsPlacement};
ghost use Rattle.channel_route.specs.Routing.{IsLegal};
ghost use Rattle.row_compact.specs.Allowed.{AreAllowed, stretches_of};
ghost use Rattle.row_compact.specs.Solution.{x_of as x_at};
ghost use Rattle.scmos_rules.specs.Rules.{Obeys};
ghost use Rattle.scmos_rules.specs.declared.rules.Deck.TheVariants.{Plain};
ghost use Rattle.box_geom.specs.declared.shape.Label.{Label as SomeLabel};
ghost use Rattle.cell_draw.specs.Bounds.{AreWithin};
ghost use Rattle.cell_draw.specs.Drawings.{drawing_of, drawn_of, base_drawn_of, height_given};
ghost use Rattle.cell_draw.specs.Extracted.{ExtractsToRow};
ghost use Rattle.cell_draw.specs.Faults.{IsCause, SaysTooTall};
ghost use Rattle.cell_draw.specs.Frame.{IsTooTall, frame_of};
ghost use Rattle.cell_draw.specs.Framed.{BeginsWith, IsFramed};
ghost use Rattle.cell_draw.specs.Layouts.{width_of};
ghost use Rattle.cell_draw.specs.Shown.{ShowsColumns, ShowsRouting};
ghost use Rattle.cell_draw.specs.Small.{IsSmall, IsSmallFrame, HasWidths};
ghost use Rattle.cell_draw.specs.Sound.{IsSoundRow, AreLines};

use crate::frame::{frame, needed};
use crate::groups::shapes;
use crate::labels::labels;
use crate::plan::base;
use crate::wiring::draw_wiring;
use crate::{
    DrawFault, Drawing, Frame, Layout, MOST_HEIGHT, MOST_TRACKS, MOST_X, MOST_Y, ROW_EDGE,
};
use box_geom::Shapes;
use cell_num::{Name, Names, NoMemory, Pins};
use channel_route::Routing;
use row_compact::{LineXs, SIDE_SPACE, lines_of, x_of};
use row_place::Placement;
use std::alloc::Global;

/// A drawing has fewer rectangles than this.
pub const MOST_SHAPES: usize = 2_000;

/// The shapes and the labels of a layout.
pub fn drawing(alloc: Global, names: &[Name], layout: &Layout) -> Result<Drawing, NoMemory>
    requires { IsSmall layout.now }
    ensures exact { IfOk result (λ d. d ≡ drawing_of names.now layout.now) }
    ensures within { IfOk result (λ d. AreWithin d.shapes) }
    ensures low { IfOk result (λ d. d.height ≤ MOST_Y) }
{
    let rects = shapes(alloc, layout)?;
    let labels = labels(alloc, names, layout.tags.as_slice())?;
    Ok(Drawing {
        shapes: Shapes { rects, labels },
        width: layout.frame.width,
        height: layout.frame.p_edge + layout.frame.p_height + ROW_EDGE,
    })
}

/// The frame of a cell, unless it is too tall.
#[tactic(auto, using(crate::proofs::BridgeLines::wide_enough))]
pub fn fitting_frame(
    placement: &Placement,
    tracks: u32,
    xs: &[u32],
    height: u32,
) -> Result<Frame, DrawFault>
    requires placement { IsPlacement placement.now }
    requires widths { All HasWidths placement.now.row }
    requires lines { AreLines placement.now xs.now }
    requires last { x_at xs.now (2 * length placement.now.units) ≤ MOST_X }
    requires tracks { tracks ≤ MOST_TRACKS }
    requires height { height ≤ MOST_HEIGHT }
    ensures exact { IfOk result (λ f. f ≡ frame_of placement.now.row tracks height (width_of placement.now xs.now)) }
    ensures small { IfOk result IsSmallFrame }
    ensures fits { IfOk result (λ f. IsTooTall placement.now.row tracks height → ⊥) }
    ensures tall { SaysTooTall placement.now.row tracks height result }
    ensures cause { IfErr result (IsCause placement.now.row tracks height) }
{
    let columns = placement.row.as_slice();
    let needed = needed(columns, tracks);
    if height != 0 && height < needed {
        return Err(DrawFault::TooTall {
            needed,
            given: height,
        });
    }
    let last = lines_of(placement) - 1;
    Ok(frame(columns, tracks, height, x_of(xs, last) + SIDE_SPACE))
}

/// Draws a row of sound fingers on lines that its distances allow, in a cell of the given height, or of
/// the least where that is 0. The shapes obey every rule, extract to the fingers of the row, net by net,
/// and show the row and the routing. Positions and heights are in grid units.
///
/// Errors: `TooTall`, before anything is drawn, where the given height is below the needed one;
/// `NoMemory`.
pub fn draw(
    alloc: Global,
    names: &Names,
    pins: &Pins,
    placement: &Placement,
    routing: &Routing,
    xs: &LineXs,
    height: u32,
) -> Result<Drawing, DrawFault>
    requires placement { IsPlacement placement.now }
    requires row { IsSoundRow names.now pins.now placement.now.row }
    requires routing { IsLegal placement.now pins.now routing.now }
    requires lines { AreAllowed placement.now pins.now (stretches_of routing.now.trunks) xs.now }
    requires last { x_at xs.now (2 * length placement.now.units) ≤ MOST_X }
    requires height { height ≤ MOST_HEIGHT }
    ensures exact { IfOk result (λ d. d ≡ drawn_of names.now pins.now placement.now routing.now xs.now height) }
    ensures obeys { IfOk result (λ d. Obeys Plain d.shapes.rects) }
    ensures width { IfOk result (λ d. d.width ≡ x_at xs.now (2 * length placement.now.units) + 8) }
    ensures height { IfOk result (λ d. d.height ≡ height_given placement.now.row routing.now.tracks height) }
    ensures few { IfOk result (λ d. length d.shapes.rects < MOST_SHAPES) }
    ensures within { IfOk result (λ d. AreWithin d.shapes) }
    ensures low { IfOk result (λ d. d.height ≤ MOST_Y) }
    ensures framed { IfOk result (IsFramed (frame_of placement.now.row routing.now.tracks height
        (width_of placement.now xs.now)) xs.now) }
    // it begins with the drawing of the rows alone
    ensures begins { IfOk result (λ d. BeginsWith
        (base_drawn_of pins.now placement.now routing.now.tracks xs.now height).shapes.rects d.shapes.rects) }
    ensures named { IfOk result (λ d. All (λ (l : SomeLabel). Contains names.now l.name) d.shapes.labels) }
    ensures extracts { IfOk result (λ d. ExtractsToRow Plain names.now pins.now placement.now.row d.shapes) }
    ensures shows { IfOk result (λ d. ShowsColumns Plain names.now pins.now placement.now.row d.shapes) }
    ensures routed { IfOk result (λ d. ShowsRouting names.now pins.now placement.now d.shapes routing.now) }
    ensures fits { IfOk result (λ d. IsTooTall placement.now.row routing.now.tracks height → ⊥) }
    ensures tall { SaysTooTall placement.now.row routing.now.tracks height result }
    ensures cause { IfErr result (IsCause placement.now.row routing.now.tracks height) }
{
    draw_wiring(
        alloc,
        names,
        pins,
        placement,
        routing.tracks,
        &routing.trunks,
        xs,
        height,
    )
}

// The drawing of the rows alone, exactly.
fn base_drawn(
    alloc: Global,
    pins: &Pins,
    placement: &Placement,
    tracks: u32,
    xs: &LineXs,
    height: u32,
) -> Result<Drawing, DrawFault>
    requires placement { IsPlacement placement.now }
    requires widths { All HasWidths placement.now.row }
    requires lines { AreLines placement.now xs.now }
    requires last { x_at xs.now (2 * length placement.now.units) ≤ MOST_X }
    requires tracks { tracks ≤ MOST_TRACKS }
    requires height { height ≤ MOST_HEIGHT }
    ensures exact { IfOk result (λ d. d ≡ base_drawn_of pins.now placement.now tracks xs.now height) }
    ensures within { IfOk result (λ d. AreWithin d.shapes) }
    ensures low { IfOk result (λ d. d.height ≤ MOST_Y) }
    ensures fits { IfOk result (λ d. IsTooTall placement.now.row tracks height → ⊥) }
    ensures tall { SaysTooTall placement.now.row tracks height result }
    ensures cause { IfErr result (IsCause placement.now.row tracks height) }
{
    let xs = xs.as_slice();
    let frame = fitting_frame(placement, tracks, xs, height)?;
    let layout = base(alloc, &frame, pins, placement, xs)?;
    Ok(drawing(alloc, &[], &layout)?)
}

/// Draws well, selects, rails and fingers alone, with room for `tracks` tracks. They obey every rule.
/// Errors are those of `draw`.
pub fn draw_base(
    alloc: Global,
    pins: &Pins,
    placement: &Placement,
    tracks: u32,
    xs: &LineXs,
    height: u32,
) -> Result<Drawing, DrawFault>
    requires placement { IsPlacement placement.now }
    requires widths { All HasWidths placement.now.row }
    requires lines { AreLines placement.now xs.now }
    requires last { x_at xs.now (2 * length placement.now.units) ≤ MOST_X }
    requires tracks { tracks ≤ MOST_TRACKS }
    requires height { height ≤ MOST_HEIGHT }
    ensures exact { IfOk result (λ d. d ≡ base_drawn_of pins.now placement.now tracks xs.now height) }
    ensures obeys { IfOk result (λ d. Obeys Plain d.shapes.rects) }
    ensures width { IfOk result (λ d. d.width ≡ x_at xs.now (2 * length placement.now.units) + 8) }
    ensures height { IfOk result (λ d. d.height ≡ height_given placement.now.row tracks height) }
    ensures within { IfOk result (λ d. AreWithin d.shapes) }
    ensures low { IfOk result (λ d. d.height ≤ MOST_Y) }
    ensures framed { IfOk result (IsFramed (frame_of placement.now.row tracks height
        (width_of placement.now xs.now)) xs.now) }
    ensures fits { IfOk result (λ d. IsTooTall placement.now.row tracks height → ⊥) }
    ensures tall { SaysTooTall placement.now.row tracks height result }
    ensures cause { IfErr result (IsCause placement.now.row tracks height) }
{
    base_drawn(alloc, pins, placement, tracks, xs, height)
}
