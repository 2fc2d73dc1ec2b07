// Drawing a wired row.

ghost use Rattle.std.specs.Prelude.{◌≡◌, ◌≤◌, ◌<◌, ◌+◌, ◌*◌, All, Contains, IfOk, IfErr, length};
ghost use Rattle.row_place.specs.Places.{IsPlacement};
ghost use Rattle.channel_route.specs.Wiring.{IsWiring, wiring_of};
ghost use Rattle.row_compact.specs.Allowed.{AreAllowed, stretches_of};
ghost use Rattle.row_compact.specs.Solution.{x_of as x_at};
ghost use Rattle.scmos_rules.specs.Rules.{Obeys};
ghost use Rattle.scmos_rules.specs.declared.rules.Deck.TheVariants.{Plain};
ghost use Rattle.box_geom.specs.declared.shape.Label.{Label as SomeLabel};
ghost use Rattle.cell_draw.specs.Bounds.{AreWithin};
ghost use Rattle.cell_draw.specs.Drawings.{drawn_of, base_drawn_of, height_given};
ghost use Rattle.cell_draw.specs.Extracted.{ExtractsToRow};
ghost use Rattle.cell_draw.specs.Faults.{IsCause, SaysTooTall};
ghost use Rattle.cell_draw.specs.Frame.{IsTooTall, frame_of};
ghost use Rattle.cell_draw.specs.Framed.{BeginsWith, IsFramed};
ghost use Rattle.cell_draw.specs.Layouts.{width_of};
ghost use Rattle.cell_draw.specs.Shown.{ShowsColumns};
ghost use Rattle.cell_draw.specs.Sound.{IsSoundRow};

use crate::cell::{drawing, fitting_frame};
use crate::plan::layout;
use crate::{DrawFault, Drawing, MOST_HEIGHT, MOST_SHAPES, MOST_X, MOST_Y};
use cell_num::{Names, Pins};
use channel_route::TrunkList;
use row_compact::LineXs;
use row_place::Placement;
use std::alloc::Global;

// The drawing of a wired row, exactly.
fn drawn(
    alloc: Global,
    names: &Names,
    pins: &Pins,
    placement: &Placement,
    tracks: u32,
    trunks: &TrunkList,
    xs: &LineXs,
    height: u32,
) -> Result<Drawing, DrawFault>
    requires placement { IsPlacement placement.now }
    requires row { IsSoundRow names.now pins.now placement.now.row }
    requires wiring { IsWiring placement.now pins.now (wiring_of tracks trunks.now) }
    requires lines { AreAllowed placement.now pins.now (stretches_of trunks.now) xs.now }
    requires last { x_at xs.now (2 * length placement.now.units) ≤ MOST_X }
    requires height { height ≤ MOST_HEIGHT }
    ensures exact { IfOk result (λ d. d ≡ drawn_of names.now pins.now placement.now
        (wiring_of tracks trunks.now) xs.now height) }
    ensures within { IfOk result (λ d. AreWithin d.shapes) }
    ensures low { IfOk result (λ d. d.height ≤ MOST_Y) }
    ensures fits { IfOk result (λ d. IsTooTall placement.now.row tracks height → ⊥) }
    ensures tall { SaysTooTall placement.now.row tracks height result }
    ensures cause { IfErr result (IsCause placement.now.row tracks height) }
{
    let xs = xs.as_slice();
    let frame = fitting_frame(placement, tracks, xs, height)?;
    let nets = names.len() as u32;
    let layout = layout(alloc, &frame, nets, pins, placement, trunks.as_slice(), xs)?;
    Ok(drawing(alloc, names.as_slice(), &layout)?)
}

/// Draws a wired row of sound fingers, with trunks on `tracks` tracks, on lines that the distances of the
/// row and of the trunks allow, in a cell of the given height, or of the least where that is 0. The shapes
/// obey every rule, extract to the fingers of the row, net by net, and show the row. Errors are those of
/// `draw`.
pub fn draw_wiring(
    alloc: Global,
    names: &Names,
    pins: &Pins,
    placement: &Placement,
    tracks: u32,
    trunks: &TrunkList,
    xs: &LineXs,
    height: u32,
) -> Result<Drawing, DrawFault>
    requires placement { IsPlacement placement.now }
    requires row { IsSoundRow names.now pins.now placement.now.row }
    requires wiring { IsWiring placement.now pins.now (wiring_of tracks trunks.now) }
    requires lines { AreAllowed placement.now pins.now (stretches_of trunks.now) xs.now }
    requires last { x_at xs.now (2 * length placement.now.units) ≤ MOST_X }
    requires height { height ≤ MOST_HEIGHT }
    ensures exact { IfOk result (λ d. d ≡ drawn_of names.now pins.now placement.now
        (wiring_of tracks trunks.now) xs.now height) }
    ensures obeys { IfOk result (λ d. Obeys Plain d.shapes.rects) }
    ensures width { IfOk result (λ d. d.width ≡ x_at xs.now (2 * length placement.now.units) + 8) }
    ensures height { IfOk result (λ d. d.height ≡ height_given placement.now.row tracks height) }
    ensures few { IfOk result (λ d. length d.shapes.rects < MOST_SHAPES) }
    ensures within { IfOk result (λ d. AreWithin d.shapes) }
    ensures low { IfOk result (λ d. d.height ≤ MOST_Y) }
    ensures named { IfOk result (λ d. All (λ (l : SomeLabel). Contains names.now l.name) d.shapes.labels) }
    ensures extracts { IfOk result (λ d. ExtractsToRow Plain names.now pins.now placement.now.row d.shapes) }
    ensures shows { IfOk result (λ d. ShowsColumns Plain names.now pins.now placement.now.row d.shapes) }
    ensures framed { IfOk result (IsFramed (frame_of placement.now.row tracks height
        (width_of placement.now xs.now)) xs.now) }
    // it begins with the drawing of the rows alone
    ensures begins { IfOk result (λ d. BeginsWith
        (base_drawn_of pins.now placement.now tracks xs.now height).shapes.rects d.shapes.rects) }
    ensures fits { IfOk result (λ d. IsTooTall placement.now.row tracks height → ⊥) }
    ensures tall { SaysTooTall placement.now.row tracks height result }
    ensures cause { IfErr result (IsCause placement.now.row tracks height) }
{
    drawn(alloc, names, pins, placement, tracks, trunks, xs, height)
}
