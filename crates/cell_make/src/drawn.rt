ghost use Rattle.std.specs.Prelude.{◌≡◌, ◌≤◌, ◌<◌, ◌*◌, All, Contains, IfOk, IfErr, length};
ghost use Rattle.box_geom.specs.declared.shape.Label.{Label as SomeLabel};
ghost use Rattle.box_geom.specs.Layers.{AreWithinLimits};
ghost use Rattle.cell_num.specs.Pins.{ArePins};
ghost use Rattle.row_place.specs.Places.{IsPlacement};
ghost use Rattle.channel_route.specs.Wiring.{IsWiring};
ghost use Rattle.row_compact.specs.Allowed.{AreAllowed, stretches_of};
ghost use Rattle.row_compact.specs.Solution.{x_of};
ghost use Rattle.scmos_rules.specs.Rules.{Obeys};
ghost use Rattle.scmos_rules.specs.declared.rules.Deck.TheVariants.{Plain};
ghost use Rattle.cell_draw.specs.Bounds.{AreWithin};
ghost use Rattle.cell_draw.specs.Drawings.{drawn_of};
ghost use Rattle.cell_draw.specs.Extracted.{ExtractsToRow};
ghost use Rattle.cell_draw.specs.Faults.{IsCause};
ghost use Rattle.cell_draw.specs.Frame.{IsTooTall, frame_of};
ghost use Rattle.cell_draw.specs.Framed.{IsFramed};
ghost use Rattle.cell_draw.specs.Layouts.{width_of};
ghost use Rattle.cell_draw.specs.Shown.{ShowsColumns};
ghost use Rattle.cell_draw.specs.Sound.{IsSoundRow};
ghost use Rattle.well_tap.specs.Base.{IsBase};
ghost use Rattle.cell_make.specs.Making.{AreLeastLines, final_of};
ghost use Rattle.cell_make.specs.Style.{AreBodiedBy, AreLegal, ShowsWiring, deck_of, final, tapped_by};
ghost use Rattle.cell_make.specs.Writable.{AreWritable};

use cell_draw::{DrawFault, Drawing, MOST_HEIGHT, MOST_SHAPES, MOST_X, MOST_Y, draw, draw_wiring};
use cell_inputs::{Style, Taps, Wiring};
use cell_num::{NoMemory, Pins};
use channel_route::Routing;
use row_compact::{LineXs, least_lines, wiring_distances};
use row_place::Placement;
use spice_net::Subckt;
use std::alloc::Global;
use well_tap::draw_taps;

/// A cell with a column is at least that many grid units wide: it has three lines, with 8 before, between and after
/// them.
pub const LEAST_WIDTH: u32 = 32;

/// A drawn cell is at most that many grid units wide. The last line is at 127,008 or less, the side 8 after it.
pub const MOST_WIDTH: u32 = 127_016;

/// A drawn row, and the positions of its lines in grid units.
#[derive(Drop)]
pub struct Drawn {
    pub lines: LineXs,
    /// Without taps.
    pub drawing: Drawing,
    /// The same with taps, where the style asks for them.
    pub tapped: Option<Drawing>,
}

impl Drawn {
    /// The drawing as it is written: with taps where there are taps.
    pub fn final_drawing(&self) -> &Drawing
        ensures { result.now ≡ final_of self.now }
    {
        match &self.tapped {
            Some(tapped) => tapped,
            None => &self.drawing,
        }
    }
}

// The least positions of the lines of a wired row.
fn lines_of(
    alloc: Global,
    placement: &Placement,
    routing: &Routing,
    pins: &Pins,
) -> Result<LineXs, NoMemory>
    requires placement { IsPlacement placement.now }
    requires wiring { IsWiring placement.now pins.now routing.now }
    ensures least { IfOk result (AreLeastLines placement.now pins.now routing.now) }
    ensures low { IfOk result (λ xs. x_of xs (2 * length placement.now.units) ≤ 127008) }
{
    let distances = wiring_distances(alloc, placement, routing.trunks.as_slice(), pins)?;
    least_lines(alloc, &distances)
}

// The drawing of a routed row on these lines, without taps.
#[tactic(auto, using(crate::proofs::Rules::drawing_by_rules))]
fn drawing_by(
    alloc: Global,
    wiring: Wiring,
    cell: &Subckt,
    placement: &Placement,
    routing: &Routing,
    lines: &LineXs,
    height: u32,
) -> Result<Drawing, DrawFault>
    requires placement { IsPlacement placement.now }
    requires some { 0 < length placement.now.row }
    requires row { IsSoundRow cell.now.nets cell.now.pins placement.now.row }
    requires routing { AreLegal wiring placement.now cell.now.pins routing.now }
    requires lines { AreAllowed placement.now cell.now.pins (stretches_of routing.now.trunks) lines.now }
    requires last { x_of lines.now (2 * length placement.now.units) ≤ MOST_X }
    requires height { height ≤ MOST_HEIGHT }
    ensures exact { IfOk result (λ d. d ≡ drawn_of cell.now.nets cell.now.pins placement.now routing.now
        lines.now height) }
    ensures obeys { IfOk result (λ d. Obeys Plain d.shapes.rects) }
    ensures extracts { IfOk result (λ d. ExtractsToRow Plain cell.now.nets cell.now.pins
        placement.now.row d.shapes) }
    ensures shows { IfOk result (λ d. ShowsColumns Plain cell.now.nets cell.now.pins
        placement.now.row d.shapes) }
    ensures routed { IfOk result (λ d. ShowsWiring wiring cell.now.nets cell.now.pins placement.now
        lines.now d.shapes routing.now) }
    ensures framed { IfOk result (IsFramed (frame_of placement.now.row routing.now.tracks height
        (width_of placement.now lines.now)) lines.now) }
    ensures base { IfOk result (IsBase lines.now) }
    ensures width { IfOk result (λ d. d.width ≡ width_of placement.now lines.now) }
    ensures few { IfOk result (λ d. length d.shapes.rects < MOST_SHAPES) }
    ensures within { IfOk result (λ d. AreWithin d.shapes) }
    ensures low { IfOk result (λ d. d.height ≤ MOST_Y) }
    ensures named { IfOk result (λ d. All (λ (l : SomeLabel). Contains cell.now.nets l.name) d.shapes.labels) }
    ensures fits { IfOk result (λ d. IsTooTall placement.now.row routing.now.tracks height → ⊥) }
    ensures cause { IfErr result (IsCause placement.now.row routing.now.tracks height) }
{
    match wiring {
        Wiring::Straight => {
            let drawing = draw(
                alloc, &cell.nets, &cell.pins, placement, routing, lines, height,
            )?;
            Ok(drawing)
        }
        Wiring::Doglegs => {
            let drawing = draw_wiring(
                alloc,
                &cell.nets,
                &cell.pins,
                placement,
                routing.tracks,
                &routing.trunks,
                lines,
                height,
            )?;
            Ok(drawing)
        }
    }
}

// The drawing with taps, where there are taps.
fn tapped_by(
    alloc: Global,
    taps: Taps,
    drawing: &Drawing,
    lines: &LineXs,
) -> Result<Option<Drawing>, NoMemory>
    requires base { IsBase lines.now drawing.now }
    requires height { drawing.now.height ≤ MOST_Y }
    requires obeys { Obeys Plain drawing.now.shapes.rects }
    ensures exact { IfOk result (λ tapped. tapped ≡ tapped_by taps drawing.now lines.now) }
    ensures limits { IfOk result (λ tapped. AreWithinLimits (final taps drawing.now lines.now).shapes.rects) }
{
    drawing.shapes.show_limits();
    match taps {
        Taps::Without => Ok(None),
        Taps::With => {
            let tapped = draw_taps(alloc, drawing, lines)?;
            tapped.shapes.show_limits();
            Ok(Some(tapped))
        }
    }
}

/// Draws a routed row in this style on its least lines, in a cell of the given height, or of the least where that is 0.
#[tactic(auto, using(crate::proofs::Wirings::wired_by))]
pub(crate) fn draw_routed(
    alloc: Global,
    style: Style,
    cell: &Subckt,
    placement: &Placement,
    routing: &Routing,
    height: u32,
) -> Result<Drawn, DrawFault>
    requires placement { IsPlacement placement.now }
    requires some { 0 < length placement.now.row }
    requires row { IsSoundRow cell.now.nets cell.now.pins placement.now.row }
    requires routing { AreLegal style.wiring placement.now cell.now.pins routing.now }
    requires height { height ≤ MOST_HEIGHT }
    ensures lines { IfOk result (λ d. AreLeastLines placement.now cell.now.pins routing.now d.lines) }
    ensures exact { IfOk result (λ d. d.drawing
        ≡ drawn_of cell.now.nets cell.now.pins placement.now routing.now d.lines height) }
    ensures tapped { IfOk result (λ d. d.tapped ≡ tapped_by style.taps d.drawing d.lines) }
    ensures obeys { IfOk result (λ d. Obeys (deck_of style.taps)
        (final style.taps d.drawing d.lines).shapes.rects) }
    ensures extracts { IfOk result (λ d. ExtractsToRow (deck_of style.taps) cell.now.nets cell.now.pins
        placement.now.row (final style.taps d.drawing d.lines).shapes) }
    ensures bodied { ArePins (length cell.now.nets) cell.now.pins → IfOk result (λ d.
        AreBodiedBy style.taps cell.now.nets cell.now.pins (final style.taps d.drawing d.lines).shapes) }
    ensures shows { IfOk result (λ d. ShowsColumns (deck_of style.taps) cell.now.nets cell.now.pins
        placement.now.row (final style.taps d.drawing d.lines).shapes) }
    ensures routed { IfOk result (λ d.
        ShowsWiring style.wiring cell.now.nets cell.now.pins placement.now d.lines
        (final style.taps d.drawing d.lines).shapes routing.now) }
    ensures framed { IfOk result (λ d. IsFramed (frame_of placement.now.row routing.now.tracks height
        (width_of placement.now d.lines)) d.lines d.drawing) }
    ensures width { IfOk result (λ d. d.drawing.width ≡ width_of placement.now d.lines) }
    ensures narrow { IfOk result (λ d. d.drawing.width ≤ MOST_WIDTH) }
    ensures few { IfOk result (λ d. length d.drawing.shapes.rects < MOST_SHAPES) }
    ensures within { IfOk result (λ d. AreWithin d.drawing.shapes) }
    ensures limits { IfOk result (λ d. AreWithinLimits d.drawing.shapes.rects) }
    ensures low { IfOk result (λ d. d.drawing.height ≤ MOST_Y) }
    ensures bare { IfOk result (λ d. ExtractsToRow Plain cell.now.nets cell.now.pins placement.now.row
        d.drawing.shapes) }
    ensures written { IfOk result (λ d. AreWritable cell.now.nets (final style.taps d.drawing d.lines).shapes) }
    ensures fits { IfOk result (λ d. IsTooTall placement.now.row routing.now.tracks height → ⊥) }
    ensures cause { IfErr result (IsCause placement.now.row routing.now.tracks height) }
{
    let lines = lines_of(alloc, placement, routing, &cell.pins)?;
    let drawing = drawing_by(
        alloc,
        style.wiring,
        cell,
        placement,
        routing,
        &lines,
        height,
    )?;
    drawing.shapes.show_limits();
    let tapped = tapped_by(alloc, style.taps, &drawing, &lines)?;
    Ok(Drawn {
        lines,
        drawing,
        tapped,
    })
}
