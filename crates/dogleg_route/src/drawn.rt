// Lines and drawing of a row that is routed in pieces.

ghost use Rattle.std.specs.Prelude.{◌≡◌, ◌≤◌, ◌<◌, ◌+◌, ◌*◌, All, Contains, IfOk, IfErr, length};
ghost use Rattle.row_place.specs.Places.{IsPlacement};
ghost use Rattle.row_compact.specs.Allowed.{AreAllowed, AreDistances, stretches_of};
ghost use Rattle.row_compact.specs.Solution.{IsEntry, x_of as x_at};
ghost use Rattle.scmos_rules.specs.Rules.{Obeys};
ghost use Rattle.scmos_rules.specs.declared.rules.Deck.TheVariants.{Plain};
ghost use Rattle.box_geom.specs.declared.shape.Label.{Label as SomeLabel};
ghost use Rattle.cell_draw.specs.Bounds.{AreWithin};
ghost use Rattle.cell_draw.specs.Drawings.{drawn_of, base_drawn_of, height_given};
ghost use Rattle.cell_draw.specs.Extracted.{ExtractsToRow};
ghost use Rattle.cell_draw.specs.Faults.{IsCause, SaysTooTall};
ghost use Rattle.cell_draw.specs.Frame.{IsTooTall, frame_of};
ghost use Rattle.cell_draw.specs.Framed.{BeginsWith, IsFramed};
ghost use Rattle.cell_draw.specs.Layouts.{width_of};
ghost use Rattle.cell_draw.specs.Shown.{ShowsColumns};
ghost use Rattle.cell_draw.specs.Sound.{IsSoundRow};
ghost use Rattle.dogleg_route.specs.Firsts.{ShowsFirsts};
ghost use Rattle.dogleg_route.specs.Routings.{ArePiecesLegal, as_routing};

use crate::PieceRouting;
use cell_draw::{DrawFault, Drawing, MOST_HEIGHT, MOST_SHAPES, MOST_X, draw_wiring};
use cell_num::{Names, NoMemory, Pins};
use row_compact::{Distances, LineXs, MOST_LINES, wiring_distances};
use row_place::Placement;
use std::alloc::Global;

/// The distances that the lines of a placement keep under a legal routing of pieces. Their solutions are
/// exactly the positions that the row allows. Pieces that share an end line ask nothing of each other.
pub fn piece_distances(
    alloc: Global,
    placement: &Placement,
    routing: &PieceRouting,
    pins: &Pins,
) -> Result<Distances, NoMemory>
    requires placement { IsPlacement placement.now }
    requires routing { ArePiecesLegal placement.now pins.now routing.now }
    ensures solutions { IfOk result (AreDistances placement.now pins.now (stretches_of routing.now.pieces)) }
    ensures lines { IfOk result (λ d. d.lines ≡ 2 * length placement.now.units + 1) }
    ensures few { IfOk result (λ d. d.lines ≤ MOST_LINES) }
    ensures ascending { IfOk result (λ d. All (IsEntry d.lines) d.list) }
{
    wiring_distances(alloc, placement, routing.pieces.as_slice(), pins)
}

/// Draws a row of sound fingers that is routed in pieces, on lines that its distances allow, in a cell of the given
/// height, or of the least where that is 0. The shapes obey every rule, extract to the fingers of the row, net by
/// net, and show the row; the label of each net with pieces is on the first of them.
pub fn draw_pieces(
    alloc: Global,
    names: &Names,
    pins: &Pins,
    placement: &Placement,
    routing: &PieceRouting,
    xs: &LineXs,
    height: u32,
) -> Result<Drawing, DrawFault>
    requires placement { IsPlacement placement.now }
    requires row { IsSoundRow names.now pins.now placement.now.row }
    requires routing { ArePiecesLegal placement.now pins.now routing.now }
    requires lines { AreAllowed placement.now pins.now (stretches_of routing.now.pieces) xs.now }
    requires last { x_at xs.now (2 * length placement.now.units) ≤ MOST_X }
    requires height { height ≤ MOST_HEIGHT }
    ensures exact { IfOk result (λ d. d ≡ drawn_of names.now pins.now placement.now
        (as_routing routing.now) xs.now height) }
    ensures obeys { IfOk result (λ d. Obeys Plain d.shapes.rects) }
    ensures width { IfOk result (λ d. d.width ≡ x_at xs.now (2 * length placement.now.units) + 8) }
    ensures height { IfOk result (λ d. d.height ≡ height_given placement.now.row routing.now.tracks height) }
    ensures few { IfOk result (λ d. length d.shapes.rects < MOST_SHAPES) }
    ensures within { IfOk result (λ d. AreWithin d.shapes) }
    ensures named { IfOk result (λ d. All (λ (l : SomeLabel). Contains names.now l.name) d.shapes.labels) }
    ensures extracts { IfOk result (λ d. ExtractsToRow Plain names.now pins.now placement.now.row d.shapes) }
    ensures shows { IfOk result (λ d. ShowsColumns Plain names.now pins.now placement.now.row d.shapes) }
    ensures firsts { IfOk result (λ d. ShowsFirsts names.now placement.now xs.now d.shapes routing.now.pieces) }
    ensures framed { IfOk result (IsFramed (frame_of placement.now.row routing.now.tracks height
        (width_of placement.now xs.now)) xs.now) }
    // it begins with the drawing of the rows alone
    ensures begins { IfOk result (λ d. BeginsWith
        (base_drawn_of pins.now placement.now routing.now.tracks xs.now height).shapes.rects d.shapes.rects) }
    ensures fits { IfOk result (λ d. IsTooTall placement.now.row routing.now.tracks height → ⊥) }
    ensures tall { SaysTooTall placement.now.row routing.now.tracks height result }
    ensures cause { IfErr result (IsCause placement.now.row routing.now.tracks height) }
{
    draw_wiring(
        alloc,
        names,
        pins,
        placement,
        routing.tracks,
        &routing.pieces,
        xs,
        height,
    )
}
