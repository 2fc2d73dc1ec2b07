// Laws on the drawings that taps are added to. The calls do nothing: their contracts are the laws.
ghost use Rattle.std.specs.Prelude.{◌≡◌, ◌+◌, ◌<◌, ◌≤◌, ℕ, List, length};
ghost use Rattle.std.specs.List.{AllZip};
ghost use Rattle.box_geom.specs.declared.shape.Shapes.{Shapes};
ghost use Rattle.cell_num.specs.declared.net.Pins.{Pins};
ghost use Rattle.cell_num.specs.Pins.{ArePins};
ghost use Rattle.row_place.specs.declared.placement.Placement.{Placement};
ghost use Rattle.row_place.specs.Places.{IsPlacement};
ghost use Rattle.channel_route.specs.declared.routing.Routing.{Routing};
ghost use Rattle.channel_route.specs.Wiring.{IsWiring};
ghost use Rattle.row_compact.specs.Allowed.{AreAllowed, stretches_of};
ghost use Rattle.scmos_rules.specs.declared.rules.Deck.TheVariants.{Taps};
ghost use Rattle.net_extract.specs.Bodies.{ExtractsBodies};
ghost use Rattle.net_extract.specs.declared.netlist.BodyNetlist.{BodyNetlist};
ghost use Rattle.cell_draw.specs.declared.drawing.Drawing.{Drawing};
ghost use Rattle.cell_draw.specs.declared.layout.Frame.{Frame};
ghost use Rattle.cell_draw.specs.Drawings.{drawn_of};
ghost use Rattle.cell_draw.specs.Framed.{IsFramed};
ghost use Rattle.cell_draw.specs.Named.{AreNamed};
ghost use Rattle.cell_draw.specs.Sound.{AreLines, IsSoundRow};
ghost use Rattle.well_tap.specs.Base.{first_line, last_line, IsBase};
ghost use Rattle.well_tap.specs.Bodied.{AreBodied, AreRails, IsOnRail};
ghost use Rattle.well_tap.specs.Measures as measures;

use crate::{
    HALF_SELECT, MOST_TAPPED_HEIGHT, TAP_CLEAR, TAP_RISE, TAP_SHAPES, TAP_SPACE, WELL_PAST_END,
};

/// Taps may be added to a drawing in its frame, where its lines leave room for two of them.
pub fn framed_bases()
    ensures { (f : Frame) (xs : List ℕ) (d : Drawing) → IsFramed f xs d
        → first_line xs + measures.TAP_SPACE ≤ last_line xs → IsBase xs d }
{}

/// The lines of a row with a column leave this room.
pub fn spread_lines()
    ensures rows { (p : Placement) (xs : List ℕ) → IsPlacement p → 0 < length p.row → AreLines p xs
        → first_line xs + measures.TAP_SPACE ≤ last_line xs }
    ensures wired { (p : Placement) (pins : Pins) (r : Routing) (xs : List ℕ) → IsPlacement p → 0 < length p.row
        → AreAllowed p pins (stretches_of r.trunks) xs → first_line xs + measures.TAP_SPACE ≤ last_line xs }
{}

/// Where the bodies of a drawing's devices are rails, its netlist says so by the names of its nets.
pub fn named_bodies()
    ensures { (names : List (List ℕ)) (pins : Pins) (shapes : Shapes) (b : BodyNetlist) → AreNamed Taps names shapes
        → AreBodied names pins shapes → ExtractsBodies shapes b
        → AllZip (IsOnRail names pins b.netlist.names) b.netlist.devices b.bodies }
{}

/// In the drawing of a wired row the metal of the rails is of the nets of the power pins.
pub fn drawn_rails()
    ensures { (names : List (List ℕ)) (pins : Pins) (p : Placement) (r : Routing) (xs : List ℕ) (height : ℕ)
        → IsPlacement p → IsSoundRow names pins p.row → IsWiring p pins r → AreAllowed p pins (stretches_of r.trunks) xs
        → ArePins (length names) pins → AreRails names pins (drawn_of names pins p r xs height) }
{}

/// What the measures of `src/measure.rt` are, as numbers: those of the definitions (`specs/Measures.antt`).
pub fn measure_numbers()
    ensures tap_rise { TAP_RISE ≡ 8 }
    ensures half_select { HALF_SELECT ≡ 9 }
    ensures well_past_end { WELL_PAST_END ≡ 4 }
    ensures tap_space { TAP_SPACE ≡ 16 }
    ensures tap_clear { TAP_CLEAR ≡ 20 }
    ensures tap_shapes { TAP_SHAPES ≡ 12 }
    ensures most_tapped_height { MOST_TAPPED_HEIGHT ≡ 1_000_000 }
{}
