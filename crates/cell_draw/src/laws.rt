// Laws on drawings. The calls do nothing: their contracts are the laws.
ghost use Rattle.std.specs.Prelude.{◌≡◌, ℕ, List};
ghost use Rattle.cell_num.specs.declared.finger.Fingers.{Fingers};
ghost use Rattle.box_geom.specs.declared.shape.Shapes.{Shapes};
ghost use Rattle.scmos_rules.specs.declared.rules.Deck.{Deck};
ghost use Rattle.net_extract.specs.declared.fault.ExtractFault.{ExtractFault};
ghost use Rattle.net_extract.specs.declared.fault.ExtractFault.TheVariants.{NoMemory};
ghost use Rattle.net_extract.specs.Extraction.{AreFew, ExtractRefused};
ghost use Rattle.cell_draw.specs.Extracted.{ExtractsTo};

use crate::{
    EDGE_SPACE, END_CAP, GATE_LENGTH, HALF_CUT, HALF_GATE, HALF_METAL, HALF_PAD, LABEL_ON_FINGER,
    LABEL_ON_GATE, LABEL_ON_GND, LABEL_ON_VDD, LANDING, LEAST_CHANNEL, LEAST_ROW, MOST_HEIGHT,
    MOST_SHAPES, MOST_TRACKS, MOST_X, MOST_Y, RAIL, RAIL_GAP, ROW_EDGE, SELECT_PAST_ROW,
    SELECT_PAST_SIDE, TRACK_PITCH, WELL_PAST_ROW, WELL_PAST_SIDE,
};

/// Where a drawing of at most 10,000 rectangles and 2,000 labels extracts to fingers, its extraction is refused
/// only where memory runs out.
pub fn extraction_law()
    ensures { (deck : Deck) (names : List (List ℕ)) (fingers : Fingers) (shapes : Shapes) (f : ExtractFault) →
        AreFew shapes → ExtractsTo deck names fingers shapes → ExtractRefused deck shapes f → f ≡ NoMemory }
{}

/// Each measure of `src/measure.rt` is the number that the definitions give it (`specs/Measures.antt`).
pub fn measure_numbers()
    ensures half_cut { HALF_CUT ≡ 2 }
    ensures half_gate { HALF_GATE ≡ 2 }
    ensures gate_length { GATE_LENGTH ≡ 4 }
    ensures half_pad { HALF_PAD ≡ 5 }
    ensures half_metal { HALF_METAL ≡ 4 }
    ensures end_cap { END_CAP ≡ 4 }
    ensures well_past_row { WELL_PAST_ROW ≡ 12 }
    ensures well_past_side { WELL_PAST_SIDE ≡ 10 }
    ensures select_past_row { SELECT_PAST_ROW ≡ 4 }
    ensures select_past_side { SELECT_PAST_SIDE ≡ 2 }
    ensures rail { RAIL ≡ 16 }
    ensures rail_gap { RAIL_GAP ≡ 8 }
    ensures row_edge { ROW_EDGE ≡ 24 }
    ensures least_row { LEAST_ROW ≡ 10 }
    ensures landing { LANDING ≡ 6 }
    ensures edge_space { EDGE_SPACE ≡ 20 }
    ensures least_channel { LEAST_CHANNEL ≡ 40 }
    ensures track_pitch { TRACK_PITCH ≡ 16 }
    ensures label_on_finger { LABEL_ON_FINGER ≡ 4 }
    ensures label_on_gate { LABEL_ON_GATE ≡ 2 }
    ensures label_on_gnd { LABEL_ON_GND ≡ 8 }
    ensures label_on_vdd { LABEL_ON_VDD ≡ 16 }
{}

/// What the limits of a drawing are, as numbers: contracts cite them by their names.
pub fn limit_numbers()
    ensures height { MOST_HEIGHT ≡ 4000 }
    ensures tracks { MOST_TRACKS ≡ 1000 }
    ensures x { MOST_X ≡ 1_000_000 }
    ensures y { MOST_Y ≡ 200_000 }
    ensures shapes { MOST_SHAPES ≡ 2000 }
{}
