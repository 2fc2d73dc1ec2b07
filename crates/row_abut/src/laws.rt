ghost use Rattle.std.specs.Prelude.{◌≡◌};

use crate::{CHANNEL_ROOM, LEAST_INNER, MOST_CELLS, MOST_REACH};

/// What the measures of `src/measure.rt` are, as numbers: those of the definitions (`specs/Measures.antt`).
/// It does nothing: its contract is the law.
pub fn measure_numbers()
    ensures most_cells { MOST_CELLS ≡ 16 }
    ensures most_reach { MOST_REACH ≡ 2_000_000 }
    ensures channel_room { CHANNEL_ROOM ≡ 24 }
    ensures least_inner { LEAST_INNER ≡ 19 }
{}
