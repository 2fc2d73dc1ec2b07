ghost use Rattle.std.specs.Prelude.{◌≡◌};

use crate::{CONTACT_SPACE, LINE_SPACE, MOST_LINES, SIDE_SPACE, STRETCH_SPACE};

/// Each distance of `src/measure.rt` is the number that the definitions give it (`specs/Measures.antt`), and
/// a row has at most 127 lines. It does nothing: its contract is the law.
pub fn measure_numbers()
    ensures side_space { SIDE_SPACE ≡ 8 }
    ensures line_space { LINE_SPACE ≡ 8 }
    ensures contact_space { CONTACT_SPACE ≡ 11 }
    ensures stretch_space { STRETCH_SPACE ≡ 14 }
    ensures most_lines { MOST_LINES ≡ 127 }
{}
