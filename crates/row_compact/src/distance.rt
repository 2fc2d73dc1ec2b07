ghost use Rattle.std.specs.Prelude.{◌≡◌};
ghost use Rattle.row_compact.specs.Solution.{x_of as x_at};

use cell_num::List;

/// The most lines of a row: two for each unit, and the last one.
pub const MOST_LINES: u32 = 127;

/// The line `to` is at least `least` grid units to the right of the line `from`.
#[derive(Clone, Copy, Debug, PartialEq, Eq)]
pub struct Distance {
    pub from: u32,
    pub to: u32,
    pub least: u32,
}

/// Distances in any order.
pub type DistanceList = List<Distance>;

/// The distances that `lines` lines keep between them. Besides, line 0 is at 8 grid units or more.
#[derive(Debug, PartialEq, Drop)]
pub struct Distances {
    pub lines: u32,
    pub list: DistanceList,
}

/// The position of each line, in grid units.
pub type LineXs = List<u32>;

/// The position of a line, in grid units; 0 after the last line.
pub fn x_of(xs: &[u32], line: u32) -> u32
    ensures { result ≡ x_at xs.now line }
{
    match xs.get(line as usize) {
        Some(x) => *x,
        None => 0,
    }
}
