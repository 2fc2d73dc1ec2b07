// Whether cells can be side by side.

ghost use Rattle.std.specs.Prelude.{◌≡◌, ◌+◌, ◌<◌, IfSome, length, nat_lt};
ghost use Rattle.row_abut.specs.Faults.{first_height, other_height, clash, first_clash};

use crate::{CHANNEL_ROOM, RowCell};

/// The height of the first cell, in grid units; 0 where there is none.
pub fn first_height(cells: &[RowCell]) -> u32
    ensures { result ≡ first_height cells.now }
{
    match cells.first() {
        Some(cell) => cell.drawing.height,
        None => 0,
    }
}

/// The height of the first cell that has another height than `first`.
pub fn other_height(cells: &[RowCell], first: u32) -> Option<u32>
    ensures { result ≡ other_height first cells.now }
{
    cells
        .iter()
        .find(|cell| cell.drawing.height != first)
        .map(|cell| cell.drawing.height)
}

// The N edge is too high for the P edge.
fn is_above(n: u32, p: u32) -> bool
    ensures { result ≡ nat_lt p (n + CHANNEL_ROOM) }
{
    u64::from(p) < u64::from(n) + u64::from(CHANNEL_ROOM)
}

fn is_clash(a: &RowCell, b: &RowCell) -> bool
    ensures { result ≡ clash (a.now, b.now) }
{
    is_above(a.edges.n, b.edges.p) || is_above(b.edges.n, a.edges.p)
}

/// The number of the first cell that clashes with the next one.
pub fn first_clash(cells: &[RowCell]) -> Option<usize>
    ensures value { result ≡ first_clash cells.now }
    ensures below { IfSome result (λ left. left < length cells.now) }
{
    let (_, rest) = cells.split_first()?;
    cells
        .iter()
        .zip(rest.iter())
        .position(|pair| is_clash(pair.0, pair.1))
}
