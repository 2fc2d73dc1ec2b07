ghost use Rattle.std.specs.Prelude.{◌≡◌, ◌≤◌, length};
ghost use Rattle.row_model.specs.Gaps.{facing_differs, is_gap, gaps_of};

use crate::{Arrangement, Column, Placed};
use cell_num::MOST_FINGERS;

fn differs(before: &Option<Placed>, after: &Option<Placed>) -> bool
    ensures { result ≡ facing_differs before.now after.now }
{
    match (before, after) {
        (Some(a), Some(b)) => a.right() != b.left(),
        _ => false,
    }
}

/// Whether a gap stands between two columns, from left to right: in some row both places are filled
/// and the facing nets differ.
pub fn has_gap(before: &Column, after: &Column) -> bool
    ensures { result ≡ is_gap (before.now, after.now) }
{
    differs(&before.p, &after.p) || differs(&before.n, &after.n)
}

/// The number of neighbouring columns with a gap between them.
pub fn gaps(row: &Arrangement) -> u32
    requires { length row.now ≤ MOST_FINGERS }
    ensures { result ≡ gaps_of row.now }
{
    let columns = row.as_slice();
    let Some((_, rest)) = columns.split_first() else {
        return 0;
    };
    columns
        .iter()
        .zip(rest.iter())
        .filter(|pair| has_gap(pair.0, pair.1))
        .count() as u32
}
