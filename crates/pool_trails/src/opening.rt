// Which gates with half columns are left open.
ghost use Rattle.std.specs.Prelude.{◌≡◌, IfOk};
ghost use Rattle.trail_search.specs.Filling.{opened_gates};
ghost use Rattle.pool_trails.specs.Opening.{fuller_row, opened_by, row_among};

use crate::left_out::other_row;
use cell_num::{Fingers, List, NetNo, NoMemory, Row};
use open_gates::row_of;
use std::alloc::Global;
use trail_log::NetList;
use trail_search::having_more;

/// Which gates with half columns are left open; the others are filled.
#[derive(Clone, Copy, Debug, PartialEq, Eq)]
pub enum Opening {
    /// Each with more fingers in one row. It is the row of the gates that have too many ways to be filled; where there
    /// is none, that with more half columns.
    Longer,
    /// Only those with too many ways to be filled: those that `search_trails` leaves open.
    Crowded,
    /// Each with fewer fingers in this row. A gate that has too many ways even so has its fingers of this row left out.
    Without(Row),
}

fn fuller_row(fingers: &Fingers) -> Row
    ensures { result ≡ fuller_row fingers.now }
{
    if fingers.p.len() < fingers.n.len() {
        Row::N
    } else {
        Row::P
    }
}

fn row_among(fingers: &Fingers, gates: &[NetNo]) -> Row
    ensures { result ≡ row_among fingers.now gates.now }
{
    if gates.len() == 0 {
        fuller_row(fingers)
    } else {
        row_of(fingers, gates)
    }
}

/// The gates of the order that are left open so, where trail_search leaves these open.
pub(crate) fn opened_by(
    alloc: Global,
    opening: Opening,
    fingers: &Fingers,
    order: &[NetNo],
    crowded: NetList,
) -> Result<NetList, NoMemory>
    requires { crowded ≡ opened_gates fingers.now order.now }
    ensures { IfOk result (λ gates. gates ≡ opened_by opening fingers.now order.now) }
{
    match opening {
        Opening::Longer => {
            let row = row_among(fingers, crowded.as_slice());
            let longer = having_more(alloc, row, fingers, order)?;
            Ok(List::from_vec(longer))
        }
        Opening::Crowded => Ok(crowded),
        Opening::Without(row) => {
            let more = having_more(alloc, other_row(row), fingers, order)?;
            Ok(List::from_vec(more))
        }
    }
}
