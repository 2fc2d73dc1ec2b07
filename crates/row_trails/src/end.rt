ghost use Rattle.std.specs.Prelude.{◌≡◌, option_map};
ghost use Rattle.row_model.specs.Gaps.{right_net};
ghost use Rattle.row_trails.specs.Trails.{cost_at, end_differs};

use cell_num::NetNo;
use row_model::{Column, Placed};

fn differs(end: &Option<NetNo>, place: &Option<Placed>) -> bool
    ensures { result ≡ end_differs end.now place.now }
{
    match (end, place) {
        (Some(net), Some(x)) => *net != x.left(),
        _ => false,
    }
}

/// 1 where in some row an end is open and the column fills that row with another net, else 0.
pub fn cost_at_ends(p_end: &Option<NetNo>, n_end: &Option<NetNo>, column: &Column) -> u32
    ensures { result ≡ cost_at p_end.now n_end.now column.now }
{
    if differs(p_end, &column.p) || differs(n_end, &column.n) {
        1
    } else {
        0
    }
}

/// The open end of a row after one of its places. After an empty place there is none.
pub fn end_behind(place: &Option<Placed>) -> Option<NetNo>
    ensures { result ≡ option_map right_net place.now }
{
    match place {
        Some(x) => Some(x.right()),
        None => None,
    }
}
