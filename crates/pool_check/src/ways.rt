ghost use Rattle.std.specs.Prelude.{◌≡◌, IfOk};
ghost use Rattle.cell_num.specs.Fingers.{AreFingers};
ghost use Rattle.pool_check.specs.Accepted.{first_with_many, has_many_ways};

use cell_num::{Fingers, NetNo, NoMemory};
use open_gates::OpenGates;
use std::alloc::Global;
use trail_pools::has_long_front;

/// The most different ways to pair the fingers of a gate's first columns, where a checker lists them.
pub const MOST_CHOICES: usize = 65_536;

// Whether the fingers of the gate pair in more ways, after one of them.
fn has_many_ways(
    alloc: Global,
    fingers: &Fingers,
    opened: &OpenGates,
    gate: &NetNo,
) -> Result<bool, NoMemory>
    requires { AreFingers fingers.now }
    ensures { IfOk result (λ many. many ≡ has_many_ways fingers.now opened.now gate.now) }
{
    has_long_front(alloc, fingers, opened, *gate, MOST_CHOICES)
}

/// The first gate of the order that has more than [`MOST_CHOICES`] ways, where half columns of these gates stay open.
pub fn first_with_many(
    alloc: Global,
    fingers: &Fingers,
    opened: &OpenGates,
    order: &[NetNo],
) -> Result<Option<NetNo>, NoMemory>
    requires { AreFingers fingers.now }
    ensures { IfOk result (λ first. first ≡ first_with_many fingers.now opened.now order.now) }
{
    let mut gates = order;
    while let Some((gate, later)) = gates.split_first() {
        if has_many_ways(alloc, fingers, opened, gate)? {
            return Ok(Some(*gate));
        }
        gates = later;
    }
    Ok(None)
}
