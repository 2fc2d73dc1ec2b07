ghost use Rattle.std.specs.Prelude.{◌≡◌, IfOk};
ghost use Rattle.cell_num.specs.Fingers.{AreFingers};
ghost use Rattle.trail_check.specs.Gates.{has_many_ways};

use cell_num::{Fingers, NetNo, NoMemory};
use std::alloc::Global;
use trail_state::has_long_front;

/// The most different ways to pair the fingers of a gate's first columns, where a checker lists them.
pub const MOST_CHOICES: usize = 65_536;

/// Whether the fingers of the gate pair in more than [`MOST_CHOICES`] ways: column by column, after one of them. Each
/// pair is turned alike or not, a place that stays empty is filled with each two nets of its row, and ways with equal
/// columns that leave equal fingers are one.
pub fn has_many_ways(alloc: Global, fingers: &Fingers, gate: &NetNo) -> Result<bool, NoMemory>
    requires { AreFingers fingers.now }
    ensures { IfOk result (λ many. many ≡ has_many_ways fingers.now gate.now) }
{
    has_long_front(alloc, fingers, *gate, MOST_CHOICES)
}
