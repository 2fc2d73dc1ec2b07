ghost use Rattle.std.specs.Prelude.{◌≡◌, true, false, IfNone, IfOk, IfSome};
ghost use Rattle.cell_num.specs.Fingers.{AreFingers};
ghost use Rattle.trail_state.specs.Pairings.{choices_of, has_long_front};

use crate::gate::gate_of;
use crate::{Choice, listing};
use cell_num::{Fingers, List, NetNo, NoMemory};
use std::alloc::Global;

/// The choices of a gate, each once: which of its P fingers is above which N finger, turned alike
/// or not. A place that stays empty is filled with each two nets of its row.
pub fn choices(alloc: Global, fingers: &Fingers, gate: NetNo) -> Result<List<Choice>, NoMemory>
    requires { AreFingers fingers.now }
    ensures { IfOk result (λ all. all ≡ choices_of fingers.now gate.0) }
{
    let gate = gate_of(alloc, fingers, gate.0)?;
    let all = listing::choices(alloc, &gate)?;
    Ok(all)
}

/// Whether after one of the columns of the gate there are more than `most` ways to pair its fingers so far: the edges
/// of the columns with the N fingers that are left, each once. It takes memory for `most` of them, and those with one
/// column more of one of them.
pub fn has_long_front(
    alloc: Global,
    fingers: &Fingers,
    gate: NetNo,
    most: usize,
) -> Result<bool, NoMemory>
    requires { AreFingers fingers.now }
    ensures { IfOk result (λ long. long ≡ has_long_front most fingers.now gate.0) }
{
    let gate = gate_of(alloc, fingers, gate.0)?;
    let long = listing::has_long_front(alloc, &gate, most)?;
    Ok(long)
}

/// The choices of a gate, where after none of its columns there are more than `most` ways to pair its fingers so far,
/// as [`has_long_front`] counts them; else none. It takes the memory that this call does.
pub fn choices_within(
    alloc: Global,
    fingers: &Fingers,
    gate: NetNo,
    most: usize,
) -> Result<Option<List<Choice>>, NoMemory>
    requires { AreFingers fingers.now }
    ensures all { IfOk result (λ o. IfSome o (λ all. all ≡ choices_of fingers.now gate.0)) }
    ensures few { IfOk result (λ o. IfSome o (λ _. has_long_front most fingers.now gate.0 ≡ false)) }
    ensures many { IfOk result (λ o. IfNone o (has_long_front most fingers.now gate.0 ≡ true)) }
{
    let gate = gate_of(alloc, fingers, gate.0)?;
    let all = listing::choices_within(alloc, &gate, most)?;
    Ok(all)
}
