ghost use Rattle.std.specs.Prelude.{◌≡◌, IfOk, not};
ghost use Rattle.std.specs.List.{filter};
ghost use Rattle.cell_num.specs.Fingers.{AreFingers};
ghost use Rattle.open_gates.specs.Open.{has_more, is_uneven};
ghost use Rattle.trail_search.specs.Filling.{crowded_gates, is_crowded, is_one_of};
ghost use Rattle.trail_search.specs.Filling.{longer_gates, opened_gates, uneven_gates};
ghost use Rattle.trail_search.specs.Order.{gates_of, has_finger};

use cell_num::{Fingers, List, NetNo, NoMemory, Row};
use open_gates::{has_more, is_uneven, row_of};
use std::alloc::{AllocError, Global};
use trail_check::has_many_ways;
use trail_log::NetList;
use trail_state::count_on;

fn has_finger(fingers: &Fingers, gate: u32) -> bool
    ensures { result ≡ has_finger fingers.now gate }
{
    count_on(fingers.p.as_slice(), gate) > 0 || count_on(fingers.n.as_slice(), gate) > 0
}

/// The gates of the fingers, in the order of their numbers.
pub(crate) fn gates(alloc: Global, fingers: &Fingers) -> Result<Vec<NetNo>, AllocError>
    ensures { IfOk result (λ gates. gates.items ≡ gates_of fingers.now) }
{
    (0..fingers.nets)
        .filter(|gate| has_finger(fingers, *gate))
        .map(|gate| NetNo(gate))
        .collect(alloc)
}

fn uneven(alloc: Global, fingers: &Fingers) -> Result<Vec<NetNo>, AllocError>
    ensures { IfOk result (λ gates. gates.items ≡ uneven_gates fingers.now) }
{
    (0..fingers.nets)
        .filter(|gate| is_uneven(fingers, *gate))
        .map(|gate| NetNo(gate))
        .collect(alloc)
}

fn is_crowded(alloc: Global, fingers: &Fingers, gate: &NetNo) -> Result<bool, NoMemory>
    requires { AreFingers fingers.now }
    ensures { IfOk result (λ yes. yes ≡ is_crowded fingers.now gate.now) }
{
    if !is_uneven(fingers, gate.0) {
        return Ok(false);
    }
    has_many_ways(alloc, fingers, gate)
}

fn crowded(alloc: Global, fingers: &Fingers, order: &[NetNo]) -> Result<NetList, NoMemory>
    requires { AreFingers fingers.now }
    ensures { IfOk result (λ gates. gates ≡ crowded_gates fingers.now order.now) }
{
    let mut gates = List::new(alloc);
    for gate in order {
        if is_crowded(alloc, fingers, gate)? {
            gates.push(*gate)?;
        }
    }
    Ok(gates)
}

/// The gates with more fingers in the row.
pub fn having_more(
    alloc: Global,
    row: Row,
    fingers: &Fingers,
    gates: &[NetNo],
) -> Result<Vec<NetNo>, AllocError>
    ensures { IfOk result (λ all. all.items ≡ filter (has_more row fingers.now) gates.now) }
{
    gates
        .iter()
        .copied()
        .filter(|gate| has_more(row, fingers, gate))
        .collect(alloc)
}

fn longer(alloc: Global, fingers: &Fingers, gates: &[NetNo]) -> Result<Vec<NetNo>, AllocError>
    ensures { IfOk result (λ all. all.items ≡ longer_gates fingers.now gates.now) }
{
    let row = row_of(fingers, gates);
    let all = having_more(alloc, row, fingers, gates)?;
    Ok(all)
}

fn is_one_of(gates: &[NetNo], gate: &NetNo) -> bool
    ensures { result ≡ is_one_of gates.now gate.now }
{
    gates.iter().any(|other| other.0 == gate.0)
}

fn others(alloc: Global, gates: &[NetNo], some: &[NetNo]) -> Result<Vec<NetNo>, AllocError>
    ensures { IfOk result (λ all. all.items ≡ filter (λ gate. not (is_one_of some.now gate)) gates.now) }
{
    gates
        .iter()
        .copied()
        .filter(|gate| !is_one_of(some, gate))
        .collect(alloc)
}

/// The gates with half columns that are left open, since they have too many ways: those with more fingers in the row
/// of the first of them.
pub fn opened(alloc: Global, fingers: &Fingers, order: &NetList) -> Result<NetList, NoMemory>
    requires { AreFingers fingers.now }
    ensures { IfOk result (λ gates. gates ≡ opened_gates fingers.now order.now) }
{
    let gates = crowded(alloc, fingers, order.as_slice())?;
    let longer = longer(alloc, fingers, gates.as_slice())?;
    Ok(List::from_vec(longer))
}

/// The gates with half columns that are filled: all but these.
pub fn fill(alloc: Global, fingers: &Fingers, opened: &NetList) -> Result<NetList, NoMemory>
    ensures { IfOk result (λ gates. gates ≡
        filter (λ gate. not (is_one_of opened.now gate)) (uneven_gates fingers.now)) }
{
    let gates = uneven(alloc, fingers)?;
    let filled = others(alloc, gates.as_slice(), opened.as_slice())?;
    Ok(List::from_vec(filled))
}
