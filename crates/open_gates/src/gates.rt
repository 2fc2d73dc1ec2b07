ghost use Rattle.std.specs.Prelude.{◌≡◌, ◌==◌, IfOk};
ghost use Rattle.std.specs.List.{filter, list_any};
ghost use Rattle.cell_num.specs.declared.net.NetNo.{NetNo as NetNoOf};
ghost use Rattle.trail_state.specs.Nodes.{has_net};
ghost use Rattle.open_gates.specs.Listed.{nets_merged};
ghost use Rattle.open_gates.specs.Open.{fingers_at, fingers_beside, has_more, have_more, is_left_open};
ghost use Rattle.open_gates.specs.Open.{is_merged_net, is_uneven, is_unfilled, longer_row, of_gates, open_in, row_of};

use cell_num::{Finger, Fingers, List, NetNo, NoMemory, Row};
use std::alloc::{AllocError, Global};
use trail_state::count_on;

/// Gates with half columns that nothing fills, and the row in which each of them has more fingers.
#[derive(Debug, PartialEq, Drop)]
pub struct OpenGates {
    pub row: Row,
    pub gates: List<NetNo>,
}

impl OpenGates {
    /// These gates: the row is that in which the first of them has more fingers, P where there is none.
    pub fn new(fingers: &Fingers, gates: List<NetNo>) -> Self
        ensures { result ≡ of_gates fingers.now gates }
    {
        OpenGates {
            row: row_of(fingers, gates.as_slice()),
            gates,
        }
    }

    /// The gates of the order that have half columns and are none of those that are filled.
    pub fn unfilled(
        alloc: Global,
        fingers: &Fingers,
        fill: &[NetNo],
        order: &[NetNo],
    ) -> Result<Self, NoMemory>
        ensures { IfOk result (λ opened. opened ≡ open_in fingers.now fill.now order.now) }
    {
        let gates = unfilled_gates(alloc, fingers, fill, order)?;
        Ok(OpenGates::new(fingers, List::from_vec(gates)))
    }

    /// Whether each of the gates has more fingers in the row than in the other one.
    pub fn have_more(&self, fingers: &Fingers) -> bool
        ensures { result ≡ have_more fingers.now self.now }
    {
        self.gates
            .as_slice()
            .iter()
            .all(|gate| has_more(self.row, fingers, gate))
    }

    /// Whether the gate is left open.
    pub fn has(&self, gate: u32) -> bool
        ensures { result ≡ is_left_open self.now gate }
    {
        self.gates.as_slice().iter().any(|other| other.0 == gate)
    }
}

/// The fingers of the row.
pub fn fingers_at(row: Row, fingers: &Fingers) -> &[Finger]
    ensures { result.now ≡ fingers_at row fingers.now }
{
    match row {
        Row::P => fingers.p.as_slice(),
        Row::N => fingers.n.as_slice(),
    }
}

/// The fingers of the other row.
pub fn fingers_beside(row: Row, fingers: &Fingers) -> &[Finger]
    ensures { result.now ≡ fingers_beside row fingers.now }
{
    match row {
        Row::P => fingers.n.as_slice(),
        Row::N => fingers.p.as_slice(),
    }
}

/// Whether the row has more fingers on the gate than the other one.
pub fn has_more(row: Row, fingers: &Fingers, gate: &NetNo) -> bool
    ensures { result ≡ has_more row fingers.now gate.now }
{
    count_on(fingers_beside(row, fingers), gate.0) < count_on(fingers_at(row, fingers), gate.0)
}

fn longer_row(fingers: &Fingers, gate: &NetNo) -> Row
    ensures { result ≡ longer_row fingers.now gate.now }
{
    if has_more(Row::P, fingers, gate) {
        Row::P
    } else {
        Row::N
    }
}

/// The row in which the first of the gates has more fingers, P where there is none.
pub fn row_of(fingers: &Fingers, gates: &[NetNo]) -> Row
    ensures { result ≡ row_of fingers.now gates.now }
{
    match gates.split_first() {
        Some((gate, _)) => longer_row(fingers, gate),
        None => Row::P,
    }
}

fn is_listed(gates: &[NetNo], gate: u32) -> bool
    ensures { result ≡ list_any (λ (g : NetNoOf). g.0 == gate) gates.now }
{
    gates.iter().any(|other| other.0 == gate)
}

/// Whether the gate has more fingers in one row than in the other: half columns.
pub fn is_uneven(fingers: &Fingers, gate: u32) -> bool
    ensures { result ≡ is_uneven fingers.now gate }
{
    count_on(fingers.p.as_slice(), gate) != count_on(fingers.n.as_slice(), gate)
}

fn is_unfilled(fingers: &Fingers, fill: &[NetNo], gate: &NetNo) -> bool
    ensures { result ≡ is_unfilled fingers.now fill.now gate.now }
{
    is_uneven(fingers, gate.0) && !is_listed(fill, gate.0)
}

fn unfilled_gates(
    alloc: Global,
    fingers: &Fingers,
    fill: &[NetNo],
    order: &[NetNo],
) -> Result<Vec<NetNo>, AllocError>
    ensures { IfOk result (λ gates. gates.items ≡ filter (is_unfilled fingers.now fill.now) order.now) }
{
    order
        .iter()
        .copied()
        .filter(|gate| is_unfilled(fingers, fill, gate))
        .collect(alloc)
}

/// Whether an end of the finger has the net.
pub fn has_net(net: u32, finger: &Finger) -> bool
    ensures { result ≡ has_net net finger.now }
{
    finger.lo.0 == net || finger.hi.0 == net
}

/// Whether an end of a finger of the row, on a gate that is left open, has the net.
pub fn is_merged(fingers: &Fingers, opened: &OpenGates, net: u32) -> bool
    ensures { result ≡ is_merged_net fingers.now opened.now net }
{
    fingers_at(opened.row, fingers)
        .iter()
        .any(|finger| opened.has(finger.gate.0) && has_net(net, finger))
}

/// The nets whose nodes are merged, in ascending order.
pub fn merged_nets(
    alloc: Global,
    fingers: &Fingers,
    opened: &OpenGates,
) -> Result<Vec<u32>, AllocError>
    ensures { IfOk result (λ nets. nets.items ≡ nets_merged fingers.now opened.now) }
{
    (0..fingers.nets)
        .filter(|net| is_merged(fingers, opened, *net))
        .collect(alloc)
}
