ghost use Rattle.std.specs.Prelude.{◌≡◌, ◌∷◌, ◌&&◌, ◌||◌, IfOk, not};
ghost use Rattle.std.specs.List.{filter, list_any};
ghost use Rattle.cell_num.specs.declared.net.NetNo.{NetNo as NetNoOf};
ghost use Rattle.cell_num.specs.Fingers.{AreFingers};
ghost use Rattle.trail_state.specs.Nodes.{is_net_on};
ghost use Rattle.open_gates.specs.Open.{fingers_at, fingers_beside, is_left_open};
ghost use Rattle.trail_pools.specs.Meeting.{any_ends_free, ends_free, net_beside};
ghost use Rattle.trail_pools.specs.NodesMet.{is_full_at, nodes_meeting, nodes_met};

use crate::choices::stays_open;
use cell_num::{Finger, Fingers, NetNo, NoMemory, Row};
use open_gates::OpenGates;
use open_gates::gates::{fingers_at, fingers_beside, has_net};
use std::alloc::{AllocError, Global};
use trail_state::nodes::merge;
use trail_state::{Node, open_nodes};

fn is_net_on(fingers: &[Finger], gate: NetNo, net: u32) -> bool
    ensures { result ≡ is_net_on fingers.now gate.0 net }
{
    fingers
        .iter()
        .any(|finger| finger.gate.0 == gate.0 && has_net(net, finger))
}

// Whether the gate has half columns that stay open, and a finger of them ends at the net.
fn ends_free(fingers: &Fingers, counted: &OpenGates, gate: &NetNo, net: u32) -> bool
    ensures { result ≡ ends_free fingers.now counted.now.row (is_left_open counted.now) gate.now.0 net }
{
    stays_open(fingers, counted, *gate) && is_net_on(fingers_at(counted.row, fingers), *gate, net)
}

/// Whether a half column of one of the gates that stays open can have the net at an end.
pub(crate) fn any_ends_free(
    fingers: &Fingers,
    counted: &OpenGates,
    gates: &[NetNo],
    net: u32,
) -> bool
    ensures { result ≡ any_ends_free fingers.now counted.now.row (is_left_open counted.now) gates.now net }
{
    gates
        .iter()
        .any(|gate| ends_free(fingers, counted, gate, net))
}

fn net_beside(row: Row, node: u32) -> u32
    ensures { result ≡ net_beside row node }
{
    match row {
        Row::P => node % 256,
        Row::N => node / 256,
    }
}

// Whether the gate's half columns are filled, or a finger of the other row has the node's net there.
fn is_full_at(fingers: &Fingers, row: Row, gate: NetNo, stays: bool, node: &Node) -> bool
    ensures { result ≡ is_full_at fingers.now row gate.0 stays node.now }
{
    !stays || is_net_on(fingers_beside(row, fingers), gate, net_beside(row, node.0))
}

fn full_nodes(
    alloc: Global,
    fingers: &Fingers,
    row: Row,
    gate: NetNo,
    stays: bool,
    nodes: &[Node],
) -> Result<Vec<Node>, AllocError>
    ensures { IfOk result (λ all. all.items ≡ filter (is_full_at fingers.now row gate.0 stays) nodes.now) }
{
    nodes
        .iter()
        .copied()
        .filter(|node| is_full_at(fingers, row, gate, stays, node))
        .collect(alloc)
}

// The nodes that a column of the gate can have at an end.
#[tactic(auto, using(crate::proofs::NodesMet::gate_nodes))]
fn gate_nodes(
    alloc: Global,
    fingers: &Fingers,
    counted: &OpenGates,
    gate: NetNo,
) -> Result<Vec<Node>, NoMemory>
    requires { AreFingers fingers.now }
    ensures { IfOk result (λ nodes. nodes.items ≡ nodes_meeting fingers.now counted.now gate.0) }
{
    let stays = stays_open(fingers, counted, gate);
    let nodes = open_nodes(alloc, fingers, &[gate])?;
    Ok(full_nodes(alloc, fingers, counted.row, gate, stays, nodes.as_slice())?)
}

// The nodes of one gate more, which stands first.
fn with_gate(
    alloc: Global,
    fingers: &Fingers,
    counted: &OpenGates,
    gates: &[NetNo],
    gate: &NetNo,
    later: &[NetNo],
    others: &[Node],
) -> Result<Vec<Node>, NoMemory>
    requires fingers { AreFingers fingers.now }
    requires gates { gates.now ≡ gate.now ∷ later.now }
    requires others { others.now ≡ nodes_met fingers.now counted.now later.now }
    ensures { IfOk result (λ nodes. nodes.items ≡ nodes_met fingers.now counted.now gates.now) }
{
    let first = gate_nodes(alloc, fingers, counted, *gate)?;
    Ok(merge(alloc, first.as_slice(), others)?)
}

/// The nodes that columns of some of the gates can have at their ends, in ascending order.
#[tactic(auto, using(crate::proofs::NodesMet::none_met))]
pub(crate) fn met_nodes(
    alloc: Global,
    fingers: &Fingers,
    counted: &OpenGates,
    gates: &[NetNo],
) -> Result<Vec<Node>, NoMemory>
    requires { AreFingers fingers.now }
    ensures { IfOk result (λ nodes. nodes.items ≡ nodes_met fingers.now counted.now gates.now) }
{
    let Some((gate, later)) = gates.split_first() else {
        return Ok(Vec::new(alloc));
    };
    let others = met_nodes(alloc, fingers, counted, later)?;
    with_gate(
        alloc,
        fingers,
        counted,
        gates,
        gate,
        later,
        others.as_slice(),
    )
}
