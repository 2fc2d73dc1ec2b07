ghost use Rattle.std.specs.Prelude.{◌<◌, IfOk, length};
ghost use Rattle.cell_num.specs.Fingers.{AreFingers};
ghost use Rattle.trail_state.specs.Levels.{IsOrder};

use crate::gates::gates;
use cell_num::{Fingers, List, NetNo, NoMemory};
use std::alloc::{AllocError, Global};
use trail_log::NetList;
use trail_state::{Node, open_nodes};

// A gate, and the nodes that its columns can have at their ends.
#[derive(Drop)]
struct GateNodes {
    gate: NetNo,
    nodes: List<Node>,
}

// How many gates that are left can meet a node, and whether one before them can.
#[derive(Clone, Copy)]
struct Meeting {
    left: u32,
    met: bool,
}

fn no_meetings(alloc: Global, fingers: &Fingers) -> Result<Vec<Meeting>, AllocError>
    requires { AreFingers fingers.now }
{
    (0..256 * fingers.nets)
        .map(|_| Meeting {
            left: 0,
            met: false,
        })
        .collect(alloc)
}

fn add(meetings: &mut [Meeting], nodes: &[Node]) {
    for node in nodes {
        if let Some(meeting) = meetings.get_mut(node.0 as usize) {
            meeting.left = meeting.left.saturating_add(1);
        }
    }
}

fn take(meetings: &mut [Meeting], nodes: &[Node]) {
    for node in nodes {
        if let Some(meeting) = meetings.get_mut(node.0 as usize) {
            meeting.left = meeting.left.saturating_sub(1);
            meeting.met = true;
        }
    }
}

fn opens(meetings: &[Meeting], node: &Node) -> bool {
    match meetings.get(node.0 as usize) {
        Some(meeting) => !meeting.met && meeting.left > 1,
        None => false,
    }
}

fn closes(meetings: &[Meeting], node: &Node) -> bool {
    match meetings.get(node.0 as usize) {
        Some(meeting) => meeting.met && meeting.left == 1,
        None => false,
    }
}

fn nodes_of<'a>(gates: &'a [GateNodes], gate: &NetNo) -> &'a [Node] {
    match gates.iter().find(|other| other.gate == *gate) {
        Some(found) => found.nodes.as_slice(),
        None => &[],
    }
}

// The more, the more nodes stay open after the gate.
fn weight(meetings: &[Meeting], nodes: &[Node]) -> usize {
    let opened = nodes.iter().filter(|node| opens(meetings, node)).count();
    let closed = nodes.iter().filter(|node| closes(meetings, node)).count();
    opened.saturating_add(65_536).saturating_sub(closed)
}

// Where the first of the gates with the least weight stands among those that are left.
fn next(meetings: &[Meeting], gates: &[GateNodes], left: &[NetNo]) -> usize
    requires { 0 < length left.now }
    ensures { result < length left.now }
{
    let mut best = 0;
    let mut least = weight(meetings, nodes_of(gates, &left[0]));
    for at in 1..left.len() {
        let other = weight(meetings, nodes_of(gates, &left[at]));
        if other < least {
            best = at;
            least = other;
        }
    }
    best
}

fn with_nodes(
    alloc: Global,
    fingers: &Fingers,
    gates: &[NetNo],
) -> Result<List<GateNodes>, NoMemory>
    requires { AreFingers fingers.now }
{
    let mut all = List::new(alloc);
    for gate in gates {
        let nodes = open_nodes(alloc, fingers, &[*gate])?;
        all.push(GateNodes { gate: *gate, nodes })?;
    }
    Ok(all)
}

fn met_by(alloc: Global, fingers: &Fingers, gates: &[GateNodes]) -> Result<Vec<Meeting>, AllocError>
    requires { AreFingers fingers.now }
{
    let mut meetings = no_meetings(alloc, fingers)?;
    for gate in gates {
        add(&mut meetings, gate.nodes.as_slice());
    }
    Ok(meetings)
}

/// Each gate of the fingers once, each of them the one after which the fewest nodes are open.
#[tactic(auto, using(crate::proofs::Orders::order_is))]
pub fn order(alloc: Global, fingers: &Fingers) -> Result<NetList, NoMemory>
    requires { AreFingers fingers.now }
    ensures { IfOk result (IsOrder fingers.now) }
{
    let mut left = gates(alloc, fingers)?;
    let gates = with_nodes(alloc, fingers, &left)?;
    let mut meetings = met_by(alloc, fingers, gates.as_slice())?;
    let mut order = List::new(alloc);
    'gates: while !left.is_empty() {
        let at = next(&meetings, gates.as_slice(), &left);
        let gate = left.remove(at);
        take(&mut meetings, nodes_of(gates.as_slice(), &gate));
        order.push(gate)?;
    }
    Ok(order)
}
