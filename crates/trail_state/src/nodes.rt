ghost use Rattle.std.specs.Prelude.{◌≡◌, ◌<◌, ◌++◌, true, All, IfOk, OnOk, map};
ghost use Rattle.std.specs.List.{filter, flat_map, range_with_len};
ghost use Rattle.std.specs.Set.{sorted_merge};
ghost use Rattle.cell_num.specs.Fingers.{on_gate, AreFingers};
ghost use Rattle.trail_state.specs.Edges.{pair_node};
ghost use Rattle.trail_state.specs.Places.{node_at};
ghost use Rattle.trail_state.specs.Choices.{is_on};
ghost use Rattle.trail_state.specs.Nodes.{has_net, is_end_in, is_net_in, is_net_on, may_have, node_cmp, nodes_of};
ghost use Rattle.trail_state.specs.Nodes.{open_nodes};
ghost use Rattle.trail_state.specs.Pairings.{nets_in};

use crate::Node;
use cell_num::{Finger, Fingers, List, NetNo, NoMemory};
use std::alloc::{AllocError, Global};
use std::cmp::Ordering;

/// How many of the fingers are on the gate.
pub fn count_on(fingers: &[Finger], gate: u32) -> usize
    ensures { result ≡ on_gate gate fingers.now }
{
    fingers
        .iter()
        .filter(|finger| finger.gate.0 == gate)
        .count()
}

fn ends_at(net: u32, finger: &Finger) -> bool
    ensures { result ≡ has_net net finger.now }
{
    finger.lo.0 == net || finger.hi.0 == net
}

fn is_end(fingers: &[Finger], net: u32) -> bool
    ensures { result ≡ is_end_in fingers.now net }
{
    fingers.iter().any(|finger| ends_at(net, finger))
}

fn is_net_in(fingers: &[Finger], net: u32) -> bool
    ensures { result ≡ is_net_in fingers.now net }
{
    if fingers.is_empty() {
        net == 0
    } else {
        is_end(fingers, net)
    }
}

/// The fingers of a list that are on the gate.
pub fn on_gate(alloc: Global, gate: u32, fingers: &[Finger]) -> Result<Vec<Finger>, AllocError>
    ensures { IfOk result (λ on. on.items ≡ filter (is_on gate) fingers.now) }
{
    fingers
        .iter()
        .copied()
        .filter(|finger| finger.gate.0 == gate)
        .collect(alloc)
}

fn end_nets(alloc: Global, fingers: &[Finger], nets: u32) -> Result<Vec<u32>, AllocError>
    ensures { IfOk result (λ all. all.items ≡ filter (is_end_in fingers.now) (range_with_len 0 nets)) }
{
    (0..nets).filter(|net| is_end(fingers, *net)).collect(alloc)
}

#[tactic(auto, using(crate::proofs::Ends::nets_on_same))]
fn nets_on(alloc: Global, fingers: &[Finger], gate: u32, nets: u32) -> Result<Vec<u32>, AllocError>
    ensures { IfOk result (λ all. all.items ≡ filter (is_net_on fingers.now gate) (range_with_len 0 nets)) }
{
    let on = on_gate(alloc, gate, fingers)?;
    let nets = end_nets(alloc, on.as_slice(), nets)?;
    Ok(nets)
}

/// The nets that fill empty places of a row.
pub(crate) fn nets_in(alloc: Global, fingers: &[Finger], nets: u32) -> Result<Vec<u32>, AllocError>
    ensures { IfOk result (λ all. all.items ≡ nets_in fingers.now nets) }
{
    (0..nets)
        .filter(|net| is_net_in(fingers, *net))
        .collect(alloc)
}

// The nets that the row's places of columns of the gate can have at their ends.
fn nets_of(
    alloc: Global,
    mine: &[Finger],
    other: &[Finger],
    gate: u32,
    nets: u32,
) -> Result<Vec<u32>, AllocError>
    ensures { IfOk result (λ all. all.items ≡ filter (may_have mine.now other.now gate) (range_with_len 0 nets)) }
{
    if count_on(mine, gate) < count_on(other, gate) {
        nets_in(alloc, mine, nets)
    } else {
        nets_on(alloc, mine, gate, nets)
    }
}

fn add_pairs(nodes: &mut Vec<Node>, p_net: u32, n_nets: &[u32]) -> Result<(), AllocError>
    requires p_net { p_net < 256 }
    requires n_nets { All (λ net. net < 256) n_nets.now }
    ensures { OnOk result (nodes.new.items ≡ nodes.old.items ++ map (λ n. node_at (pair_node p_net n)) n_nets.now) }
{
    for n_net in n_nets {
        nodes.push(Node(256 * p_net + *n_net))?;
    }
    Ok(())
}

fn pairs(alloc: Global, p_nets: &[u32], n_nets: &[u32]) -> Result<Vec<Node>, AllocError>
    requires p_nets { All (λ net. net < 256) p_nets.now }
    requires n_nets { All (λ net. net < 256) n_nets.now }
    ensures { IfOk result (λ nodes. nodes.items
        ≡ flat_map (λ p. map (λ n. node_at (pair_node p n)) n_nets.now) p_nets.now) }
{
    let mut nodes = Vec::new(alloc);
    for p_net in p_nets {
        add_pairs(&mut nodes, *p_net, n_nets)?;
    }
    Ok(nodes)
}

#[tactic(auto, using(crate::proofs::Blocks::node_pairs, crate::proofs::Small::may_small))]
fn nodes_of(alloc: Global, fingers: &Fingers, gate: u32) -> Result<Vec<Node>, AllocError>
    requires { AreFingers fingers.now }
    ensures { IfOk result (λ nodes. nodes.items ≡ nodes_of fingers.now gate) }
{
    let (p, n) = (fingers.p.as_slice(), fingers.n.as_slice());
    let p_nets = nets_of(alloc, p, n, gate, fingers.nets)?;
    let n_nets = nets_of(alloc, n, p, gate, fingers.nets)?;
    let nodes = pairs(alloc, p_nets.as_slice(), n_nets.as_slice())?;
    Ok(nodes)
}

/// Two ascending lists of nodes in one, each node once.
pub fn merge(alloc: Global, a: &[Node], b: &[Node]) -> Result<Vec<Node>, AllocError>
    ensures { IfOk result (λ all. all.items ≡ sorted_merge node_cmp true a.now b.now) }
{
    let mut all = Vec::new(alloc);
    let (mut xs, mut ys) = (a, b);
    while let (Some((x, xs_behind)), Some((y, ys_behind))) = (xs.split_first(), ys.split_first()) {
        match x.0.cmp(&y.0) {
            Ordering::Less => {
                all.push(*x)?;
                xs = xs_behind;
            }
            Ordering::Equal => {
                all.push(*x)?;
                xs = xs_behind;
                ys = ys_behind;
            }
            Ordering::Greater => {
                all.push(*y)?;
                ys = ys_behind;
            }
        }
    }
    all.extend_from_slice(xs)?;
    all.extend_from_slice(ys)?;
    Ok(all)
}

/// The nodes of a gate and these, in ascending order as they are.
pub(crate) fn with_gate(
    alloc: Global,
    fingers: &Fingers,
    gate: NetNo,
    others: &[Node],
) -> Result<List<Node>, NoMemory>
    requires { AreFingers fingers.now }
    ensures { IfOk result (λ nodes. nodes ≡ sorted_merge node_cmp true (nodes_of fingers.now gate.0) others.now) }
{
    let nodes = nodes_of(alloc, fingers, gate.0)?;
    Ok(List::from_vec(merge(alloc, nodes.as_slice(), others)?))
}

/// The nodes that columns of some of the gates can have at their ends, in ascending order.
#[tactic(auto, using(crate::proofs::Unions::no_gates))]
pub fn open_nodes(alloc: Global, fingers: &Fingers, gates: &[NetNo]) -> Result<List<Node>, NoMemory>
    requires { AreFingers fingers.now }
    ensures { IfOk result (λ nodes. nodes ≡ open_nodes fingers.now gates.now) }
{
    let mut nodes = List::new(alloc);
    for gate in gates {
        nodes = with_gate(alloc, fingers, *gate, nodes.as_slice())?;
    }
    Ok(nodes)
}
