ghost use Rattle.std.specs.Prelude.{◌≡◌, ◌≢◌, ◌≤◌, ℕ, true, IfOk, OnOk, map};
ghost use Rattle.std.specs.BTreeSet.{contains};
ghost use Rattle.std.specs.List.{filter, range_with_len};
ghost use Rattle.std.specs.Ordering.{nat_cmp};
ghost use Rattle.cell_num.specs.Fingers.{AreFingers};
ghost use Rattle.trail_state.specs.Places.{node_at};
ghost use Rattle.open_gates.specs.Leveled.{nodes_in};
ghost use Rattle.open_gates.specs.Listed.{is_listed, nets_merged};
ghost use Rattle.open_gates.specs.Merged.{is_merged_from, merged_nodes};

use crate::OpenGates;
use crate::merge::merged;
use cell_num::{Fingers, List, NetNo, NoMemory, Row};
use std::alloc::{AllocError, Global};
use std::collections::BTreeSet;
use trail_state::{Node, open_nodes};

fn add(all: &mut BTreeSet<u32>, node: u32) -> Result<(), NoMemory>
    ensures node { OnOk result (contains nat_cmp all.new node ≡ true) }
    ensures others { OnOk result ((v : ℕ) → v ≢ node → contains nat_cmp all.new v ≡ contains nat_cmp all.old v) }
{
    match all.insert(node) {
        Ok(_) => Ok(()),
        Err(_) => Err(NoMemory),
    }
}

fn merged_set(
    alloc: Global,
    row: Row,
    nets: &[u32],
    nodes: &[Node],
) -> Result<BTreeSet<u32>, NoMemory>
    ensures { IfOk result (λ all. (v : ℕ) → contains nat_cmp all v
        ≡ is_merged_from row (is_listed nets.now) nodes.now v) }
{
    let mut all = BTreeSet::new(alloc);
    for node in nodes {
        add(&mut all, merged(row, nets, node.0))?;
    }
    Ok(all)
}

fn nodes_of(alloc: Global, most: u32, all: &BTreeSet<u32>) -> Result<Vec<Node>, AllocError>
    ensures { IfOk result (λ nodes. nodes.items
        ≡ map node_at (filter (contains nat_cmp all.now) (range_with_len 0 most))) }
{
    (0..most)
        .filter(|node| all.contains(node))
        .map(Node)
        .collect(alloc)
}

#[tactic(auto, using(crate::proofs::Listing::set_nodes))]
fn merged_nodes(
    alloc: Global,
    row: Row,
    nets: &[u32],
    most: u32,
    nodes: &[Node],
) -> Result<Vec<Node>, NoMemory>
    ensures { IfOk result (λ all. all.items ≡ merged_nodes row (is_listed nets.now) most nodes.now) }
{
    let all = merged_set(alloc, row, nets, nodes)?;
    Ok(nodes_of(alloc, most, &all)?)
}

/// The nodes that columns of some of the gates can have at their ends, merged, in ascending order.
#[tactic(auto, using(crate::proofs::Listing::nodes_same))]
pub(crate) fn nodes_in(
    alloc: Global,
    fingers: &Fingers,
    opened: &OpenGates,
    nets: &[u32],
    gates: &[NetNo],
) -> Result<List<Node>, NoMemory>
    requires fingers { AreFingers fingers.now }
    requires nets { nets.now ≡ nets_merged fingers.now opened.now }
    ensures { IfOk result (λ nodes. nodes ≡ nodes_in fingers.now opened.now gates.now) }
{
    let nodes = open_nodes(alloc, fingers, gates)?;
    let all = merged_nodes(
        alloc,
        opened.row,
        nets,
        256 * fingers.nets,
        nodes.as_slice(),
    )?;
    Ok(List::from_vec(all))
}
