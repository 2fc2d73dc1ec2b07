ghost use Rattle.std.specs.Prelude.{◌≡◌, ◌≤◌, ◌++◌, IfOk, OnOk, map};
ghost use Rattle.trail_state.specs.Places.{node_at};
ghost use Rattle.trail_halves.specs.Halves.{edge_placed, half_placed, links, place_of};
ghost use Rattle.trail_pools.specs.Leveled.{has_pool};

use crate::pools::Pools;
use open_gates::merge::net_in;
use std::alloc::{AllocError, Global};
use trail_state::edge::FingerEnds;
use trail_state::{Edge, Node};

// The node's pool, or the node.
#[tactic(auto, using(crate::proofs::Linked::net_small))]
fn place(pools: &Pools, node: Node) -> Node
    requires { pools.now.nodes ≤ 65536 }
    ensures { result ≡ node_at (place_of pools.now.nodes pools.now.row (has_pool pools.now) node.0) }
{
    let net = net_in(pools.row, node.0);
    if pools.has(net) {
        Node(pools.nodes + net)
    } else {
        node
    }
}

fn edge_link(pools: &Pools, edge: &Edge) -> Edge
    requires { pools.now.nodes ≤ 65536 }
    ensures { result ≡ edge_placed pools.now.nodes pools.now.row (has_pool pools.now) edge.now }
{
    Edge {
        a: place(pools, edge.a),
        b: place(pools, edge.b),
    }
}

fn half_link(nodes: u32, half: &FingerEnds) -> Edge
    requires { nodes ≤ 65536 }
    ensures { result ≡ half_placed nodes half.now }
{
    Edge {
        a: Node(nodes + u32::from(half.lo)),
        b: Node(nodes + u32::from(half.hi)),
    }
}

fn add_edges(all: &mut Vec<Edge>, pools: &Pools, edges: &[Edge]) -> Result<(), AllocError>
    requires { pools.now.nodes ≤ 65536 }
    ensures { OnOk result (all.new.items ≡ all.old.items
        ++ map (edge_placed pools.now.nodes pools.now.row (has_pool pools.now)) edges.now) }
{
    for edge in edges {
        all.push(edge_link(pools, edge))?;
    }
    Ok(())
}

fn add_halves(all: &mut Vec<Edge>, nodes: u32, halves: &[FingerEnds]) -> Result<(), AllocError>
    requires { nodes ≤ 65536 }
    ensures { OnOk result (all.new.items ≡ all.old.items ++ map (half_placed nodes) halves.now) }
{
    for half in halves {
        all.push(half_link(nodes, half))?;
    }
    Ok(())
}

/// Edges and half edges, as edges between places.
pub(crate) fn links(
    alloc: Global,
    pools: &Pools,
    edges: &[Edge],
    halves: &[FingerEnds],
) -> Result<Vec<Edge>, AllocError>
    requires { pools.now.nodes ≤ 65536 }
    ensures { IfOk result (λ all. all.items
        ≡ links pools.now.nodes pools.now.row (has_pool pools.now) edges.now halves.now) }
{
    let mut all = Vec::new(alloc);
    add_edges(&mut all, pools, edges)?;
    add_halves(&mut all, pools.nodes, halves)?;
    Ok(all)
}
