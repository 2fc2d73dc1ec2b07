ghost use Rattle.std.specs.Prelude.{◌≡◌, ◌<◌, ◌^◌, IfOk, map};
ghost use Rattle.open_gates.specs.Listed.{is_listed};
ghost use Rattle.open_gates.specs.Merged.{in_order, merged, merged_choice, merged_edge, net_in, node_of};

use cell_num::{List, NoMemory, Row};
use std::alloc::{AllocError, Global};
use trail_state::{Choice, Edge, between, insert};

/// The node's net in the row.
pub fn net_in(row: Row, node: u32) -> u32
    ensures { result ≡ net_in row node }
{
    match row {
        Row::P => node / 256,
        Row::N => node % 256,
    }
}

/// All nodes that have the net in the row, as one.
pub(crate) fn node_of(row: Row, net: u32) -> u32
    requires { net < 2 ^ 24 }
    ensures { result ≡ node_of row net }
{
    match row {
        Row::P => 256 * net,
        Row::N => net,
    }
}

/// Whether the net is one of these.
pub fn is_listed(nets: &[u32], net: u32) -> bool
    ensures { result ≡ is_listed nets.now net }
{
    nets.iter().any(|other| *other == net)
}

/// The node, where those with one of these nets in the row are merged.
pub(crate) fn merged(row: Row, nets: &[u32], node: u32) -> u32
    ensures { result ≡ merged row (is_listed nets.now) node }
{
    let net = net_in(row, node);
    if is_listed(nets, net) {
        node_of(row, net)
    } else {
        node
    }
}

fn merged_edge(row: Row, nets: &[u32], edge: &Edge) -> Edge
    ensures { result ≡ merged_edge row (is_listed nets.now) edge.now }
{
    between(merged(row, nets, edge.a.0), merged(row, nets, edge.b.0))
}

/// The edges in ascending order.
pub(crate) fn in_order(alloc: Global, edges: &[Edge]) -> Result<Choice, NoMemory>
    ensures { IfOk result (λ choice. choice ≡ in_order edges.now) }
{
    let mut sorted = List::new(alloc);
    for edge in edges {
        sorted = insert(alloc, edge, sorted.as_slice())?;
    }
    Ok(sorted)
}

fn merged_edges(
    alloc: Global,
    row: Row,
    nets: &[u32],
    edges: &[Edge],
) -> Result<Vec<Edge>, AllocError>
    ensures { IfOk result (λ all. all.items ≡ map (merged_edge row (is_listed nets.now)) edges.now) }
{
    edges
        .iter()
        .map(|edge| merged_edge(row, nets, edge))
        .collect(alloc)
}

pub(crate) fn merged_choice(
    alloc: Global,
    row: Row,
    nets: &[u32],
    choice: &[Edge],
) -> Result<Choice, NoMemory>
    ensures { IfOk result (λ merged. merged ≡ merged_choice row (is_listed nets.now) choice.now) }
{
    let edges = merged_edges(alloc, row, nets, choice)?;
    in_order(alloc, edges.as_slice())
}
