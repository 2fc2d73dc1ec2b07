// The nodes that can be odd after the edges of a choice.
ghost use Rattle.std.specs.Prelude.{◌≡◌, IfOk};
ghost use Rattle.trail_pools.specs.Stepping.{candidates, with_below, with_ends_of};

use std::alloc::{AllocError, Global};
use trail_state::nodes::merge;
use trail_state::{Edge, Node};

// The node beside the others, where it is below `n`.
fn with_below(alloc: Global, n: u32, nodes: Vec<Node>, node: Node) -> Result<Vec<Node>, AllocError>
    ensures { IfOk result (λ all. all.items ≡ with_below n nodes.items node) }
{
    if node.0 < n {
        merge(alloc, nodes.as_slice(), &[node])
    } else {
        Ok(nodes)
    }
}

fn with_ends_of(
    alloc: Global,
    n: u32,
    nodes: Vec<Node>,
    edge: &Edge,
) -> Result<Vec<Node>, AllocError>
    ensures { IfOk result (λ all. all.items ≡ with_ends_of n nodes.items edge.now) }
{
    let nodes = with_below(alloc, n, nodes, edge.a)?;
    with_below(alloc, n, nodes, edge.b)
}

/// The nodes below `n` that were odd or are ends of edges, in ascending order. After these edges no other node is odd.
pub(crate) fn candidates(
    alloc: Global,
    n: u32,
    odd: &[Node],
    edges: &[Edge],
) -> Result<Vec<Node>, AllocError>
    ensures { IfOk result (λ all. all.items ≡ candidates n odd.now edges.now) }
{
    let mut all = Vec::new(alloc);
    for node in odd {
        all = with_below(alloc, n, all, *node)?;
    }
    for edge in edges {
        all = with_ends_of(alloc, n, all, edge)?;
    }
    Ok(all)
}
