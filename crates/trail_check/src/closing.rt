// Ends of trails that a choice makes certain, counted before the state after it is known. Most choices of a gate with
// half columns have too many of them, so a search and a check need no more.
ghost use Rattle.std.specs.Prelude.{◌≡◌, IfOk, map, not};
ghost use Rattle.std.specs.List.{filter};
ghost use Rattle.std.specs.Option.{option_copied};
ghost use Rattle.trail_state.specs.Places.{place_of};
ghost use Rattle.trail_state.specs.Settling.{is_open};
ghost use Rattle.trail_check.specs.Closing.{closing_at, closing_nodes, is_odd_after, is_odd_at, odd_ends, turned};

use cell_num::{List, NoMemory};
use std::alloc::{AllocError, Global};
use trail_state::{Choice, Edge, Level, Node, Place, TrailState};

/// A node that no gate after the next one can meet, and whether an odd number of ends meet it before that gate.
#[derive(Clone, Copy, Debug, PartialEq, Eq)]
pub struct ClosingNode {
    pub node: Node,
    pub odd: bool,
}

/// The nodes that close with a gate.
pub type ClosingNodes = List<ClosingNode>;

fn is_in(nodes: &[Node], node: &Node) -> bool
    ensures { result ≡ is_open nodes.now node.now.0 }
{
    nodes.iter().any(|other| *other == *node)
}

fn find(places: &[Place], node: Node) -> Option<&Place>
    ensures { option_copied result ≡ place_of places.now node.0 }
{
    places.iter().find(|place| place.node == node)
}

fn is_odd_at(places: &[Place], node: Node) -> bool
    ensures { result ≡ is_odd_at places.now node.0 }
{
    match find(places, node) {
        Some(place) => place.odd,
        None => false,
    }
}

fn closing_at(places: &[Place], node: &Node) -> ClosingNode
    ensures { result ≡ closing_at places.now node.now }
{
    ClosingNode {
        node: *node,
        odd: is_odd_at(places, *node),
    }
}

fn closing(
    alloc: Global,
    nodes: &[Node],
    next: &[Node],
    places: &[Place],
) -> Result<Vec<ClosingNode>, AllocError>
    ensures { IfOk result (λ all. all.items ≡
        map (closing_at places.now) (filter (λ v. not (is_open next.now v.0)) nodes.now)) }
{
    nodes
        .iter()
        .filter(|node| !is_in(next, node))
        .map(|node| closing_at(places, node))
        .collect(alloc)
}

/// The nodes of the level that no later gate can meet, in ascending order, as the state before the level's gate has
/// them.
pub fn closing_nodes(
    alloc: Global,
    level: &Level,
    state: &TrailState,
) -> Result<ClosingNodes, NoMemory>
    ensures { IfOk result (λ all. all ≡ closing_nodes level.entry.now state.now) }
{
    let (nodes, next) = (level.now.as_slice(), level.next.as_slice());
    let all = closing(alloc, nodes, next, state.as_slice())?;
    Ok(List::from_vec(all))
}

fn turn(odd: bool, node: Node, edge: &Edge) -> bool
    ensures { result ≡ turned node.0 odd edge.now }
{
    odd != ((node == edge.a) != (node == edge.b))
}

/// Whether an odd number of ends meet the node after edges of the choice.
pub fn is_odd_after(closing: &ClosingNode, edges: &[Edge]) -> bool
    ensures { result ≡ is_odd_after edges.now closing.now }
{
    let mut odd = closing.odd;
    for edge in edges {
        odd = turn(odd, closing.node, edge);
    }
    odd
}

fn count_odd(closing: &[ClosingNode], edges: &[Edge]) -> usize
    ensures { result ≡ odd_ends closing.now edges.now }
{
    closing
        .iter()
        .filter(|node| is_odd_after(node, edges))
        .count()
}

/// How many of the nodes are met by an odd number of ends after the choice: each of them is an end of a trail.
pub fn odd_ends(closing: &ClosingNodes, choice: &Choice) -> usize
    ensures { result ≡ odd_ends closing.now choice.now }
{
    count_odd(closing.as_slice(), choice.as_slice())
}
