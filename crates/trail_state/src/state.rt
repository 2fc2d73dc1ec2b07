ghost use Rattle.std.specs.Prelude.{◌≡◌, IfOk, fold};
ghost use Rattle.std.specs.List.{list_any};
ghost use Rattle.std.specs.Option.{option_copied};
ghost use Rattle.trail_state.specs.Places.{new_place, place_of, place_or_new, is_met, met_place, met_places, is_joined};
ghost use Rattle.trail_state.specs.Places.{differ, joined_place, with_edge, with_edges};

use crate::{Edge, Node};
use cell_num::{List, NoMemory};
use std::alloc::{AllocError, Global};

/// A node that the edges so far meet, and that an edge of a later gate can meet.
#[derive(Clone, Copy, Debug, PartialEq, Eq)]
pub struct Place {
    pub node: Node,
    /// The least such node of its class, the nodes that edges chain with it.
    pub class: Node,
    /// Whether an odd number of ends meet it.
    pub odd: bool,
    /// Whether a trail has to end in its class at a node that no later gate can meet.
    pub flagged: bool,
}

/// The state after the first gates of an order: places in ascending order of their nodes.
pub type TrailState = List<Place>;

fn find(places: &[Place], node: Node) -> Option<&Place>
    ensures { option_copied result ≡ place_of places.now node.0 }
{
    places.iter().find(|place| place.node == node)
}

fn new_at(node: Node) -> Place
    ensures { result ≡ new_place node.0 }
{
    Place {
        node: Node(node.0),
        class: Node(node.0),
        odd: false,
        flagged: false,
    }
}

fn find_or_new(places: &[Place], node: Node) -> Place
    ensures { result ≡ place_or_new places.now node.0 }
{
    match find(places, node) {
        Some(place) => *place,
        None => new_at(node),
    }
}

fn meets(edges: &[Edge], node: Node) -> bool
    ensures { result ≡ is_met edges.now node.0 }
{
    edges.iter().any(|edge| edge.has_end(&node))
}

fn met(places: &[Place], edges: &[Edge], node: Node) -> Option<Place>
    ensures { result ≡ met_place places.now edges.now node.0 }
{
    match find(places, node) {
        Some(place) => Some(*place),
        None => {
            if meets(edges, node) {
                Some(new_at(node))
            } else {
                None
            }
        }
    }
}

// The nodes of the state and of the edges, before the edges join their classes.
fn met_all(
    alloc: Global,
    nodes: &[Node],
    places: &[Place],
    edges: &[Edge],
) -> Result<Vec<Place>, AllocError>
    ensures { IfOk result (λ all. all.items ≡ met_places nodes.now places.now edges.now) }
{
    nodes
        .iter()
        .filter_map(|node| met(places, edges, *node))
        .collect(alloc)
}

fn joins(a: &Place, b: &Place, place: &Place) -> bool
    ensures { result ≡ is_joined a.now b.now place.now }
{
    place.class == a.class || place.class == b.class
}

fn join(a: &Place, b: &Place, place: &Place) -> Place
    ensures { result ≡ joined_place a.now b.now place.now }
{
    let joined = joins(a, b, place);
    Place {
        node: place.node,
        class: if joined {
            Node(a.class.0.min(b.class.0))
        } else {
            place.class
        },
        odd: place.odd != ((place.node == a.node) != (place.node == b.node)),
        flagged: if joined {
            a.flagged || b.flagged
        } else {
            place.flagged
        },
    }
}

fn add(alloc: Global, places: &[Place], edge: &Edge) -> Result<Vec<Place>, AllocError>
    ensures { IfOk result (λ all. all.items ≡ with_edge places.now edge.now) }
{
    let a = find_or_new(places, edge.a);
    let b = find_or_new(places, edge.b);
    places
        .iter()
        .map(|place| join(&a, &b, place))
        .collect(alloc)
}

/// The places of the state and of the edges at these nodes, once the edges have joined their classes.
pub fn add_all(
    alloc: Global,
    nodes: &[Node],
    places: &[Place],
    edges: &[Edge],
) -> Result<Vec<Place>, NoMemory>
    ensures { IfOk result (λ all. all.items ≡ with_edges nodes.now places.now edges.now) }
{
    let mut all = met_all(alloc, nodes, places, edges)?;
    for edge in edges {
        all = add(alloc, all.as_slice(), edge)?;
    }
    Ok(all)
}
