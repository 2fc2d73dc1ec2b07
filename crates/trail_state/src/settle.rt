ghost use Rattle.std.specs.Prelude.{◌≡◌, ◌≤◌, IfOk, count_by, length};
ghost use Rattle.trail_state.specs.Places.{with_edges};
ghost use Rattle.trail_state.specs.Settling.{is_open, has_class, has_odd, kept_of, closing_of, is_closed_trail};
ghost use Rattle.trail_state.specs.Settling.{ends_settled, name_in, left_place, places_left, state_after, ends_after};

use crate::state::add_all;
use crate::{Edge, Node, Place, TrailState};
use cell_num::{List, NoMemory};
use std::alloc::{AllocError, Global};

/// What a choice of a gate results in.
#[derive(Debug, PartialEq, Drop)]
pub struct Settled {
    pub state: TrailState,
    /// How many ends of trails are certain now that were not before.
    pub ends: u32,
}

/// Whether the node is one of these.
pub fn is_in(nodes: &[Node], node: &Node) -> bool
    ensures { result ≡ is_open nodes.now node.now.0 }
{
    nodes.iter().any(|other| *other == *node)
}

/// The places at these nodes, which later gates can meet.
pub fn keep(alloc: Global, nodes: &[Node], places: &[Place]) -> Result<Vec<Place>, AllocError>
    ensures { IfOk result (λ all. all.items ≡ kept_of nodes.now places.now) }
{
    places
        .iter()
        .copied()
        .filter(|place| is_in(nodes, &place.node))
        .collect(alloc)
}

/// The places at other nodes, which no later gate can meet.
pub fn close(alloc: Global, nodes: &[Node], places: &[Place]) -> Result<Vec<Place>, AllocError>
    ensures { IfOk result (λ all. all.items ≡ closing_of nodes.now places.now) }
{
    places
        .iter()
        .copied()
        .filter(|place| !is_in(nodes, &place.node))
        .collect(alloc)
}

/// Whether one of the places is of the class.
pub fn has_class_in(places: &[Place], class: &Node) -> bool
    ensures { result ≡ has_class places.now class.now.0 }
{
    places.iter().any(|place| place.class == *class)
}

fn has_odd_in(places: &[Place], class: &Node) -> bool
    ensures { result ≡ has_odd places.now class.now.0 }
{
    places
        .iter()
        .any(|place| place.class == *class && place.odd)
}

fn is_closed(kept: &[Place], closing: &[Place], place: &Place) -> bool
    ensures { result ≡ is_closed_trail kept.now closing.now place.now }
{
    place.node == place.class
        && !place.flagged
        && !has_class_in(kept, &place.class)
        && !has_odd_in(closing, &place.class)
}

fn count_odd(closing: &[Place]) -> usize
    ensures { result ≡ count_by (λ p. p.odd) closing.now }
{
    closing.iter().filter(|place| place.odd).count()
}

fn count_closed(kept: &[Place], closing: &[Place]) -> usize
    ensures { result ≡ count_by (is_closed_trail kept.now closing.now) closing.now }
{
    closing
        .iter()
        .filter(|place| is_closed(kept, closing, place))
        .count()
}

#[tactic(auto, using(crate::proofs::Few::odd_few, crate::proofs::Few::closed_few))]
fn count_ends(kept: &[Place], closing: &[Place]) -> u32
    requires few { length closing.now ≤ 65536 }
    ensures { result ≡ ends_settled kept.now closing.now }
{
    let odd = count_odd(closing);
    let closed = count_closed(kept, closing);
    (odd + 2 * closed) as u32
}

/// The first of these places that is of the place's class names the class.
pub fn name(kept: &[Place], place: &Place) -> Node
    ensures { result ≡ name_in kept.now place.now }
{
    kept.iter()
        .find(|other| other.class == place.class)
        .map(|other| other.node)
        .unwrap_or(place.class)
}

fn leave(kept: &[Place], closing: &[Place], place: &Place) -> Place
    ensures { result ≡ left_place kept.now closing.now place.now }
{
    Place {
        node: place.node,
        class: name(kept, place),
        odd: place.odd,
        flagged: place.flagged || has_odd_in(closing, &place.class),
    }
}

fn leave_all(alloc: Global, kept: &[Place], closing: &[Place]) -> Result<Vec<Place>, AllocError>
    ensures { IfOk result (λ all. all.items ≡ places_left kept.now closing.now) }
{
    kept.iter()
        .map(|place| leave(kept, closing, place))
        .collect(alloc)
}

/// The state after a choice of a gate: `nodes` are the nodes that this gate and later ones can meet,
/// `next` those that later gates can, both in ascending order.
pub fn after(
    alloc: Global,
    nodes: &[Node],
    next: &[Node],
    state: &TrailState,
    choice: &[Edge],
) -> Result<Settled, NoMemory>
    requires { length nodes.now ≤ 65536 }
    ensures state { IfOk result (λ r. r.state ≡ state_after nodes.now next.now state.now choice.now) }
    ensures ends { IfOk result (λ r. r.ends ≡ ends_after nodes.now next.now state.now choice.now) }
{
    let places = add_all(alloc, nodes, state.as_slice(), choice)?;
    let kept = keep(alloc, next, places.as_slice())?;
    let closing = close(alloc, next, places.as_slice())?;
    let ends = count_ends(kept.as_slice(), closing.as_slice());
    Ok(Settled {
        state: List::from_vec(leave_all(alloc, kept.as_slice(), closing.as_slice())?),
        ends,
    })
}
