ghost use Rattle.std.specs.Prelude.{◌≡◌, ◌≤◌, ◌<◌, ◌*◌, ◌^◌, true, IfOk, count_by, length, map, sum_by};
ghost use Rattle.std.specs.List.{list_all};
ghost use Rattle.trail_pools.specs.declared.closed.ClosedPlace.{ClosedPlace as Closed};
ghost use Rattle.trail_pools.specs.State.{is_small};
ghost use Rattle.trail_pools.specs.Stepping.{all_ends, closed_of, has_some, is_closed, next_balance, place_ends};
ghost use Rattle.trail_pools.specs.Stepping.{place_left};

use crate::balance::{next_balance, short};
use crate::state::Balance;
use cell_num::Row;
use std::alloc::{AllocError, Global};
use trail_state::edge::FingerEnds;
use trail_state::settle::{has_class_in, name};
use trail_state::{Node, Place};

/// A place that no later gate can meet, with the ends at it.
#[derive(Clone, Copy, Debug)]
pub struct ClosedPlace {
    pub place: Place,
    pub ends: u32,
}

fn place_ends(
    nodes: u32,
    row: Row,
    shut: &[u32],
    balances: &[Balance],
    halves: &[FingerEnds],
    place: &Place,
) -> u32
    requires shut { length shut.now ≤ 65536 }
    requires balances { list_all is_small balances.now ≡ true }
    requires halves { length halves.now ≤ 32 }
    ensures { result ≡ place_ends nodes (next_balance row shut.now balances.now halves.now) place.now }
{
    if place.node.0 < nodes {
        if place.odd { 1 } else { 0 }
    } else {
        let balance = next_balance(row, shut, balances, halves, place.node.0 - nodes);
        short(balance.waiting, balance.free)
    }
}

/// The places with the ends at each of them.
pub(crate) fn with_ends(
    alloc: Global,
    nodes: u32,
    row: Row,
    shut: &[u32],
    balances: &[Balance],
    halves: &[FingerEnds],
    closing: &[Place],
) -> Result<Vec<ClosedPlace>, AllocError>
    requires shut { length shut.now ≤ 65536 }
    requires balances { list_all is_small balances.now ≡ true }
    requires halves { length halves.now ≤ 32 }
    ensures { IfOk result (λ closed. closed.items
        ≡ closed_of (place_ends nodes (next_balance row shut.now balances.now halves.now)) closing.now) }
{
    let mut closed = Vec::new(alloc);
    for place in closing {
        let ends = place_ends(nodes, row, shut, balances, halves, place);
        closed.push(ClosedPlace {
            place: *place,
            ends,
        })?;
    }
    Ok(closed)
}

fn has_some(closed: &[ClosedPlace], class: &Node) -> bool
    ensures { result ≡ has_some closed.now class.now.0 }
{
    closed
        .iter()
        .any(|other| other.place.class == *class && other.ends != 0)
}

fn is_closed(kept: &[Place], closed: &[ClosedPlace], place: &Place) -> bool
    ensures { result ≡ is_closed kept.now closed.now place.now }
{
    place.node == place.class
        && !place.flagged
        && !has_class_in(kept, &place.class)
        && !has_some(closed, &place.class)
}

fn count_closed(kept: &[Place], closed: &[ClosedPlace]) -> usize
    ensures { result ≡ count_by (λ (c : Closed). is_closed kept.now closed.now c.place) closed.now }
{
    closed
        .iter()
        .filter(|other| is_closed(kept, closed, &other.place))
        .count()
}

fn wide(ends: u32) -> u64
    ensures is { result ≡ ends }
    ensures few { result < 2 ^ 32 }
{
    u64::from(ends)
}

fn sum_ends(closed: &[ClosedPlace]) -> u64
    requires { length closed.now ≤ 131072 }
    ensures is { result ≡ sum_by (λ (c : Closed). c.ends) closed.now }
    ensures few { result ≤ 131072 * 2 ^ 32 }
{
    let mut total = 0;
    for other in closed {
        total += wide(other.ends);
    }
    total
}

/// The ends at places that close, and two of each closed trail.
#[tactic(auto, using(crate::proofs::Stepped::few_closed))]
pub(crate) fn all_ends(kept: &[Place], closed: &[ClosedPlace]) -> u64
    requires { length closed.now ≤ 131072 }
    ensures { result ≡ all_ends kept.now closed.now }
{
    let ends = sum_ends(closed);
    let trails = count_closed(kept, closed);
    ends + 2 * trails as u64
}

fn leave(kept: &[Place], closed: &[ClosedPlace], place: &Place) -> Place
    ensures { result ≡ place_left kept.now closed.now place.now }
{
    Place {
        node: place.node,
        class: name(kept, place),
        odd: place.odd,
        flagged: place.flagged || has_some(closed, &place.class),
    }
}

/// The places that stay, named by those that stay.
pub(crate) fn leave_all(
    alloc: Global,
    kept: &[Place],
    closed: &[ClosedPlace],
) -> Result<Vec<Place>, AllocError>
    ensures { IfOk result (λ all. all.items ≡ map (place_left kept.now closed.now) kept.now) }
{
    kept.iter()
        .map(|place| leave(kept, closed, place))
        .collect(alloc)
}
