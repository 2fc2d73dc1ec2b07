ghost use Rattle.std.specs.Prelude.{◌≡◌, ◌<◌, ◌+◌, ◌==◌, IfOk, count_by, find, option_map};
ghost use Rattle.std.specs.List.{filter, filter_map};
ghost use Rattle.open_gates.specs.Merged.{net_in};
ghost use Rattle.trail_check.specs.Listed.{is_listed, number_of};
ghost use Rattle.trail_state.specs.declared.edge.Node.{Node as NodeOf};
ghost use Rattle.pool_log.specs.declared.class.PlaceClass.{PlaceClass as ClassOf};
ghost use Rattle.pool_lines.specs.Listed.{has_number, is_in, is_odd_place, is_odd_pool, is_row, name_of, place_listed};
ghost use Rattle.pool_lines.specs.Listed.{places_listed};

use crate::balances::balance_listed;
use cell_num::Row;
use open_gates::merge::net_in;
use pool_log::{ListedPlace, PlaceClass, PoolLine};
use std::alloc::{AllocError, Global};
use trail_log::NetPair;
use trail_pools::{Balance, Pools};
use trail_state::{Node, Place};

fn wide(net: u32) -> u64
    ensures is { result ≡ net }
    ensures few { result < 4294967296 }
{
    u64::from(net)
}

fn number(pair: &NetPair) -> u64
    ensures { result ≡ number_of pair.now }
{
    wide(pair.p.0) * 256 + wide(pair.n.0)
}

fn is_odd(odd: &[NetPair], node: &Node) -> bool
    ensures { result ≡ is_listed odd.now node.now }
{
    odd.iter().any(|pair| number(pair) == wide(node.0))
}

/// The open nodes of pools that a line lists as odd.
pub(crate) fn odd_nodes(
    alloc: Global,
    nodes: &[Node],
    odd: &[NetPair],
) -> Result<Vec<Node>, AllocError>
    ensures { IfOk result (λ all. all.items ≡ filter (is_listed odd.now) nodes.now) }
{
    nodes
        .iter()
        .copied()
        .filter(|node| is_odd(odd, node))
        .collect(alloc)
}

fn is_row(one: Row, other: Row) -> bool
    ensures { result ≡ is_row one other }
{
    match (one, other) {
        (Row::P, Row::P) | (Row::N, Row::N) => true,
        _ => false,
    }
}

fn has_number(pools: &Pools, node: u32, place: &ListedPlace) -> bool
    ensures { result ≡ has_number pools.now.nodes pools.now.row node place.now }
{
    match place {
        ListedPlace::Node(pair) => number(pair) == wide(node),
        ListedPlace::Pool { row, net } => {
            is_row(pools.row, *row) && wide(pools.nodes) + wide(net.0) == wide(node)
        }
    }
}

fn is_in(pools: &Pools, places: &[ListedPlace], node: &Node) -> bool
    ensures { result ≡ is_in pools.now.nodes pools.now.row places.now node.now }
{
    places.iter().any(|place| has_number(pools, node.0, place))
}

fn first(pools: &Pools, all: &[Node], places: &[ListedPlace]) -> Option<Node>
    ensures { result ≡ find (is_in pools.now.nodes pools.now.row places.now) all.now }
{
    all.iter()
        .copied()
        .find(|other| is_in(pools, places, other))
}

fn name(pools: &Pools, all: &[Node], places: &[ListedPlace], node: &Node) -> Node
    ensures { result ≡ name_of pools.now.nodes pools.now.row all.now places.now node.now }
{
    first(pools, all, places).unwrap_or(*node)
}

fn class_of<'a>(pools: &Pools, classes: &'a [PlaceClass], node: &Node) -> Option<&'a PlaceClass>
    ensures { option_map (λ class. class.now) result ≡
        find (λ (class : ClassOf). is_in pools.now.nodes pools.now.row class.places node.now) classes.now }
{
    classes
        .iter()
        .find(|class| is_in(pools, class.places.as_slice(), node))
}

fn count_of(row: Row, odd: &[Node], net: u32) -> usize
    ensures { result ≡ count_by (λ (v : NodeOf). net_in row v.0 == net) odd.now }
{
    odd.iter().filter(|node| net_in(row, node.0) == net).count()
}

fn is_odd_pool(row: Row, odd: &[Node], balance: &Balance, net: u32) -> bool
    ensures { result ≡ is_odd_pool row odd.now balance.now net }
{
    let nodes = count_of(row, odd, net) as u128;
    (nodes + u128::from(balance.waiting) + u128::from(balance.free)) % 2 == 1
}

fn is_odd_place(pools: &Pools, odd: &[Node], line: &PoolLine, node: &Node) -> bool
    ensures { result ≡ is_odd_place pools.now.nodes pools.now.row odd.now line.now node.now }
{
    if node.0 < pools.nodes {
        return is_odd(line.odd.as_slice(), node);
    }
    let net = node.0 - pools.nodes;
    let balance = balance_listed(line.balances.as_slice(), net);
    is_odd_pool(pools.row, odd, &balance, net)
}

fn place(
    pools: &Pools,
    places: &[Node],
    odd: &[Node],
    line: &PoolLine,
    node: &Node,
) -> Option<Place>
    ensures { result ≡ place_listed pools.now.nodes pools.now.row places.now odd.now line.now node.now }
{
    let Some(class) = class_of(pools, line.classes.as_slice(), node) else {
        return None;
    };
    Some(Place {
        node: *node,
        class: name(pools, places, class.places.as_slice(), node),
        odd: is_odd_place(pools, odd, line, node),
        flagged: class.flagged,
    })
}

/// The open places that a class of the line lists, where these nodes of pools are odd.
pub(crate) fn places_listed(
    alloc: Global,
    pools: &Pools,
    places: &[Node],
    odd: &[Node],
    line: &PoolLine,
) -> Result<Vec<Place>, AllocError>
    ensures { IfOk result (λ all. all.items
        ≡ places_listed pools.now.nodes pools.now.row places.now odd.now line.now) }
{
    places
        .iter()
        .filter_map(|node| place(pools, places, odd, line, node))
        .collect(alloc)
}
