ghost use Rattle.std.specs.Prelude.{◌≡◌, ◌≤◌, true, All, IfOk, length, map, not};
ghost use Rattle.std.specs.List.{filter};
ghost use Rattle.trail_state.specs.declared.edge.Node.{Node as NodeOf};
ghost use Rattle.trail_state.specs.Places.{differ, node_at, with_edges};
ghost use Rattle.trail_state.specs.Settling.{closing_of, is_open};
ghost use Rattle.trail_check.specs.Graph.{is_odd};
ghost use Rattle.trail_halves.specs.Halves.{links};
ghost use Rattle.trail_pools.specs.Leveled.{has_pool};
ghost use Rattle.trail_pools.specs.State.{are_small, ends_after, state_after};
ghost use Rattle.trail_pools.specs.Stepping.{is_odd_pooled, odd_pooled, settled, shut_of};

use crate::balance::next_balances;
use crate::candidates::candidates;
use crate::closed::{all_ends, leave_all, with_ends};
use crate::level::{OpenPlaces, PoolLevel};
use crate::links::links;
use crate::pools::Pools;
use crate::state::PoolState;
use cell_num::{List, NoMemory};
use open_gates::merge::net_in;
use std::alloc::{AllocError, Global};
use trail_check::{ClosingNode, is_odd_after};
use trail_halves::OpenChoice;
use trail_state::settle::{close, is_in, keep};
use trail_state::state::add_all;
use trail_state::{Edge, Node, Place};

/// What a choice of a gate results in.
#[derive(Debug, PartialEq, Drop)]
pub struct PoolSettled {
    pub state: PoolState,
    /// How many ends of trails are certain now that were not before.
    pub ends: u64,
}

fn is_odd(odd: &[Node], edges: &[Edge], node: u32) -> bool
    ensures { result ≡ differ (is_open odd.now node) (is_odd edges.now node) }
{
    let before = ClosingNode {
        node: Node(node),
        odd: is_in(odd, &Node(node)),
    };
    is_odd_after(&before, edges)
}

fn is_odd_pooled(pools: &Pools, odd: &[Node], edges: &[Edge], node: u32) -> bool
    ensures { result ≡ is_odd_pooled pools.now.row (has_pool pools.now) odd.now edges.now node }
{
    pools.has(net_in(pools.row, node)) && is_odd(odd, edges, node)
}

// Those of the nodes that are odd after the edges, in pools.
fn odd_among(
    alloc: Global,
    pools: &Pools,
    odd: &[Node],
    edges: &[Edge],
    nodes: &[Node],
) -> Result<Vec<u32>, AllocError>
    ensures { IfOk result (λ all. all.items ≡ map (λ (w : NodeOf). w.0)
        (filter (λ (w : NodeOf). is_odd_pooled pools.now.row (has_pool pools.now) odd.now edges.now w.0) nodes.now)) }
{
    nodes
        .iter()
        .filter(|node| is_odd_pooled(pools, odd, edges, node.0))
        .map(|node| node.0)
        .collect(alloc)
}

// The nodes of pools that are odd after the edges. These are among those that were odd and the ends of the edges.
#[tactic(auto, using(crate::proofs::OddAmong::all_among))]
fn odd_pooled(
    alloc: Global,
    pools: &Pools,
    odd: &[Node],
    edges: &[Edge],
) -> Result<Vec<u32>, AllocError>
    ensures is { IfOk result (λ all. all.items
        ≡ odd_pooled pools.now.row (has_pool pools.now) odd.now edges.now pools.now.nodes) }
    ensures few { IfOk result (λ all. length all.items ≤ pools.now.nodes) }
{
    let nodes = candidates(alloc, pools.nodes, odd, edges)?;
    let pooled = odd_among(alloc, pools, odd, edges, nodes.as_slice())?;
    Ok(pooled)
}

#[tactic(auto, using(crate::proofs::Turned::few_left))]
fn shut_of(alloc: Global, next: &[Node], odd: &[u32]) -> Result<Vec<u32>, AllocError>
    ensures is { IfOk result (λ all. all.items ≡ shut_of next.now odd.now) }
    ensures few { IfOk result (λ all. length all.items ≤ length odd.now) }
{
    odd.iter()
        .copied()
        .filter(|node| !is_in(next, &Node(*node)))
        .collect(alloc)
}

fn open_of(alloc: Global, next: &[Node], odd: &[u32]) -> Result<Vec<Node>, AllocError>
    ensures { IfOk result (λ all. all.items ≡ map node_at (filter (is_open next.now) odd.now)) }
{
    odd.iter()
        .copied()
        .filter(|node| is_in(next, &Node(*node)))
        .map(Node)
        .collect(alloc)
}

// The places of the state with the choice's edges and half edges.
fn joined(
    alloc: Global,
    pools: &Pools,
    places: &[Node],
    state: &PoolState,
    choice: &OpenChoice,
) -> Result<Vec<Place>, NoMemory>
    requires { pools.now.nodes ≤ 65536 }
    ensures { IfOk result (λ all. all.items ≡ with_edges places.now state.now.places
        (links pools.now.nodes pools.now.row (has_pool pools.now) choice.now.edges choice.now.halves)) }
{
    let links = links(
        alloc,
        pools,
        choice.edges.as_slice(),
        choice.halves.as_slice(),
    )?;
    add_all(alloc, places, state.places.as_slice(), links.as_slice())
}

// The state after the choice, where these are the odd nodes of pools and all places, with the links of the choice.
fn settled(
    alloc: Global,
    pools: &Pools,
    next: &OpenPlaces,
    state: &PoolState,
    choice: &OpenChoice,
    odd: &[u32],
    joined: &[Place],
) -> Result<PoolSettled, NoMemory>
    requires odd { length odd.now ≤ 65536 }
    requires joined { length (closing_of next.now.places joined.now) ≤ 131072 }
    requires state { are_small state.now ≡ true }
    requires choice { length choice.now.halves ≤ 32 }
    ensures { IfOk result (λ r. r
        ≡ settled pools.now.nodes pools.now.row next.now state.now choice.now odd.now joined.now) }
{
    let (n, row) = (pools.nodes, pools.row);
    let (places, nodes) = (next.places.as_slice(), next.nodes.as_slice());
    let (balances, halves) = (state.balances.as_slice(), choice.halves.as_slice());
    let shut = shut_of(alloc, nodes, odd)?;
    let kept = keep(alloc, places, joined)?;
    let closing = close(alloc, places, joined)?;
    let closed = with_ends(
        alloc,
        n,
        row,
        shut.as_slice(),
        balances,
        halves,
        closing.as_slice(),
    )?;
    Ok(PoolSettled {
        state: PoolState {
            places: List::from_vec(leave_all(alloc, kept.as_slice(), closed.as_slice())?),
            odd: List::from_vec(open_of(alloc, nodes, odd)?),
            balances: List::from_vec(next_balances(
                alloc,
                n,
                row,
                shut.as_slice(),
                balances,
                halves,
                places,
            )?),
        },
        ends: all_ends(kept.as_slice(), closed.as_slice()),
    })
}

/// The state after a choice of the level's gate, and the ends that it makes certain. A level of `levels` has as few
/// places and half edges as asked, and `Pools::of` as few nodes. `PoolState::are_small` tells whether a state is small.
pub fn after(
    alloc: Global,
    pools: &Pools,
    level: &PoolLevel,
    state: &PoolState,
    choice: &OpenChoice,
) -> Result<PoolSettled, NoMemory>
    requires pools { pools.now.nodes ≤ 65536 }
    requires places { length level.now.now.places ≤ 131072 }
    requires state { are_small state.now ≡ true }
    requires choice { length choice.now.halves ≤ 32 }
    ensures state { IfOk result (λ r. r.state ≡ state_after pools.now.nodes pools.now.row (has_pool pools.now)
        level.entry.now.next state.now choice.now level.entry.now.now) }
    ensures ends { IfOk result (λ r. r.ends ≡ ends_after pools.now.nodes pools.now.row (has_pool pools.now)
        level.entry.now.next state.now choice.now level.entry.now.now) }
{
    let odd = odd_pooled(alloc, pools, state.odd.as_slice(), choice.edges.as_slice())?;
    let joined = joined(alloc, pools, level.now.places.as_slice(), state, choice)?;
    let next = settled(
        alloc,
        pools,
        &level.next,
        state,
        choice,
        odd.as_slice(),
        joined.as_slice(),
    )?;
    Ok(next)
}
