ghost use Rattle.std.specs.Prelude.{◌≡◌, ◌≤◌, ◌<◌, ◌++◌, ◌||◌, All, IfOk, OnOk, not};
ghost use Rattle.std.specs.List.{filter, range_with_len};
ghost use Rattle.cell_num.specs.Fingers.{AreFingers};
ghost use Rattle.open_gates.specs.Merged.{net_in};
ghost use Rattle.open_gates.specs.Open.{is_left_open};
ghost use Rattle.trail_pools.specs.Leveled.{has_pool, open_places, pools_of};
ghost use Rattle.trail_pools.specs.Meeting.{any_ends_free};
ghost use Rattle.trail_pools.specs.NodesMet.{is_net_met, is_pool_met, nodes_met, pool_places};

use crate::level::OpenPlaces;
use crate::nodes::{any_ends_free, met_nodes};
use crate::pools::Pools;
use cell_num::{Fingers, List, NetNo, NoMemory, Row};
use open_gates::OpenGates;
use open_gates::merge::net_in;
use std::alloc::{AllocError, Global};
use trail_state::Node;

fn is_pooled(pools: &Pools, node: &Node) -> bool
    ensures { result ≡ has_pool pools.now (net_in pools.now.row node.now.0) }
{
    pools.has(net_in(pools.row, node.0))
}

fn pool_nodes(alloc: Global, pools: &Pools, met: &[Node]) -> Result<Vec<Node>, AllocError>
    ensures { IfOk result (λ all. all.items
        ≡ filter (λ v. has_pool pools.now (net_in pools.now.row v.0)) met.now) }
{
    met.iter()
        .copied()
        .filter(|node| is_pooled(pools, node))
        .collect(alloc)
}

fn other_nodes(alloc: Global, pools: &Pools, met: &[Node]) -> Result<Vec<Node>, AllocError>
    ensures { IfOk result (λ all. all.items
        ≡ filter (λ v. not (has_pool pools.now (net_in pools.now.row v.0))) met.now) }
{
    met.iter()
        .copied()
        .filter(|node| !is_pooled(pools, node))
        .collect(alloc)
}

fn is_net_met(row: Row, met: &[Node], net: u32) -> bool
    ensures { result ≡ is_net_met row met.now net }
{
    met.iter().any(|node| net_in(row, node.0) == net)
}

fn is_open(
    fingers: &Fingers,
    counted: &OpenGates,
    row: Row,
    met: &[Node],
    gates: &[NetNo],
    net: u32,
) -> bool
    ensures { result ≡ (is_net_met row met.now net
        || any_ends_free fingers.now counted.now.row (is_left_open counted.now) gates.now net) }
{
    is_net_met(row, met, net) || any_ends_free(fingers, counted, gates, net)
}

fn is_pool_met(
    fingers: &Fingers,
    counted: &OpenGates,
    pools: &Pools,
    met: &[Node],
    gates: &[NetNo],
    net: u32,
) -> bool
    ensures { result ≡ is_pool_met fingers.now counted.now pools.now met.now gates.now net }
{
    pools.has(net) && is_open(fingers, counted, pools.row, met, gates, net)
}

// The nets of the pools that some of the gates can meet.
#[tactic(auto, using(crate::proofs::OpenFrom::nets_below))]
fn pool_nets(
    alloc: Global,
    fingers: &Fingers,
    counted: &OpenGates,
    pools: &Pools,
    met: &[Node],
    gates: &[NetNo],
) -> Result<Vec<u32>, AllocError>
    ensures is { IfOk result (λ nets. nets.items
        ≡ filter (is_pool_met fingers.now counted.now pools.now met.now gates.now) (range_with_len 0 pools.now.nodes)) }
    ensures below { IfOk result (λ nets. All (λ net. net < pools.now.nodes) nets.items) }
{
    (0..pools.nodes)
        .filter(|net| is_pool_met(fingers, counted, pools, met, gates, *net))
        .collect(alloc)
}

// Puts pools behind the other places.
fn add_pools(places: &mut Vec<Node>, nodes: u32, nets: &[u32]) -> Result<(), AllocError>
    requires nodes { nodes ≤ 65536 }
    requires nets { All (λ net. net < nodes) nets.now }
    ensures { OnOk result (places.new.items ≡ places.old.items ++ pool_places nodes nets.now) }
{
    for net in nets {
        places.push(Node(nodes + *net))?;
    }
    Ok(())
}

/// All that some of the gates can meet, in ascending order.
pub(crate) fn open_places(
    alloc: Global,
    fingers: &Fingers,
    counted: &OpenGates,
    pools: &Pools,
    gates: &[NetNo],
) -> Result<OpenPlaces, NoMemory>
    requires fingers { AreFingers fingers.now }
    requires pools { pools.now ≡ pools_of fingers.now counted.now }
    ensures { IfOk result (λ all. all ≡ open_places fingers.now counted.now gates.now) }
{
    let met = met_nodes(alloc, fingers, counted, gates)?;
    let nets = pool_nets(alloc, fingers, counted, pools, met.as_slice(), gates)?;
    let nodes = pool_nodes(alloc, pools, met.as_slice())?;
    let mut places = other_nodes(alloc, pools, met.as_slice())?;
    add_pools(&mut places, pools.nodes, nets.as_slice())?;
    Ok(OpenPlaces {
        places: List::from_vec(places),
        nodes: List::from_vec(nodes),
    })
}
