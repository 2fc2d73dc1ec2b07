ghost use Rattle.std.specs.Prelude.{◌≡◌, IfOk, slice_get};
ghost use Rattle.pool_lines.specs.Listed.{balances_listed, open_at, state_listed, state_of};

use crate::balances::all_balances;
use crate::places::{odd_nodes, places_listed};
use cell_num::{List, NoMemory};
use pool_log::PoolLine;
use std::alloc::{AllocError, Global};
use trail_pools::{Balance, PoolLevel, PoolState, Pools};
use trail_state::Node;

// Before the first gate there are none.
fn balances(
    alloc: Global,
    nodes: u32,
    places: &[Node],
    line: &PoolLine,
) -> Result<Vec<Balance>, AllocError>
    ensures { IfOk result (λ all. all.items ≡ balances_listed nodes places.now line.now) }
{
    if line.done == 0 {
        return Ok(Vec::new(alloc));
    }
    all_balances(alloc, nodes, places, line.balances.as_slice())
}

fn state_of(
    alloc: Global,
    pools: &Pools,
    places: &[Node],
    nodes: &[Node],
    line: &PoolLine,
) -> Result<PoolState, NoMemory>
    ensures { IfOk result (λ state. state ≡ state_of pools.now.nodes pools.now.row places.now nodes.now line.now) }
{
    let odd = odd_nodes(alloc, nodes, line.odd.as_slice())?;
    let listed = places_listed(alloc, pools, places, odd.as_slice(), line)?;
    let balances = balances(alloc, pools.nodes, places, line)?;
    Ok(PoolState {
        places: List::from_vec(listed),
        odd: List::from_vec(odd),
        balances: List::from_vec(balances),
    })
}

fn places_at(levels: &[PoolLevel], done: u32) -> &[Node]
    ensures { result.now ≡ (open_at (slice_get levels.now done)).places }
{
    match levels.get(done as usize) {
        Some(level) => level.now.places.as_slice(),
        None => &[],
    }
}

fn nodes_at(levels: &[PoolLevel], done: u32) -> &[Node]
    ensures { result.now ≡ (open_at (slice_get levels.now done)).nodes }
{
    match levels.get(done as usize) {
        Some(level) => level.now.nodes.as_slice(),
        None => &[],
    }
}

/// The state that the line of a certificate lists, where these are the levels of its order: of what is open after its
/// gates, the places that classes list, the odd nodes of pools, and the balances of pools.
pub fn state_listed(
    alloc: Global,
    pools: &Pools,
    levels: &[PoolLevel],
    line: &PoolLine,
) -> Result<PoolState, NoMemory>
    ensures { IfOk result (λ state. state ≡ state_listed pools.now levels.now line.now) }
{
    let places = places_at(levels, line.done);
    let nodes = nodes_at(levels, line.done);
    let state = state_of(alloc, pools, places, nodes, line)?;
    Ok(state)
}
