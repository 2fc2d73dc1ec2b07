ghost use Rattle.std.specs.Prelude.{◌≡◌, ◌==◌, ◌&&◌, IfOk, map, not, List as Sequence};
ghost use Rattle.std.specs.List.{filter, list_any};
ghost use Rattle.cell_num.specs.declared.finger.Fingers.{Fingers as FingersOf};
ghost use Rattle.cell_num.specs.declared.net.NetNo.{NetNo as NetNoOf};
ghost use Rattle.cell_num.specs.Fingers.{AreFingers};
ghost use Rattle.open_gates.specs.declared.gates.OpenGates.{OpenGates as OpenGatesOf};
ghost use Rattle.trail_state.specs.Levels.{IsOrder};
ghost use Rattle.trail_state.specs.declared.edge.Node.{Node as NodeOf};
ghost use Rattle.trail_state.specs.declared.state.Place.{Place as PlaceAt};
ghost use Rattle.trail_pools.specs.Leveled.{levels_of, pools_of};
ghost use Rattle.trail_pools.specs.declared.state.Balance.{Balance as BalanceOf};
ghost use Rattle.pool_lines.specs.Lines.{balance_at, class_at, classes_of, is_even, is_name, is_odd_node};
ghost use Rattle.pool_lines.specs.Lines.{is_of, line_of, odd_nodes, pair_of, place_of, surplus_of};
ghost use Rattle.pool_lines.specs.Listed.{state_listed};
ghost use Rattle.pool_lines.specs.After.{IsAfter};
ghost use Rattle.pool_lines.specs.Texts.{IsTextOfState};

use cell_num::{List, NetNo, NoMemory};
use pool_log::{ClassList, ListedPlace, PlaceClass, PoolBalance, PoolLine, Surplus};
use std::alloc::{AllocError, Global};
use trail_log::NetPair;
use trail_pools::{Balance, PoolState, Pools};
use trail_state::{Node, Place};

fn pair_of(node: u32) -> NetPair
    ensures { result ≡ pair_of node }
{
    NetPair {
        p: NetNo(node / 256),
        n: NetNo(node % 256),
    }
}

fn is_odd_place(places: &[Place], node: u32) -> bool
    ensures { result ≡ list_any (λ (p : PlaceAt). (p.node.0 == node) && p.odd) places.now }
{
    places.iter().any(|place| place.node.0 == node && place.odd)
}

fn is_listed(odd: &[Node], node: u32) -> bool
    ensures { result ≡ list_any (λ (o : NodeOf). o.0 == node) odd.now }
{
    odd.iter().any(|other| other.0 == node)
}

fn is_odd_node(state: &PoolState, node: u32) -> bool
    ensures { result ≡ is_odd_node state.now node }
{
    is_odd_place(state.places.as_slice(), node) || is_listed(state.odd.as_slice(), node)
}

fn odd_nodes(alloc: Global, pools: &Pools, state: &PoolState) -> Result<Vec<NetPair>, AllocError>
    ensures { IfOk result (λ all. all.items ≡ odd_nodes pools.now state.now) }
{
    (0..pools.nodes)
        .filter(|node| is_odd_node(state, *node))
        .map(pair_of)
        .collect(alloc)
}

fn place_of(pools: &Pools, place: &Place) -> ListedPlace
    ensures { result ≡ place_of pools.now place.now }
{
    if place.node.0 < pools.nodes {
        ListedPlace::Node(pair_of(place.node.0))
    } else {
        ListedPlace::Pool {
            row: pools.row,
            net: NetNo(place.node.0 - pools.nodes),
        }
    }
}

fn is_of(class: u32, place: &Place) -> bool
    ensures { result ≡ is_of class place.now }
{
    place.class.0 == class
}

fn members(
    alloc: Global,
    pools: &Pools,
    places: &[Place],
    class: u32,
) -> Result<Vec<ListedPlace>, AllocError>
    ensures { IfOk result (λ all. all.items ≡ map (place_of pools.now) (filter (is_of class) places.now)) }
{
    places
        .iter()
        .filter(|place| is_of(class, place))
        .map(|place| place_of(pools, place))
        .collect(alloc)
}

fn class_at(
    alloc: Global,
    pools: &Pools,
    places: &[Place],
    place: &Place,
) -> Result<PlaceClass, NoMemory>
    ensures { IfOk result (λ class. class ≡ class_at pools.now places.now place.now) }
{
    Ok(PlaceClass {
        places: List::from_vec(members(alloc, pools, places, place.class.0)?),
        flagged: place.flagged,
    })
}

fn names(alloc: Global, places: &[Place]) -> Result<Vec<Place>, AllocError>
    ensures { IfOk result (λ all. all.items ≡ filter is_name places.now) }
{
    places
        .iter()
        .copied()
        .filter(|place| place.node == place.class)
        .collect(alloc)
}

fn classes_of(alloc: Global, pools: &Pools, state: &PoolState) -> Result<ClassList, NoMemory>
    ensures { IfOk result (λ all. all ≡ classes_of pools.now state.now) }
{
    let places = state.places.as_slice();
    let names = names(alloc, places)?;
    let mut all = List::new(alloc);
    for name in &names {
        all.push(class_at(alloc, pools, places, name)?)?;
    }
    Ok(all)
}

fn is_even(balance: &Balance) -> bool
    ensures { result ≡ is_even balance.now }
{
    balance.waiting == 0 && balance.free == 0
}

fn surplus_of(balance: &Balance) -> Surplus
    ensures { result ≡ surplus_of balance.now }
{
    if balance.waiting == 0 {
        Surplus::Free(balance.free)
    } else {
        Surplus::Waiting(balance.waiting)
    }
}

fn balance_at(balance: &Balance) -> PoolBalance
    ensures { result ≡ balance_at balance.now }
{
    PoolBalance {
        net: NetNo(balance.net),
        surplus: surplus_of(balance),
    }
}

fn balances_of(alloc: Global, balances: &[Balance]) -> Result<Vec<PoolBalance>, AllocError>
    ensures { IfOk result (λ all. all.items
        ≡ map balance_at (filter (λ (b : BalanceOf). not (is_even b)) balances.now)) }
{
    balances
        .iter()
        .filter(|balance| !is_even(balance))
        .map(|balance| balance_at(balance))
        .collect(alloc)
}

fn line(
    alloc: Global,
    pools: &Pools,
    bound: u32,
    done: u32,
    state: &PoolState,
) -> Result<PoolLine, NoMemory>
    ensures { IfOk result (λ line. line ≡ line_of pools.now bound done state.now) }
{
    let odd = odd_nodes(alloc, pools, state)?;
    let balances = balances_of(alloc, state.balances.as_slice())?;
    Ok(PoolLine {
        bound,
        done,
        odd: List::from_vec(odd),
        balances: List::from_vec(balances),
        classes: classes_of(alloc, pools, state)?,
    })
}

/// The line of a lemma on the state after the first `done` gates of an order. It lists this state, and is its text.
pub fn line_of(
    alloc: Global,
    pools: &Pools,
    bound: u32,
    done: u32,
    state: &PoolState,
) -> Result<PoolLine, NoMemory>
    ensures is { IfOk result (λ line. line ≡ line_of pools.now bound done state.now) }
    ensures back { IfOk result (λ line. (f : FingersOf) (opened : OpenGatesOf) (order : Sequence NetNoOf)
        → AreFingers f → IsOrder f order → pools.now ≡ pools_of f opened
        → IsAfter pools.now (levels_of f opened order) done state.now
        → state_listed pools.now (levels_of f opened order) line ≡ state.now) }
    ensures text { IfOk result (λ line. (f : FingersOf) (opened : OpenGatesOf) (order : Sequence NetNoOf)
        → AreFingers f → IsOrder f order → pools.now ≡ pools_of f opened
        → IsAfter pools.now (levels_of f opened order) done state.now
        → IsTextOfState pools.now (levels_of f opened order) line) }
{
    let line = line(alloc, pools, bound, done, state)?;
    Ok(line)
}
