ghost use Rattle.std.specs.Prelude.{◌≡◌, fold};
ghost use Rattle.trail_pools.specs.Numbered.{state_number, with_balance, with_node};
ghost use Rattle.trail_pools.specs.State.{are_small, is_small, start};

use cell_num::List;
use std::alloc::Global;
use trail_check::mixed;
use trail_state::{Node, TrailState};

/// Of a pool whose net this is: how many of its odd nodes no later gate can meet, less its free ends so far. One of the
/// two numbers is 0.
#[derive(Clone, Copy, Debug, PartialEq, Eq)]
pub struct Balance {
    pub net: u32,
    pub waiting: u32,
    pub free: u32,
}

/// The state after the first gates of an order. Each list is in ascending order, so equal states are equal values.
#[derive(Debug, PartialEq, Drop)]
pub struct PoolState {
    /// The open places that the gates meet, with their classes.
    pub places: TrailState,
    /// The open nodes of pools that are odd.
    pub odd: List<Node>,
    /// One of each open pool.
    pub balances: List<Balance>,
}

fn is_small(balance: &Balance) -> bool
    ensures { result ≡ is_small balance.now }
{
    balance.waiting <= 2_147_483_648 && balance.free <= 2_147_483_648
}

fn with_nodes(number: u64, nodes: &[Node]) -> u64
    ensures { result ≡ fold with_node number nodes.now }
{
    let mut mix = number;
    for node in nodes {
        mix = mixed(mix, u64::from(node.0));
    }
    mix
}

fn with_balance(number: u64, balance: &Balance) -> u64
    ensures { result ≡ with_balance number balance.now }
{
    let net = mixed(number, u64::from(balance.net));
    let waiting = mixed(net, u64::from(balance.waiting));
    mixed(waiting, u64::from(balance.free))
}

fn with_balances(number: u64, balances: &[Balance]) -> u64
    ensures { result ≡ fold with_balance number balances.now }
{
    let mut mix = number;
    for balance in balances {
        mix = with_balance(mix, balance);
    }
    mix
}

impl PoolState {
    /// The state before the first gate.
    pub fn start(alloc: Global) -> Self
        ensures { result ≡ start }
    {
        PoolState {
            places: List::new(alloc),
            odd: List::new(alloc),
            balances: List::new(alloc),
        }
    }

    /// Whether the two numbers of each balance are at most 2,147,483,648, as `after` asks.
    pub fn are_small(&self) -> bool
        ensures { result ≡ are_small self.now }
    {
        self.balances
            .as_slice()
            .iter()
            .all(|balance| is_small(balance))
    }

    /// A number of the state after the first `done` gates, by which lemmas on it can be looked up. Other states may
    /// share it.
    pub fn number(&self, done: u64) -> u64
        ensures { result ≡ state_number done self.now }
    {
        let places = trail_check::state_number(done, self.places.as_slice());
        let nodes = with_nodes(places, self.odd.as_slice());
        with_balances(nodes, self.balances.as_slice())
    }
}
