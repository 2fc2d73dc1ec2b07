ghost use Rattle.std.specs.Prelude.{◌≡◌, ◌<◌, ◌==◌, IfOk, find, map};
ghost use Rattle.std.specs.Option.{option_copied};
ghost use Rattle.trail_pools.specs.State.{open_pools};
ghost use Rattle.pool_log.specs.declared.balance.PoolBalance.{PoolBalance as BalanceOf};
ghost use Rattle.pool_lines.specs.Listed.{balance_listed, balance_of};

use pool_log::{PoolBalance, Surplus};
use std::alloc::{AllocError, Global};
use trail_pools::Balance;
use trail_state::Node;

fn find(balances: &[PoolBalance], net: u32) -> Option<&PoolBalance>
    ensures { option_copied result ≡ find (λ (b : BalanceOf). b.net.0 == net) balances.now }
{
    balances.iter().find(|balance| balance.net.0 == net)
}

fn balance_of(net: u32, surplus: Surplus) -> Balance
    ensures { result ≡ balance_of net surplus }
{
    match surplus {
        Surplus::Waiting(waiting) => Balance {
            net,
            waiting,
            free: 0,
        },
        Surplus::Free(free) => Balance {
            net,
            waiting: 0,
            free,
        },
    }
}

/// The balance that a line lists for the net.
pub(crate) fn balance_listed(balances: &[PoolBalance], net: u32) -> Balance
    ensures { result ≡ balance_listed balances.now net }
{
    match find(balances, net) {
        Some(balance) => balance_of(net, balance.surplus),
        None => Balance {
            net,
            waiting: 0,
            free: 0,
        },
    }
}

fn open_pools(alloc: Global, nodes: u32, places: &[Node]) -> Result<Vec<u32>, AllocError>
    ensures { IfOk result (λ nets. nets.items ≡ open_pools nodes places.now) }
{
    places
        .iter()
        .filter(|place| nodes <= place.0)
        .map(|place| place.0.saturating_sub(nodes))
        .collect(alloc)
}

/// The balances of all pools among the places.
pub(crate) fn all_balances(
    alloc: Global,
    nodes: u32,
    places: &[Node],
    balances: &[PoolBalance],
) -> Result<Vec<Balance>, AllocError>
    ensures { IfOk result (λ all. all.items ≡ map (balance_listed balances.now) (open_pools nodes places.now)) }
{
    let nets = open_pools(alloc, nodes, places)?;
    let mut all = Vec::new(alloc);
    for net in &nets {
        all.push(balance_listed(balances, *net))?;
    }
    Ok(all)
}
