ghost use Rattle.std.specs.Prelude.{◌≡◌, ◌≤◌, ◌<◌, ◌^◌, ◌==◌, true, IfOk, count_by, find, length, map};
ghost use Rattle.std.specs.List.{list_all};
ghost use Rattle.std.specs.Option.{option_copied};
ghost use Rattle.trail_state.specs.declared.edge.FingerEnds.{FingerEnds as Half};
ghost use Rattle.trail_halves.specs.Halves.{free, short};
ghost use Rattle.trail_pools.specs.declared.state.Balance.{Balance as BalanceOf};
ghost use Rattle.trail_pools.specs.State.{balance_in, balanced, is_small, no_balance, open_pools};
ghost use Rattle.trail_pools.specs.Stepping.{count_of, next_balance};

use crate::state::Balance;
use cell_num::Row;
use open_gates::merge::net_in;
use std::alloc::{AllocError, Global};
use trail_state::Node;
use trail_state::edge::FingerEnds;

fn find(balances: &[Balance], net: u32) -> Option<&Balance>
    ensures { option_copied result ≡ find (λ (b : BalanceOf). b.net == net) balances.now }
{
    balances.iter().find(|balance| balance.net == net)
}

fn balance_in(balances: &[Balance], net: u32) -> Balance
    ensures { result ≡ balance_in balances.now net }
{
    match find(balances, net) {
        Some(balance) => *balance,
        None => Balance {
            net,
            waiting: 0,
            free: 0,
        },
    }
}

fn odd_of(row: Row, shut: &[u32], net: u32) -> usize
    ensures { result ≡ count_of row shut.now net }
{
    shut.iter()
        .filter(|node| net_in(row, **node) == net)
        .count()
}

#[tactic(auto, using(crate::proofs::Balances::few_low))]
fn low_ends(halves: &[FingerEnds], net: u32) -> usize
    ensures is { result ≡ count_by (λ (half : Half). half.lo == net) halves.now }
    ensures few { result ≤ length halves.now }
{
    halves
        .iter()
        .filter(|half| u32::from(half.lo) == net)
        .count()
}

#[tactic(auto, using(crate::proofs::Balances::few_high))]
fn high_ends(halves: &[FingerEnds], net: u32) -> usize
    ensures is { result ≡ count_by (λ (half : Half). half.hi == net) halves.now }
    ensures few { result ≤ length halves.now }
{
    halves
        .iter()
        .filter(|half| u32::from(half.hi) == net)
        .count()
}

#[tactic(auto, using(crate::proofs::Balances::free_parts))]
fn free_ends(halves: &[FingerEnds], net: u32) -> u64
    requires { length halves.now ≤ 32 }
    ensures is { result ≡ free halves.now net }
    ensures few { result ≤ 64 }
{
    let low = low_ends(halves, net);
    let high = high_ends(halves, net);
    (low + high) as u64
}

// The lesser number is taken from both.
fn balanced(net: u32, waiting: u64, free: u64) -> Balance
    requires waiting { waiting < 2 ^ 32 }
    requires free { free < 2 ^ 32 }
    ensures { result ≡ balanced net waiting free }
{
    Balance {
        net,
        waiting: waiting.saturating_sub(free) as u32,
        free: free.saturating_sub(waiting) as u32,
    }
}

#[tactic(auto, using(crate::proofs::Balances::small_in))]
fn small_balance_in(balances: &[Balance], net: u32) -> Balance
    requires { list_all is_small balances.now ≡ true }
    ensures is { result ≡ balance_in balances.now net }
    ensures small { (result.waiting ≤ 2 ^ 31) × (result.free ≤ 2 ^ 31) }
{
    balance_in(balances, net)
}

/// The balance of a pool, with these odd nodes that no later gate can meet and these half edges more.
#[tactic(auto, using(crate::proofs::Balances::few_odd))]
pub(crate) fn next_balance(
    row: Row,
    shut: &[u32],
    balances: &[Balance],
    halves: &[FingerEnds],
    net: u32,
) -> Balance
    requires shut { length shut.now ≤ 65536 }
    requires balances { list_all is_small balances.now ≡ true }
    requires halves { length halves.now ≤ 32 }
    ensures { result ≡ next_balance row shut.now balances.now halves.now net }
{
    let old = small_balance_in(balances, net);
    let waiting = u64::from(old.waiting) + odd_of(row, shut, net) as u64;
    let free = u64::from(old.free) + free_ends(halves, net);
    balanced(net, waiting, free)
}

/// So many of a pool's odd nodes stay odd at least.
pub(crate) fn short(odd: u32, ends: u32) -> u32
    ensures { result ≡ short odd ends }
{
    if ends <= odd {
        odd - ends
    } else {
        (ends - odd) % 2
    }
}

fn open_pools(alloc: Global, nodes: u32, places: &[Node]) -> Result<Vec<u32>, AllocError>
    ensures { IfOk result (λ nets. nets.items ≡ open_pools nodes places.now) }
{
    places
        .iter()
        .filter(|place| nodes <= place.0)
        .map(|place| place.0.saturating_sub(nodes))
        .collect(alloc)
}

/// The balance of each pool among the places.
pub(crate) fn next_balances(
    alloc: Global,
    nodes: u32,
    row: Row,
    shut: &[u32],
    balances: &[Balance],
    halves: &[FingerEnds],
    places: &[Node],
) -> Result<Vec<Balance>, AllocError>
    requires shut { length shut.now ≤ 65536 }
    requires balances { list_all is_small balances.now ≡ true }
    requires halves { length halves.now ≤ 32 }
    ensures { IfOk result (λ all. all.items
        ≡ map (next_balance row shut.now balances.now halves.now) (open_pools nodes places.now)) }
{
    let nets = open_pools(alloc, nodes, places)?;
    let mut all = Vec::new(alloc);
    for net in &nets {
        all.push(next_balance(row, shut, balances, halves, *net))?;
    }
    Ok(all)
}
