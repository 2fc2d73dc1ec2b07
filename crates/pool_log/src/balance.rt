ghost use Rattle.std.specs.Prelude.{◌≡◌, ◌≤◌, ◌++◌, OnOk, map};
ghost use Rattle.log_lines.specs.Words.{parts_at};
ghost use Rattle.pool_log.specs.Line.{balance_in, count_in, free_of, waiting_of};
ghost use Rattle.pool_log.specs.Text.{surplus_text};

use cell_num::{Bytes, List, MOST_NETS, NetNo, NoMemory, put_number};
use log_lines::{few_parts, number_below};
use order_log::{Item, read_net};
use std::alloc::Global;
use trail_log::MOST_ENDS;

/// What there is more of at a pool, and how many more: odd nodes that no later gate can meet, or free ends.
#[derive(Clone, Copy, Debug, PartialEq, Eq)]
pub enum Surplus {
    Waiting(u32),
    Free(u32),
}

/// The balance of the pool of a net.
#[derive(Clone, Copy, Debug, PartialEq, Eq)]
pub struct PoolBalance {
    pub net: NetNo,
    pub surplus: Surplus,
}

/// Balances of pools.
pub type BalanceList = List<PoolBalance>;

/// A number of ends or nodes: at least 1, and at most two for each column of a row.
pub(crate) fn read_count(word: &[u8]) -> Option<u32>
    ensures { result ≡ count_in word.now }
{
    let count = number_below(word, MOST_ENDS + 1)?;
    if count < 1 { None } else { Some(count) }
}

fn free_of_words(nets: u32, words: &[&[u8]]) -> Option<PoolBalance>
    requires { nets ≤ MOST_NETS }
    ensures { result ≡ free_of nets (map (λ word. word.now) words.now) }
{
    let [net, ends] = words else {
        return None;
    };
    let net = read_net(nets, net)?;
    let ends = read_count(ends)?;
    Some(PoolBalance {
        net,
        surplus: Surplus::Free(ends),
    })
}

fn waiting_of_words(nets: u32, words: &[&[u8]]) -> Option<PoolBalance>
    requires { nets ≤ MOST_NETS }
    ensures { result ≡ waiting_of nets (map (λ word. word.now) words.now) }
{
    let [net, nodes] = words else {
        return None;
    };
    let net = read_net(nets, net)?;
    let nodes = read_count(nodes)?;
    Some(PoolBalance {
        net,
        surplus: Surplus::Waiting(nodes),
    })
}

#[tactic(auto, using(crate::proofs::Balances::long_free))]
fn read_free(nets: u32, word: &[u8]) -> Option<PoolBalance>
    requires { nets ≤ MOST_NETS }
    ensures { result ≡ free_of nets (parts_at 45 word.now) }
{
    let words = few_parts::<2>(word, b'-')?;
    free_of_words(nets, words.as_slice())
}

#[tactic(auto, using(crate::proofs::Balances::long_waiting))]
fn read_waiting(nets: u32, word: &[u8]) -> Option<PoolBalance>
    requires { nets ≤ MOST_NETS }
    ensures { result ≡ waiting_of nets (parts_at 43 word.now) }
{
    let words = few_parts::<2>(word, b'+')?;
    waiting_of_words(nets, words.as_slice())
}

fn read(nets: u32, word: &[u8]) -> Option<PoolBalance>
    requires { nets ≤ MOST_NETS }
    ensures { result ≡ balance_in nets word.now }
{
    match read_free(nets, word) {
        Some(balance) => Some(balance),
        None => read_waiting(nets, word),
    }
}

fn put_surplus(out: &mut Bytes, surplus: &Surplus) -> Result<(), NoMemory>
    ensures { OnOk result (out.new ≡ out.old ++ surplus_text surplus.now) }
{
    match surplus {
        Surplus::Waiting(nodes) => {
            out.push(b'+')?;
            put_number(out, u64::from(*nodes))
        }
        Surplus::Free(ends) => {
            out.push(b'-')?;
            put_number(out, u64::from(*ends))
        }
    }
}

impl Item for PoolBalance {
    ghost use Rattle.pool_log.specs.Line.{balance_in};
    ghost use Rattle.pool_log.specs.Order.{balance_rank};
    ghost use Rattle.pool_log.specs.Text.{balance_text};

    ghost spelling = { balance_text };

    ghost said = { balance_in };

    ghost place = { balance_rank };

    fn read(_: Global, nets: u32, word: &[u8]) -> Result<Option<PoolBalance>, NoMemory> {
        Ok(read(nets, word))
    }

    fn put(&self, out: &mut Bytes) -> Result<(), NoMemory> {
        put_number(out, u64::from(self.net.0))?;
        put_surplus(out, &self.surplus)
    }

    fn rank(&self) -> u128 {
        u128::from(self.net.0)
    }
}
