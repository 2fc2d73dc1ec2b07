ghost use Rattle.std.specs.Prelude.{◌≡◌, ◌≤◌, ◌<◌, map};
ghost use Rattle.trail_log.specs.Listed.{net_in, node_in, node_of};

use crate::item::Item;
use cell_num::{Bytes, MOST_NETS, NetNo, NoMemory, put_number};
use log_lines::{few_parts, number_below};
use std::alloc::Global;
use trail_log::NetPair;

/// The net of its number.
pub fn read_net(nets: u32, word: &[u8]) -> Option<NetNo>
    requires { nets ≤ MOST_NETS }
    ensures { result ≡ net_in nets word.now }
{
    number_below(word, nets).map(NetNo)
}

impl Item for NetNo {
    ghost use Rattle.trail_log.specs.Listed.{net_in};
    ghost use Rattle.trail_log.specs.Order.{net_rank};
    ghost use Rattle.trail_log.specs.Spelling.{net_text};

    ghost spelling = { net_text };

    ghost said = { net_in };

    ghost place = { net_rank };

    fn read(_: Global, nets: u32, word: &[u8]) -> Result<Option<NetNo>, NoMemory> {
        Ok(read_net(nets, word))
    }

    fn put(&self, out: &mut Bytes) -> Result<(), NoMemory> {
        put_number(out, u64::from(self.0))
    }

    fn rank(&self) -> u128 {
        u128::from(self.0)
    }
}

fn node_of_words(nets: u32, words: &[&[u8]]) -> Option<NetPair>
    requires { nets ≤ MOST_NETS }
    ensures { result ≡ node_of nets (map (λ word. word.now) words.now) }
{
    let [p, n] = words else {
        return None;
    };
    let p = read_net(nets, p)?;
    let n = read_net(nets, n)?;
    Some(NetPair { p, n })
}

/// The node of the numbers of its nets.
#[tactic(auto, using(crate::proofs::Lists::long_node))]
pub fn read_node(nets: u32, word: &[u8]) -> Option<NetPair>
    requires { nets ≤ MOST_NETS }
    ensures { result ≡ node_in nets word.now }
{
    let words = few_parts::<2>(word, b'.')?;
    node_of_words(nets, words.as_slice())
}

fn wide(net: u32) -> u128
    ensures is { result ≡ net }
    ensures few { result < 4294967296 }
{
    u128::from(net)
}

impl Item for NetPair {
    ghost use Rattle.trail_log.specs.Listed.{node_in};
    ghost use Rattle.trail_log.specs.Order.{node_rank};
    ghost use Rattle.trail_log.specs.Spelling.{node_text};

    ghost spelling = { node_text };

    ghost said = { node_in };

    ghost place = { node_rank };

    fn read(_: Global, nets: u32, word: &[u8]) -> Result<Option<NetPair>, NoMemory> {
        Ok(read_node(nets, word))
    }

    fn put(&self, out: &mut Bytes) -> Result<(), NoMemory> {
        put_number(out, u64::from(self.p.0))?;
        out.push(b'.')?;
        put_number(out, u64::from(self.n.0))
    }

    fn rank(&self) -> u128 {
        4_294_967_296 * wide(self.p.0) + wide(self.n.0)
    }
}
