ghost use Rattle.std.specs.Prelude.{◌≡◌, ◌≤◌, ◌<◌, map};
ghost use Rattle.log_lines.specs.Words.{parts_at};
ghost use Rattle.pool_log.specs.Line.{place_in, pool_in, pool_of};

use cell_num::{Bytes, List, MOST_NETS, NetNo, NoMemory, Row, put_number};
use log_lines::{few_parts, is_word};
use order_log::{Item, read_net, read_node};
use std::alloc::Global;
use trail_log::NetPair;

/// A place that a class lists: a node, or a pool. The nodes of a pool are those with the net in the row.
#[derive(Clone, Copy, Debug)]
pub enum ListedPlace {
    Node(NetPair),
    Pool { row: Row, net: NetNo },
}

/// Places of a class.
pub type PlaceList = List<ListedPlace>;

fn pool(row: Row, nets: u32, word: &[u8]) -> Option<ListedPlace>
    requires { nets ≤ MOST_NETS }
    ensures { result ≡ pool_in row nets word.now }
{
    let net = read_net(nets, word)?;
    Some(ListedPlace::Pool { row, net })
}

fn pool_of_words(nets: u32, words: &[&[u8]]) -> Option<ListedPlace>
    requires { nets ≤ MOST_NETS }
    ensures { result ≡ pool_of nets (map (λ word. word.now) words.now) }
{
    let [p, n] = words else {
        return None;
    };
    if is_word(n, b"*") {
        pool(Row::P, nets, p)
    } else if is_word(p, b"*") {
        pool(Row::N, nets, n)
    } else {
        None
    }
}

#[tactic(auto, using(crate::proofs::Places::long_pool))]
fn read_pool(nets: u32, word: &[u8]) -> Option<ListedPlace>
    requires { nets ≤ MOST_NETS }
    ensures { result ≡ pool_of nets (parts_at 46 word.now) }
{
    let words = few_parts::<2>(word, b'.')?;
    pool_of_words(nets, words.as_slice())
}

fn read(nets: u32, word: &[u8]) -> Option<ListedPlace>
    requires { nets ≤ MOST_NETS }
    ensures { result ≡ place_in nets word.now }
{
    match read_node(nets, word) {
        Some(node) => Some(ListedPlace::Node(node)),
        None => read_pool(nets, word),
    }
}

fn wide(net: u32) -> u128
    ensures is { result ≡ net }
    ensures few { result < 4294967296 }
{
    u128::from(net)
}

impl Item for ListedPlace {
    ghost use Rattle.pool_log.specs.Line.{place_in};
    ghost use Rattle.pool_log.specs.Order.{place_rank};
    ghost use Rattle.pool_log.specs.Text.{place_text};

    ghost spelling = { place_text };

    ghost said = { place_in };

    ghost place = { place_rank };

    fn read(_: Global, nets: u32, word: &[u8]) -> Result<Option<ListedPlace>, NoMemory> {
        Ok(read(nets, word))
    }

    fn put(&self, out: &mut Bytes) -> Result<(), NoMemory> {
        match self {
            ListedPlace::Node(node) => node.put(out),
            ListedPlace::Pool { row: Row::P, net } => {
                put_number(out, u64::from(net.0))?;
                out.extend(b".*")
            }
            ListedPlace::Pool { row: Row::N, net } => {
                out.extend(b"*.")?;
                put_number(out, u64::from(net.0))
            }
        }
    }

    fn rank(&self) -> u128 {
        match self {
            ListedPlace::Node(node) => node.rank(),
            ListedPlace::Pool { row: Row::P, net } => 18_446_744_073_709_551_616 + wide(net.0),
            ListedPlace::Pool { row: Row::N, net } => 36_893_488_147_419_103_232 + wide(net.0),
        }
    }
}
