ghost use Rattle.std.specs.Prelude.{◌≡◌, ◌≤◌, ◌<◌, map};
ghost use Rattle.track_log.specs.Line.{above_in, above_of};

use crate::item::Item;
use cell_num::{Bytes, MOST_NETS, NetNo, NoMemory, put_number};
use log_lines::{few_parts, number_below};
use row_cycles::NetAbove;

fn above_of_words(nets: u32, words: &[&[u8]]) -> Option<NetAbove>
    requires { nets ≤ MOST_NETS }
    ensures { result ≡ above_of nets (map (λ word. word.now) words.now) }
{
    let [upper, lower] = words else {
        return None;
    };
    let upper = number_below(upper, nets)?;
    let lower = number_below(lower, nets)?;
    Some(NetAbove {
        upper: NetNo(upper),
        lower: NetNo(lower),
    })
}

#[tactic(auto, using(crate::proofs::Items::long_above))]
fn read_above(nets: u32, word: &[u8]) -> Option<NetAbove>
    requires { nets ≤ MOST_NETS }
    ensures { result ≡ above_in nets word.now }
{
    let words = few_parts::<2>(word, b'>')?;
    above_of_words(nets, words.as_slice())
}

fn wide(net: u32) -> u64
    ensures is { result ≡ net }
    ensures few { result < 4294967296 }
{
    u64::from(net)
}

impl Item for NetAbove {
    ghost use Rattle.row_cycles.specs.Fits.{above_rank};
    ghost use Rattle.track_log.specs.Line.{above_in};
    ghost use Rattle.track_log.specs.Text.{above_text};

    ghost spelling = { above_text };

    ghost said = { above_in };

    ghost place = { above_rank };

    fn read(nets: u32, word: &[u8]) -> Option<NetAbove> {
        read_above(nets, word)
    }

    fn put(&self, out: &mut Bytes) -> Result<(), NoMemory> {
        put_number(out, u64::from(self.upper.0))?;
        out.push(b'>')?;
        put_number(out, u64::from(self.lower.0))
    }

    fn rank(&self) -> u64 {
        wide(self.upper.0) * 256 + wide(self.lower.0)
    }
}
