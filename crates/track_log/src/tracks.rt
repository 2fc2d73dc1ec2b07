ghost use Rattle.std.specs.Prelude.{◌≡◌, ◌≤◌, map};
ghost use Rattle.track_log.specs.Line.{track_in, track_of};

use crate::MOST_TRACKS;
use crate::item::Item;
use cell_num::{Bytes, MOST_NETS, NetNo, NoMemory, put_number};
use log_lines::{few_parts, number_below};
use track_ways::NetTrack;

fn track_of_words(nets: u32, words: &[&[u8]]) -> Option<NetTrack>
    requires { nets ≤ MOST_NETS }
    ensures { result ≡ track_of nets (map (λ word. word.now) words.now) }
{
    let [net, track] = words else {
        return None;
    };
    let net = number_below(net, nets)?;
    let track = number_below(track, MOST_TRACKS)?;
    Some(NetTrack {
        net: NetNo(net),
        track,
    })
}

#[tactic(auto, using(crate::proofs::Items::long_track))]
fn read_track(nets: u32, word: &[u8]) -> Option<NetTrack>
    requires { nets ≤ MOST_NETS }
    ensures { result ≡ track_in nets word.now }
{
    let words = few_parts::<2>(word, b':')?;
    track_of_words(nets, words.as_slice())
}

impl Item for NetTrack {
    ghost use Rattle.track_log.specs.Line.{track_in, track_rank};
    ghost use Rattle.track_log.specs.Text.{track_text};

    ghost spelling = { track_text };

    ghost said = { track_in };

    ghost place = { track_rank };

    fn read(nets: u32, word: &[u8]) -> Option<NetTrack> {
        read_track(nets, word)
    }

    fn put(&self, out: &mut Bytes) -> Result<(), NoMemory> {
        put_number(out, u64::from(self.net.0))?;
        out.push(b':')?;
        put_number(out, u64::from(self.track))
    }

    fn rank(&self) -> u64 {
        u64::from(self.net.0)
    }
}
