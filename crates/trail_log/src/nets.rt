ghost use Rattle.std.specs.Prelude.{◌≡◌, ◌≤◌};
ghost use Rattle.trail_log.specs.Listed.{net_in};

use crate::listed::Listed;
use crate::text::number_text;
use cell_num::{Bytes, MOST_NETS, NetNo, NoMemory};
use log_lines::number_below;
use std::alloc::Global;

pub(crate) fn net(word: &[u8], nets: u32) -> Option<NetNo>
    requires { nets ≤ MOST_NETS }
    ensures { result ≡ net_in nets word.now }
{
    number_below(word, nets).map(NetNo)
}

impl Listed for NetNo {
    ghost use Rattle.trail_log.specs.Listed.{net_in};
    ghost use Rattle.trail_log.specs.Order.{net_rank};
    ghost use Rattle.trail_log.specs.Spelling.{net_text};

    ghost spelling = { net_text };

    ghost said = { net_in };

    ghost place = { net_rank };

    fn read(_: Global, nets: u32, word: &[u8]) -> Result<Option<NetNo>, NoMemory> {
        Ok(net(word, nets))
    }

    fn text(&self, alloc: Global) -> Result<Bytes, NoMemory> {
        number_text(alloc, self.0)
    }

    fn rank(&self) -> u64 {
        u64::from(self.0)
    }
}
