ghost use Rattle.std.specs.Prelude.{◌≡◌, ◌||◌, ◌<◌, ℕ};
ghost use Rattle.row_trails.specs.Counts.{flag};
ghost use Rattle.track_ways.specs.Lines.{is_net, with_line};
ghost use Rattle.track_ways.specs.Tables.{HasEntries, HasEntry, marked};
ghost use Rattle.track_ways.specs.Ways.{net_of};

use crate::line::Line;
use cell_num::NetNo;
use row_trails::NETS;

#[tactic(auto, using(crate::proofs::Tables::mark_at))]
fn mark(table: &mut [bool; NETS], place: &Option<NetNo>)
    requires { HasEntry 256 place.now }
    ensures { (u : ℕ) → flag table.new u ≡ (flag table.old u || is_net place.now (net_of u)) }
{
    if let Some(net) = place {
        table[net.0 as usize] = true;
    }
}

/// Adds the nets with a place at the line to the table.
#[tactic(auto, using(crate::proofs::Tables::line_marked))]
pub(crate) fn mark_line(table: &mut [bool; NETS], line: &Line)
    requires { HasEntries 256 line.now }
    ensures { marked table.new ≡ with_line (marked table.old) line.now }
{
    mark(table, &line.p);
    mark(table, &line.n);
    mark(table, &line.gate);
}

/// The nets of the table, and those with a place at the line.
pub fn with_line(before: &[bool; NETS], line: &Line) -> [bool; NETS]
    requires { HasEntries 256 line.now }
    ensures { marked result ≡ with_line (marked before.now) line.now }
{
    let mut after = *before;
    mark_line(&mut after, line);
    after
}
