ghost use Rattle.std.specs.Prelude.{◌≡◌, ◌||◌};
ghost use Rattle.row_trails.specs.Counts.{flag};
ghost use Rattle.track_ways.specs.Lines.{is_net, has_place, is_ahead, is_open, is_held, begins_or_ends};
ghost use Rattle.track_ways.specs.Tables.{marked};

use crate::line::Line;
use cell_num::{NetNo, Pins};
use row_trails::NETS;

/// Whether the place is of the net.
pub fn is_net(place: &Option<NetNo>, net: NetNo) -> bool
    ensures { result ≡ is_net place.now net }
{
    match place {
        Some(other) => other.0 == net.0,
        None => false,
    }
}

pub(crate) fn has_place(line: &Line, net: NetNo) -> bool
    ensures { result ≡ has_place line.now net }
{
    is_net(&line.p, net) || (is_net(&line.n, net) || is_net(&line.gate, net))
}

/// Whether the table has the net.
pub fn is_marked(table: &[bool; NETS], net: NetNo) -> bool
    ensures { result ≡ marked table.now net }
{
    match table.get(net.0 as usize) {
        Some(marked) => *marked,
        None => false,
    }
}

fn is_ahead(lines: &[Line], net: NetNo) -> bool
    ensures { result ≡ is_ahead lines.now net }
{
    match lines.split_first() {
        Some((line, rest)) => has_place(line, net) || is_ahead(rest, net),
        None => false,
    }
}

fn is_later(lines: &[Line], behind: &[bool; NETS], net: NetNo) -> bool
    ensures { result ≡ (is_ahead lines.now net || marked behind.now net) }
{
    // (most nets that are later at all are so after the lines, and that is quickly seen)
    is_marked(behind, net) || is_ahead(lines, net)
}

/// Whether the net is open before the lines, of which `before` and `behind` have the nets with a place before and
/// after them.
pub fn is_open(
    pins: &Pins,
    before: &[bool; NETS],
    lines: &[Line],
    behind: &[bool; NETS],
    net: NetNo,
) -> bool
    ensures { result ≡ is_open pins.now (marked before.now) (λ n. is_ahead lines.now n || marked behind.now n) net }
{
    !pins.is_rail(net) && (is_marked(before, net) && is_later(lines, behind, net))
}

fn begins_or_ends(pins: &Pins, before: bool, line: &Line, behind: bool, net: NetNo) -> bool
    ensures { result ≡ begins_or_ends pins.now (λ n. before) line.now (λ n. behind) net }
{
    has_place(line, net)
        && (before
            || (behind || (is_net(&line.p, net) && is_net(&line.n, net) || net.0 < pins.pins)))
}

/// Whether a trunk of the net holds the line before the rest of the lines.
pub fn is_held(
    pins: &Pins,
    before: &[bool; NETS],
    line: &Line,
    rest: &[Line],
    behind: &[bool; NETS],
    net: NetNo,
) -> bool
    ensures { result ≡ is_held pins.now (marked before.now) line.now
        (λ n. is_ahead rest.now n || marked behind.now n) net }
{
    let earlier = is_marked(before, net);
    // (most nets have no place so far, and that is quickly seen)
    if pins.is_rail(net) || !(earlier || has_place(line, net)) {
        return false;
    }
    let later = is_later(rest, behind, net);
    (earlier && later) || begins_or_ends(pins, earlier, line, later, net)
}
