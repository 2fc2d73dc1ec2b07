// Which nets lie above others, by pairs of nets.
ghost use Rattle.std.specs.Prelude.{◌≡◌, ◌≤◌, ◌↔◌, All, Any, IfNone, IfSome, IsTrue, length, take};
ghost use Rattle.row_cycles.specs.declared.above.NetAbove.{NetAbove as AboveOf};
ghost use Rattle.row_cycles.specs.Above.{HasCycle, HasNets, IsAbove};
ghost use Rattle.row_cycles.specs.Down.{AreAllFound, IsAtOrBelow, IsNew, IsNext};

use crate::NetAbove;
use cell_num::NetNo;
use row_trails::NETS;
use track_ways::is_marked;

fn is_same(net: NetNo, other: NetNo) -> bool
    ensures { IsTrue result ↔ (net ≡ other) }
{
    net == other
}

fn is_at_or_below(upper: NetNo, found: &[bool; NETS], net: NetNo) -> bool
    ensures { IsTrue result ↔ IsAtOrBelow upper found.now net }
{
    if is_same(net, upper) {
        return true;
    }
    is_marked(found, net)
}

// Whether the pair leads to a net that was not found.
fn is_new(upper: NetNo, found: &[bool; NETS], a: &NetAbove) -> bool
    ensures { IsTrue result ↔ IsNew upper found.now a.now }
{
    if is_marked(found, a.lower) {
        return false;
    }
    is_at_or_below(upper, found, a.upper)
}

// A pair to a net below the upper one that was not found yet.
fn next_down(above: &[NetAbove], upper: NetNo, found: &[bool; NETS]) -> Option<NetAbove>
    ensures some { IfSome result (IsNext above.now upper found.now) }
    ensures none { IfNone result (AreAllFound above.now upper found.now) }
{
    for a in above {
        if is_new(upper, found, a) {
            return Some(*a);
        }
    }
    None
}

/// Whether a net lies above another, at once or by nets between them. The nets of the pairs are numbered below
/// [`cell_num::MOST_NETS`].
pub fn is_above(above: &[NetAbove], upper: NetNo, lower: NetNo) -> bool
    requires nets { All (HasNets 256) above.now }
    ensures { IsTrue result ↔ IsAbove above.now upper lower }
{
    let mut found = [false; NETS];
    'nets: while let Some(a) = next_down(above, upper, &found) {
        found[a.lower.0 as usize] = true;
    }
    is_marked(&found, lower)
}

// Whether one of the upper nets of these pairs lies above itself.
fn some_leads_back(above: &[NetAbove], from: &[NetAbove]) -> bool
    requires nets { All (HasNets 256) above.now }
    ensures { IsTrue result ↔ Any (λ (a : AboveOf). IsAbove above.now a.upper a.upper) from.now }
{
    for a in from {
        if is_above(above, a.upper, a.upper) {
            return true;
        }
    }
    false
}

/// Whether a net lies above itself. The nets of the pairs are numbered below [`cell_num::MOST_NETS`].
pub fn has_cycle(above: &[NetAbove]) -> bool
    requires nets { All (HasNets 256) above.now }
    ensures { IsTrue result ↔ HasCycle above.now }
{
    some_leads_back(above, above)
}

/// The same where the first pairs have no cycle: only those from the place on are looked at.
pub fn has_cycle_from(above: &[NetAbove], from: usize) -> bool
    requires nets { All (HasNets 256) above.now }
    requires within { from ≤ length above.now }
    requires first { HasCycle (take from above.now) → ⊥ }
    ensures { IsTrue result ↔ HasCycle above.now }
{
    some_leads_back(above, &above[from..])
}
