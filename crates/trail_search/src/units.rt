ghost use Rattle.std.specs.Prelude.{◌≡◌, ◌≤◌, ◌<◌, ◌+◌, ◌^◌, false, None, IsTrue, length};
ghost use Rattle.trail_search.specs.Units.{choice_units, listed_units, units_at};

use cell_num::List;
use trail_state::Level;

/// So many choices take one unit of a budget.
const UNIT_CHOICES: u64 = 64;

/// The units of a list of the choices of a gate that has too many of them.
pub(crate) const CROWDED_UNITS: u64 = 1024;

fn choice_units(level: &Level) -> u64
    ensures is { result ≡ choice_units level.entry.now }
    ensures few { result < 2 ^ 58 }
{
    level.choices.len() as u64 / UNIT_CHOICES
}

/// The units of a visit of a state after the first `done` gates: one, and one for each 64 choices of the next gate.
#[tactic(auto, unfolding(crate::specs::Units::units_at))]
pub(crate) fn units_at(levels: &List<Level>, done: u32) -> u64
    ensures { result ≡ units_at levels.now done }
{
    match levels.get(done as usize) {
        Some(level) => 1 + choice_units(level),
        None => 1,
    }
}

/// The units of a list of the choices of all gates.
pub(crate) fn listed_units(levels: &List<Level>) -> u64
    requires few { length levels.now ≤ 32 }
    ensures { result ≡ listed_units None levels.now }
{
    let mut total = 0;
    for level in levels.as_slice() {
        total += choice_units(level);
    }
    total
}

/// Takes so many units of those left, where there are as many. Else none is left.
pub(crate) fn take(left: &mut u64, units: u64) -> bool
    ensures taken { IsTrue result → left.new + units ≡ left.old }
    ensures none { result ≡ false → left.new ≡ 0 }
    ensures few { result ≡ false → left.old < units }
{
    if *left < units {
        *left = 0;
        return false;
    }
    *left -= units;
    true
}
