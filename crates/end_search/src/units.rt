ghost use Rattle.std.specs.Prelude.{◌≡◌, ◌≤◌, ◌<◌, ◌+◌, ◌^◌, false, IsTrue};
ghost use Rattle.end_search.specs.Units.{level_units};

use end_lemmas::EndSteps;

/// So many choices take one unit of a budget.
const UNIT_CHOICES: u64 = 64;

/// The units of a state before the level: one, and one for each 64 choices.
pub(crate) fn level_units<E: EndSteps>(steps: &E, level: &E::Level) -> u64
    ensures { result ≡ level_units (E.steps steps.now) level.now }
{
    1 + steps.choices(level).len() as u64 / UNIT_CHOICES
}

/// Takes so many units of those left, where there are as many. Else none is left.
pub(crate) fn take(left: &mut u64, units: u64) -> bool
    ensures taken { IsTrue result → left.new + units ≡ left.old }
    ensures none { result ≡ false → left.new ≡ 0 }
    ensures few { result ≡ false → left.old < units }
{
    if *left < units {
        *left = 0;
        return false;
    }
    *left -= units;
    true
}
