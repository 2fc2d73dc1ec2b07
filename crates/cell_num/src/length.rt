ghost use Rattle.std.specs.Prelude.{◌≡◌, ◌≤◌, ◌<◌, ◌↔◌, ◌+ℤ◌, ◌*◌, ◌^◌, ℕ, pos, IfSome, IfNone, IsNone};
ghost use Rattle.cell_num.specs.Length.{IsNearest, nearest_units, units_up_to, power_above, power_below};

/// A decimal number of metres: `digits * 10^ten`.
#[derive(Clone, Copy, Debug, PartialEq, Eq)]
pub struct Fixed {
    pub digits: u64,
    pub ten: i8,
}

/// The most units that a width or a length may have.
pub const MOST_UNITS: u32 = 100_000;

fn power_above(ten: i8) -> u32
    ensures { result ≡ power_above (ten +ℤ pos 12) }
{
    let of_picometres = i32::from(ten) + 12;
    if of_picometres >= 0 {
        of_picometres as u32
    } else {
        0
    }
}

fn power_below(ten: i8) -> u32
    ensures { result ≡ power_below (ten +ℤ pos 12) }
{
    let of_picometres = i32::from(ten) + 12;
    if of_picometres >= 0 {
        0
    } else {
        of_picometres.unsigned_abs()
    }
}

#[tactic(auto, using(crate::proofs::Nearest::power_within))]
fn scaled(number: u64, power: u32) -> u128
    requires few { power ≤ 25 }
    requires fits { number * 10 ^ power < 2 ^ 120 }
    ensures { result ≡ number * 10 ^ power }
{
    u128::from(number) * 10u128.pow(power)
}

// The nearest number of units, or None for lengths of a metre and more.
#[tactic(auto, using(crate::proofs::Rules::nearest_rules))]
fn nearest(value: &Fixed, unit_pm: u64) -> Option<u128>
    requires some { 0 < unit_pm }
    requires small { unit_pm ≤ 1000000 }
    ensures near { IfSome result (IsNearest value.now unit_pm) }
    ensures far { IsNone result → 100000 < nearest_units value.now unit_pm }
{
    let above = power_above(value.ten);
    let below = power_below(value.ten);
    if value.digits == 0 || below > 25 {
        return Some(0);
    }
    if above > 12 {
        return None;
    }
    let parts = scaled(value.digits, above);
    let unit = scaled(unit_pm, below);
    Some((2 * parts + unit) / (2 * unit))
}

/// The number of units of `unit_pm` picometres nearest to a length, ties upward; None exactly where
/// that is above [`MOST_UNITS`].
#[tactic(auto, using(crate::proofs::Rules::snap_rules))]
pub fn snap(value: &Fixed, unit_pm: u64) -> Option<u32>
    requires some { 0 < unit_pm }
    requires small { unit_pm ≤ 1000000 }
    ensures nearest { IfSome result (IsNearest value.now unit_pm) }
    ensures number { result ≡ units_up_to MOST_UNITS value.now unit_pm }
    ensures within { IfSome result (λ s. s ≤ MOST_UNITS) }
    ensures above { IsNone result ↔ ((s : ℕ) × IsNearest value.now unit_pm s × (MOST_UNITS < s)) }
{
    match nearest(value, unit_pm) {
        None => None,
        Some(units) if units > u128::from(MOST_UNITS) => None,
        Some(units) => Some(units as u32),
    }
}
