// The sizes and counts that the values of parameters are.
ghost use Rattle.std.specs.Prelude.{◌≡◌, option_and_then};
ghost use Rattle.spice_net.specs.Numbers.{units_of, counted, count_of, least_width};

use cell_num::{Fixed, snap};
use spice_text::read_fixed;
use tech_file::Tech;

// The least width of a finger.
const LEAST_UNITS: u64 = 6;

// The most copies of a transistor, and the most fingers that a line asks for.
const MOST_COUNTED: u64 = 64;

/// The grid units, half a lambda each, that are nearest to the length that a value is, where it is one of
/// at most 100,000 units.
pub fn units(tech: &Tech, value: &[u8]) -> Option<u32>
    ensures { result ≡ units_of tech.now value.now }
{
    tech.show_limits();
    let metres = read_fixed(value)?;
    snap(&metres, 500 * u64::from(tech.lambda_nm))
}

// the whole number that a number is, where it is one and not too large
#[tactic(auto, using(crate::proofs::Counts::some_tens))]
fn whole(number: &Fixed) -> Option<u64>
    ensures { option_and_then counted result ≡ count_of number.now }
{
    let digits = number.digits;
    let tens = 10u64.checked_pow(u32::from(number.ten.unsigned_abs()))?;
    if number.ten >= 0 {
        return digits.checked_mul(tens);
    }
    if digits % tens != 0 {
        return None;
    }
    Some(digits / tens)
}

/// The whole number from 1 to 64 that a number is, where it is one.
pub fn count(number: &Fixed) -> Option<u32>
    ensures { result ≡ count_of number.now }
{
    let whole = whole(number)?;
    if whole == 0 || whole > MOST_COUNTED {
        return None;
    }
    Some(whole as u32)
}

/// The least width, in grid units, of a transistor that is cut into N fingers, or of one that is not.
pub fn least_width(fingers: Option<u32>) -> u64
    ensures { result ≡ least_width fingers }
{
    LEAST_UNITS * u64::from(fingers.unwrap_or(1))
}
