ghost use Rattle.std.specs.Prelude.{◌≡◌, ◌+ℤ◌, ◌-ℤ◌, filter, pos};
ghost use Rattle.std.specs.Char.{is_ascii_digit};
ghost use Rattle.spice_text.specs.Numbers.{within_most, fixed_from, fixed_of_parts, fixed_of};

use crate::exponent::{behind_exponent, exponent};
use crate::mantissa::{
    count_digits, digits_behind_point, from_first, is_mantissa, mantissa_length, spelled_number,
    until_last,
};
use crate::suffix::{are_letters, scale};
use cell_num::Fixed;

// The most digits of a number, without the zeros around them.
const MOST_DIGITS: usize = 18;

// The greatest power of ten of a number; the least is its negative.
const MOST_POWER: i128 = 60;

fn power(exponent: i64, scale: i32, places: usize, zeros: usize) -> i128
    ensures { result ≡ exponent +ℤ scale -ℤ pos places +ℤ pos zeros }
{
    i128::from(exponent) + i128::from(scale) - i128::from(places as u64) + i128::from(zeros as u64)
}

// a power that a number may have
fn ten(power: i128) -> Option<i8>
    ensures { result ≡ within_most power }
{
    if -MOST_POWER <= power && power <= MOST_POWER {
        Some(power as i8)
    } else {
        None
    }
}

fn fixed(kept: &[u8], power: i128) -> Option<Fixed>
    ensures { result ≡ fixed_from (filter is_ascii_digit kept.now) power }
{
    let count = count_digits(kept);
    if count == 0 {
        return Some(Fixed { digits: 0, ten: 0 });
    }
    if MOST_DIGITS < count {
        return None;
    }
    let ten = ten(power)?;
    Some(Fixed {
        digits: spelled_number(kept),
        ten,
    })
}

fn fixed_of_parts(mantissa: &[u8], rest: &[u8]) -> Option<Fixed>
    ensures { result ≡ fixed_of_parts mantissa.now rest.now }
{
    let behind = behind_exponent(rest);
    if !is_mantissa(mantissa) || !are_letters(behind) {
        return None;
    }
    let digits = from_first(mantissa);
    let kept = until_last(digits);
    let zeros = count_digits(digits) - count_digits(kept);
    let places = digits_behind_point(mantissa);
    fixed(kept, power(exponent(rest), scale(behind), places, zeros))
}

/// The number that a word spells; None where it spells none. It has these parts, in this order:
///
/// - Digits with at most one point, one digit at least.
/// - An exponent, which may be absent: `e`, a sign that may be absent, one or two digits. `e` begins
///   an exponent only where a digit, or a sign and a digit, follows.
/// - Letters, which may be absent. They may begin with a scale: `t` 10^12, `g` 10^9, `meg` 10^6,
///   `k` 10^3, `m` 10^-3, `u` 10^-6, `n` 10^-9, `p` 10^-12, `f` 10^-15. Other letters say nothing, but
///   those that begin with `mil` spell no number.
///
/// Letters are read in either case. The answer's digits neither begin nor end with a zero, and zero is
/// `0 * 10^0`. None also where more than 18 digits are left, or the power is outside -60 to 60.
pub fn read_fixed(word: &[u8]) -> Option<Fixed>
    ensures { result ≡ fixed_of word.now }
{
    let at = mantissa_length(word);
    fixed_of_parts(&word[..at], &word[at..])
}
