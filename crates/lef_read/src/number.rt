ghost use Rattle.std.specs.Prelude.{◌≡◌, ◌≤◌, ◌*◌, ◌<◌, IfSome, IfNone, ℤ, pos, neg_ℤ, ◌≤ℤ◌};
ghost use Rattle.std.specs.List.{list_all};
ghost use Rattle.std.specs.Char.{is_ascii_digit};
ghost use Rattle.lef_read.specs.Numbers.{before_point, behind_point, digit_at, is_number, is_zero};
ghost use Rattle.lef_read.specs.Numbers.{length_of, nanometres_of, thousandths, zeros_behind, whole_after};

/// The most microns of a number.
const MOST_MICRONS: u32 = 1_000_000;

fn before_point(word: &[u8]) -> &[u8]
    ensures { result.now ≡ before_point word.now }
{
    for at in 0..word.len() {
        if word[at] == b'.' {
            return &word[..at];
        }
    }
    word
}

fn behind_point(word: &[u8]) -> &[u8]
    ensures { result.now ≡ behind_point word.now }
{
    for at in 0..word.len() {
        if word[at] == b'.' {
            return &word[at + 1..];
        }
    }
    &[]
}

fn are_digits(text: &[u8]) -> bool
    ensures { result ≡ list_all is_ascii_digit text.now }
{
    text.iter().all(|b| b.is_ascii_digit())
}

fn are_zeros(text: &[u8]) -> bool
    ensures { result ≡ list_all is_zero text.now }
{
    text.iter().all(|b| *b == b'0')
}

// Whether zeros alone follow the third decimal.
fn few_decimals(tail: &[u8]) -> bool
    ensures { result ≡ zeros_behind tail.now }
{
    if tail.len() <= 3 {
        return true;
    }
    are_zeros(&tail[3..])
}

fn is_number(whole: &[u8], tail: &[u8]) -> bool
    ensures { result ≡ is_number whole.now tail.now }
{
    are_digits(whole)
        && are_digits(tail)
        && !(whole.is_empty() && tail.is_empty())
        && few_decimals(tail)
}

// Whole microns by their digits, if there are not too many.
#[tactic(auto, using(crate::proofs::Digits::too_many))]
fn microns(digits: &[u8]) -> Option<u32>
    ensures some { IfSome result (λ n. (n ≡ whole_after 0 digits.now) × (n ≤ 1000000)) }
    ensures none { IfNone result (1000000 < whole_after 0 digits.now) }
{
    let mut value = 0;
    for digit in digits {
        value = 10 * value + u32::from(digit.saturating_sub(b'0'));
        if MOST_MICRONS < value {
            return None;
        }
    }
    Some(value)
}

fn digit_at(tail: &[u8], at: usize) -> u32
    ensures { result ≡ digit_at tail.now at }
{
    match tail.get(at) {
        Some(digit) => u32::from(digit.saturating_sub(b'0')),
        None => 0,
    }
}

fn thousandths(tail: &[u8]) -> u32
    ensures { result ≡ thousandths tail.now }
{
    100 * digit_at(tail, 0) + 10 * digit_at(tail, 1) + digit_at(tail, 2)
}

// A length without a sign, in nanometres.
#[tactic(auto, using(crate::proofs::Digits::length_rules))]
fn length(word: &[u8]) -> Option<u32>
    ensures is { result ≡ length_of word.now }
    ensures most { IfSome result (λ nm. nm ≤ 1000000000) }
{
    let whole = before_point(word);
    let tail = behind_point(word);
    if !is_number(whole, tail) {
        return None;
    }
    let nanometres = 1000 * microns(whole)? + thousandths(tail);
    if nanometres <= 1000 * MOST_MICRONS {
        Some(nanometres)
    } else {
        None
    }
}

/// The nanometres of a number of microns: digits with at most one point, after a `-` or without it, zeros
/// alone after the third decimal, and at most 1,000,000 microns.
#[tactic(auto, unfolding(crate::specs::Numbers::nanometres_of))]
pub fn nanometres(word: &[u8]) -> Option<i32>
    ensures is { result ≡ nanometres_of word.now }
    ensures least { IfSome result (λ z. neg_ℤ (pos 1000000000) ≤ℤ z) }
    ensures most { IfSome result (λ z. z ≤ℤ pos 1000000000) }
{
    match word {
        [] => None,
        [b'-', digits @ ..] => {
            let size = length(digits)?;
            Some(-(size as i32))
        }
        _ => {
            let size = length(word)?;
            Some(size as i32)
        }
    }
}
