// An exponent: `e`, a sign that may be absent, one or two digits.
ghost use Rattle.std.specs.Prelude.{◌≡◌, ◌≤◌, ◌<◌, ◌^◌, length, filter};
ghost use Rattle.std.specs.Char.{is_ascii_digit};
ghost use Rattle.std.specs.List.{prefix_len};
ghost use Rattle.spice_text.specs.Numbers.{begins_with_minus, behind_sign, exponent_digits, has_exponent};
ghost use Rattle.spice_text.specs.Numbers.{exponent_of, behind_exponent, signed, most_digits};

use crate::mantissa::spelled_number;

fn begins_with_minus(text: &[u8]) -> bool
    ensures { result ≡ begins_with_minus text.now }
{
    match text {
        [b'-', ..] => true,
        _ => false,
    }
}

fn behind_sign(text: &[u8]) -> &[u8]
    ensures { result.now ≡ behind_sign text.now }
{
    match text {
        [b'+' | b'-', rest @ ..] => rest,
        _ => text,
    }
}

fn digits_length(text: &[u8]) -> usize
    ensures { result ≡ prefix_len is_ascii_digit text.now }
{
    text.iter().take_while(|b| b.is_ascii_digit()).count()
}

#[tactic(auto, using(crate::proofs::Digits::all_kept))]
fn exponent_digits(text: &[u8]) -> &[u8]
    ensures is { result.now ≡ exponent_digits text.now }
    ensures all { filter is_ascii_digit result.now ≡ result.now }
    ensures few { length result.now ≤ 2 }
{
    let front = &text[..text.len().min(2)];
    &front[..digits_length(front)]
}

fn has_exponent(text: &[u8]) -> bool
    ensures { result ≡ has_exponent text.now }
{
    match text {
        [b'e' | b'E', rest @ ..] => !exponent_digits(behind_sign(rest)).is_empty(),
        _ => false,
    }
}

fn signed(minus: bool, number: u64) -> i64
    requires { number < 10 ^ most_digits }
    ensures { result ≡ signed minus number }
{
    if minus {
        -(number as i64)
    } else {
        number as i64
    }
}

/// The exponent at the start of a text, 0 where there is none.
pub fn exponent(text: &[u8]) -> i64
    ensures { result ≡ exponent_of text.now }
{
    if !has_exponent(text) {
        return 0;
    }
    let signed_digits = &text[1..];
    let digits = exponent_digits(behind_sign(signed_digits));
    signed(begins_with_minus(signed_digits), spelled_number(digits))
}

/// What follows the exponent at the beginning of a text.
pub fn behind_exponent(text: &[u8]) -> &[u8]
    ensures { result.now ≡ behind_exponent text.now }
{
    if !has_exponent(text) {
        return text;
    }
    let unsigned = behind_sign(&text[1..]);
    &unsigned[exponent_digits(unsigned).len()..]
}
