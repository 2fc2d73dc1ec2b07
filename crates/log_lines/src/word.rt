ghost use Rattle.std.specs.Prelude.{◌==◌, ◌≡◌, ◌≢◌, ◌≤◌, ◌<◌, ◌+◌, ◌↔◌, ◌∷◌, ℕ, decimal, length, map, position};
ghost use Rattle.std.specs.Prelude.{IfSome, IfNone, IfOk, IsTrue};
ghost use Rattle.log_lines.specs.Words.{is_word, number_below, parts_at, parts_left};

use arrayvec::ArrayVec;
use cell_num::{List, NoMemory};
use memchr::memchr;
use std::alloc::Global;

/// Where the byte stands first.
#[inline(never)]
#[tactic(auto, using(crate::proofs::Searches::first_byte, crate::proofs::Parts::found_within))]
pub fn find_byte(text: &[u8], byte: u8) -> Option<usize>
    ensures at { result ≡ position (λ b. b == byte) text.now }
    ensures within { IfSome result (λ at. at < length text.now) }
{
    memchr(byte, text)
}

/// The first part of a text, and what is after the byte that ends it.
#[derive(Clone, Copy)]
pub struct Part<'a> {
    pub part: &'a [u8],
    pub after: Option<&'a [u8]>,
}

/// The text up to the byte.
#[tactic(auto, using(crate::proofs::Rules::first_part_rules))]
pub fn first_part(text: &[u8], byte: u8) -> Part<'_>
    ensures parts { parts_at byte text.now ≡ result.part.now ∷ parts_left byte result.after }
    ensures less { IfSome result.after (λ after. length after.now < length text.now) }
{
    // Most counts have one digit.
    match text {
        [only] if *only != byte => {
            return Part {
                part: text,
                after: None,
            };
        }
        [first, next, after @ ..] if *first != byte && *next == byte => {
            return Part {
                part: &text[..1],
                after: Some(after),
            };
        }
        _ => {}
    }
    let Some(at) = find_byte(text, byte) else {
        return Part {
            part: text,
            after: None,
        };
    };
    Part {
        part: &text[..at],
        after: Some(&text[at + 1..]),
    }
}

/// The parts of a text between one byte and the next of its kind, where they are at most `N`.
#[tactic(auto, using(crate::proofs::Rules::few_parts_rules))]
pub fn few_parts<const N: usize>(text: &[u8], byte: u8) -> Option<ArrayVec<&[u8], N>>
    ensures some { IfSome result (λ parts. map (λ part. part.now) parts.items ≡ parts_at byte text.now) }
    ensures none { IfNone result (N < length (parts_at byte text.now)) }
{
    let mut parts = ArrayVec::new();
    let mut rest = text;
    'parts: loop {
        if parts.is_full() {
            return None;
        }
        let first = first_part(rest, byte);
        parts.push(first.part);
        let Some(after) = first.after else {
            return Some(parts);
        };
        rest = after;
    }
}

/// The parts of a text between one byte and the next of its kind, however many.
#[tactic(auto, using(crate::proofs::Parts::part_more, crate::proofs::Parts::part_last))]
pub fn all_parts(alloc: Global, text: &[u8], byte: u8) -> Result<List<&[u8]>, NoMemory>
    ensures { IfOk result (λ parts. map (λ part. part.now) parts ≡ parts_at byte text.now) }
{
    let mut parts = List::new(alloc);
    let mut rest = text;
    'parts: loop {
        let first = first_part(rest, byte);
        parts.push(first.part)?;
        let Some(after) = first.after else {
            return Ok(parts);
        };
        rest = after;
    }
}

/// Whether the word is the other one.
pub fn is_word(word: &[u8], other: &[u8]) -> bool
    ensures is { result ≡ is_word word.now other.now }
    ensures same { IsTrue result ↔ (word.now ≡ other.now) }
{
    word == other
}

fn digit(byte: u8) -> Option<u32>
    ensures some { IfSome result (λ d. (byte ≡ 48 + d) × (d < 10)) }
    ensures none { IfNone result ((d : ℕ) → d < 10 → byte ≢ 48 + d) }
{
    let digit = byte.wrapping_sub(b'0');
    if digit < 10 {
        Some(u32::from(digit))
    } else {
        None
    }
}

// The number below 1000 of which the word is the decimal.
#[tactic(auto, using(crate::proofs::Rules::number_rules))]
fn number(word: &[u8]) -> Option<u32>
    ensures some { IfSome result (λ n. word.now ≡ decimal n) }
    ensures none { IfNone result ((n : ℕ) → n < 1000 → word.now ≢ decimal n) }
{
    match word {
        [ones] => digit(*ones),
        [b'0', ..] => None,
        [tens, ones] => {
            let Some(tens) = digit(*tens) else {
                return None;
            };
            let Some(ones) = digit(*ones) else {
                return None;
            };
            Some(10 * tens + ones)
        }
        [hundreds, tens, ones] => {
            let Some(hundreds) = digit(*hundreds) else {
                return None;
            };
            let Some(tens) = digit(*tens) else {
                return None;
            };
            let Some(ones) = digit(*ones) else {
                return None;
            };
            Some(100 * hundreds + 10 * tens + ones)
        }
        _ => None,
    }
}

/// The number of which the word is the decimal, if it is below the limit: signs and zeros in front are not written.
#[tactic(auto, using(crate::proofs::Rules::number_below_rules))]
pub fn number_below(word: &[u8], limit: u32) -> Option<u32>
    requires { limit ≤ 1000 }
    ensures { result ≡ number_below limit word.now }
{
    let Some(value) = number(word) else {
        return None;
    };
    if value < limit { Some(value) } else { None }
}
