// The eight-byte reals of the format.

ghost use Rattle.std.specs.Prelude.{◌≡◌, ◌≤◌, ◌<◌, ◌+◌, ◌*◌, ◌%◌, ◌^◌, ◌==◌, length};
ghost use Rattle.gds_read.specs.Real.{nearest, within, picometres_of, picometres_at, word_at, is_whole, is_zero};

const LIMIT: u64 = 1_000_000_000_000_000_000;

// fraction * 16 ^ exponent / 16 ^ 78, times 10 ^ 12
#[tactic(auto, using(crate::proofs::Nearest::nearest_rules))]
fn scaled(fraction: u64, exponent: u64) -> u64
    requires fraction { fraction < 2 ^ 56 }
    requires exponent { exponent < 128 }
    ensures { result ≡ within (nearest fraction exponent) }
{
    let value = u128::from(fraction) * 1_000_000_000_000;
    if exponent <= 53 {
        0
    } else if exponent < 78 {
        let unit = sixteen_to(78 - exponent);
        limited((2 * value + unit) / (2 * unit))
    } else if exponent < 83 {
        limited(value * sixteen_to(exponent - 78))
    } else if fraction == 0 {
        0
    } else {
        LIMIT
    }
}

#[tactic(auto, using(crate::proofs::Nearest::power_rules))]
fn sixteen_to(power: u64) -> u128
    requires { power < 25 }
    ensures value { result ≡ 16 ^ power }
    ensures positive { 0 < result }
    ensures limit { result ≤ 16 ^ 24 }
    ensures small { power < 5 → result ≤ 16 ^ 4 }
{
    16u128.pow(power as u32)
}

fn limited(value: u128) -> u64
    ensures { result ≡ within value }
{
    if value < 1_000_000_000_000_000_000 {
        value as u64
    } else {
        LIMIT
    }
}

/// The picometres of a real of metres.
pub fn picometres(word: u64) -> u64
    ensures { result ≡ picometres_of word }
{
    if word < 0x8000_0000_0000_0000 {
        scaled(word % 0x100_0000_0000_0000, word / 0x100_0000_0000_0000)
    } else {
        0
    }
}

/// The eight bytes at a place as one number, the high byte first.
pub fn word_at(bytes: &[u8], at: usize) -> u64
    requires { at + 8 ≤ length bytes.now }
    ensures { result ≡ word_at bytes.now at }
{
    u64::from_be_bytes([
        bytes[at],
        bytes[at + 1],
        bytes[at + 2],
        bytes[at + 3],
        bytes[at + 4],
        bytes[at + 5],
        bytes[at + 6],
        bytes[at + 7],
    ])
}

/// The picometres of a real of metres at a place.
pub fn picometres_at_place(bytes: &[u8], at: usize) -> u64
    requires { at + 8 ≤ length bytes.now }
    ensures { result ≡ picometres_at bytes.now at }
{
    picometres(word_at(bytes, at))
}

#[tactic(auto, using(crate::proofs::Reals::too_small, crate::proofs::Reals::too_large, crate::proofs::Reals::as_whole))]
fn same_number(value: u16, fraction: u64, exponent: u64) -> bool
    requires value { 0 < value }
    requires odd { value % 16 ≡ 0 → ⊥ }
    requires fraction { fraction < 2 ^ 56 }
    requires exponent { exponent < 128 }
    ensures { result ≡ (fraction * 16 ^ exponent == value * 16 ^ 78) }
{
    if exponent <= 53 || 78 < exponent {
        return false;
    }
    u128::from(fraction) == u128::from(value) * sixteen_to(78 - exponent)
}

/// Whether a real is a whole number that sixteen does not divide.
pub fn whole(value: u16, word: u64) -> bool
    requires value { 0 < value }
    requires odd { value % 16 ≡ 0 → ⊥ }
    ensures { result ≡ is_whole value word }
{
    if 0x8000_0000_0000_0000 <= word {
        return false;
    }
    same_number(
        value,
        word % 0x100_0000_0000_0000,
        word / 0x100_0000_0000_0000,
    )
}

/// Whether a real is 0.
pub fn zero(word: u64) -> bool
    ensures { result ≡ is_zero word }
{
    word % 0x100_0000_0000_0000 == 0
}
