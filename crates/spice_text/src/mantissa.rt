// Digits with at most one point.
ghost use Rattle.std.specs.Prelude.{◌≡◌, ◌≤◌, ◌<◌, ◌^◌, length, filter};
ghost use Rattle.std.specs.Char.{is_ascii_digit};
ghost use Rattle.std.specs.List.{prefix_len, count_by, list_any};
ghost use Rattle.spice_text.specs.Numbers.{is_point, is_mantissa_byte, is_mantissa, places_of};
ghost use Rattle.spice_text.specs.Numbers.{without_zeros_at_end, digits_of, spelled_number, most_digits};
ghost use Rattle.spice_text.specs.Reader.{is_significant};

fn is_mantissa_byte(byte: u8) -> bool
    ensures { result ≡ is_mantissa_byte byte }
{
    byte.is_ascii_digit() || byte == b'.'
}

/// How many digits and points a word begins with.
pub fn mantissa_length(word: &[u8]) -> usize
    ensures is { result ≡ prefix_len is_mantissa_byte word.now }
    ensures within { result ≤ length word.now }
{
    word.iter().take_while(|b| is_mantissa_byte(**b)).count()
}

fn any_digit(text: &[u8]) -> bool
    ensures { result ≡ list_any is_ascii_digit text.now }
{
    text.iter().any(|b| b.is_ascii_digit())
}

fn count_points(text: &[u8]) -> usize
    ensures { result ≡ count_by is_point text.now }
{
    text.iter().filter(|b| **b == b'.').count()
}

/// How many digits a text has.
#[tactic(auto, using(crate::proofs::Digits::digits_counted))]
pub fn count_digits(text: &[u8]) -> usize
    ensures { result ≡ length (filter is_ascii_digit text.now) }
{
    text.iter().filter(|b| b.is_ascii_digit()).count()
}

/// Whether digits and points are a mantissa: one digit at least, one point at most.
pub fn is_mantissa(text: &[u8]) -> bool
    ensures { result ≡ is_mantissa text.now }
{
    any_digit(text) && count_points(text) <= 1
}

/// The number of digits after the point.
pub fn digits_behind_point(text: &[u8]) -> usize
    ensures { result ≡ places_of text.now }
{
    for at in 0..text.len() {
        if text[at] == b'.' {
            return text.len() - at - 1;
        }
    }
    0
}

fn is_significant(byte: u8) -> bool
    ensures { result ≡ is_significant byte }
{
    b'1' <= byte && byte <= b'9'
}

/// The mantissa from the first digit on that is no zero.
#[tactic(auto, using(crate::proofs::Digits::zero_skipped))]
pub fn from_first(text: &[u8]) -> &[u8]
    ensures { filter is_ascii_digit result.now ≡ digits_of text.now }
{
    for at in 0..text.len() {
        if is_significant(text[at]) {
            return &text[at..];
        }
    }
    &[]
}

/// The mantissa up to the last digit that is no zero.
#[tactic(auto, using(crate::proofs::Digits::not_more))]
pub fn until_last(text: &[u8]) -> &[u8]
    ensures not_more { length (filter is_ascii_digit result.now) ≤ length (filter is_ascii_digit text.now) }
    ensures is { filter is_ascii_digit result.now ≡ without_zeros_at_end (filter is_ascii_digit text.now) }
{
    let mut end = text.len();
    while 0 < end {
        if is_significant(text[end - 1]) {
            return &text[..end];
        }
        end -= 1;
    }
    &[]
}

/// The number that the digits of a text spell.
#[tactic(auto, using(crate::proofs::Digits::value_before))]
pub fn spelled_number(text: &[u8]) -> u64
    requires { length (filter is_ascii_digit text.now) ≤ most_digits }
    ensures is { result ≡ spelled_number (filter is_ascii_digit text.now) }
    ensures small { result < 10 ^ most_digits }
{
    let mut value = 0;
    for byte in text {
        if byte.is_ascii_digit() {
            value = 10 * value + u64::from(*byte - b'0');
        }
    }
    value
}
