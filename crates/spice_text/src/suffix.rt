// The letters after a number, which may begin with a scale.
ghost use Rattle.std.specs.Prelude.{◌≡◌};
ghost use Rattle.std.specs.Char.{is_ascii_alphabetic};
ghost use Rattle.std.specs.List.{list_all};
ghost use Rattle.spice_text.specs.Numbers.{begins_with_letters, are_letters, first_scale, scale_of};

use std::marker::Model;

fn begins_with_letters(front: &[u8], text: &[u8]) -> bool
    ensures { result ≡ begins_with_letters front.now text.now }
{
    let begin = &text[..front.len().min(text.len())];
    begin.eq_ignore_ascii_case(front)
}

fn all_letters(text: &[u8]) -> bool
    ensures { result ≡ list_all is_ascii_alphabetic text.now }
{
    text.iter().all(|b| b.is_ascii_alphabetic())
}

/// Whether a text may follow a number: letters, none of a thousandth of an inch.
pub fn are_letters(text: &[u8]) -> bool
    ensures { result ≡ are_letters text.now }
{
    all_letters(text) && !begins_with_letters(b"mil", text)
}

/// A scale factor: letters, and the power of ten for which they stand.
#[derive(Drop)]
struct ScaleFactor {
    letters: &'static [u8],
    power: i32,
}

impl Model for ScaleFactor {
    ghost use Rattle.std.specs.Prelude.{List, ℕ, ℤ};

    ghost Value = { List ℕ × ℤ };

    ghost view = { λ s. (s.letters.now, s.power) };
}

const SCALES: [ScaleFactor; 9] = [
    ScaleFactor {
        letters: b"t",
        power: 12,
    },
    ScaleFactor {
        letters: b"g",
        power: 9,
    },
    ScaleFactor {
        letters: b"meg",
        power: 6,
    },
    ScaleFactor {
        letters: b"k",
        power: 3,
    },
    ScaleFactor {
        letters: b"m",
        power: -3,
    },
    ScaleFactor {
        letters: b"u",
        power: -6,
    },
    ScaleFactor {
        letters: b"n",
        power: -9,
    },
    ScaleFactor {
        letters: b"p",
        power: -12,
    },
    ScaleFactor {
        letters: b"f",
        power: -15,
    },
];

fn first_scale(scales: &[ScaleFactor], text: &[u8]) -> i32
    ensures { result ≡ first_scale scales.now text.now }
{
    for scale in scales {
        if begins_with_letters(scale.letters, text) {
            return scale.power;
        }
    }
    0
}

/// The power of ten of the scale that a text begins with.
pub fn scale(text: &[u8]) -> i32
    ensures { result ≡ scale_of text.now }
{
    first_scale(&SCALES, text)
}
