ghost use Rattle.std.specs.Prelude.{◌≡◌};
ghost use Rattle.call_words.specs.Asked.{texts};
ghost use Rattle.call_words.specs.Options.{style_of, taps_of, wiring_of};

use cell_inputs::{Style, Taps, Wiring};

// The wiring, and the words after `--dogleg` where it comes first.
fn wiring_of(words: &[String]) -> (Wiring, &[String])
    ensures wiring { result.0 ≡ (wiring_of (texts words.now)).0 }
    ensures rest { texts result.1.now ≡ (wiring_of (texts words.now)).1 }
{
    match words {
        [word, more @ ..] if word.as_str() == "--dogleg" => (Wiring::Doglegs, more),
        _ => (Wiring::Straight, words),
    }
}

// The taps, and the words after `--taps` where it comes first.
fn taps_of(words: &[String]) -> (Taps, &[String])
    ensures taps { result.0 ≡ (taps_of (texts words.now)).0 }
    ensures rest { texts result.1.now ≡ (taps_of (texts words.now)).1 }
{
    match words {
        [word, more @ ..] if word.as_str() == "--taps" => (Taps::With, more),
        _ => (Taps::Without, words),
    }
}

/// The style that `--dogleg` and `--taps` ask for, in this order, and the words after them.
pub(crate) fn style_of(words: &[String]) -> (Style, &[String])
    ensures style { result.0 ≡ style_of (texts words.now) }
    ensures rest { texts result.1.now ≡ (taps_of (wiring_of (texts words.now)).1).1 }
{
    let (wiring, words) = wiring_of(words);
    let (taps, words) = taps_of(words);
    (Style { wiring, taps }, words)
}
