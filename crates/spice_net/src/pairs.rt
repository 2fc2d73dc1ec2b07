// The pairs of a pin and its direction in comments.
ghost use Rattle.std.specs.Prelude.{◌≡◌, drop};
ghost use Rattle.spice_net.specs.Pairs.{direction_behind, told_by, told_among, told_in, told_of};
ghost use Rattle.spice_net.specs.Parameters.{last_there};

use crate::subckt::Direction;
use cell_num::Name;
use spice_text::Line;

fn direction_behind(mark: &[u8]) -> Option<Direction>
    ensures { result ≡ direction_behind mark.now }
{
    if mark == b":i".as_slice() {
        Some(Direction::Input)
    } else if mark == b":o".as_slice() {
        Some(Direction::Output)
    } else if mark == b":b".as_slice() {
        Some(Direction::Inout)
    } else {
        None
    }
}

fn told_by(pin: &[u8], word: &[u8]) -> Option<Direction>
    ensures { result ≡ told_by pin.now word.now }
{
    direction_behind(word.strip_prefix(pin)?)
}

fn later(told: Option<Direction>, before: Option<Direction>) -> Option<Direction>
    ensures { result ≡ last_there told before }
{
    match told {
        Some(direction) => Some(direction),
        None => before,
    }
}

// what the last pair for a pin says
#[tactic(auto, using(crate::proofs::Last::word_more))]
fn told_among(pin: &[u8], words: &[Name]) -> Option<Direction>
    ensures { result ≡ told_among pin.now words.now }
{
    let mut found = None;
    for word in words {
        found = later(told_by(pin, word.as_slice()), found);
    }
    found
}

/// The words after the first.
pub fn behind_first(words: &[Name]) -> &[Name]
    ensures { result.now ≡ drop 1 words.now }
{
    match words {
        [_, behind @ ..] => behind,
        [] => &[],
    }
}

fn told_in(pin: &[u8], line: &Line) -> Option<Direction>
    ensures { result ≡ told_in pin.now line.now }
{
    if line.info {
        told_among(pin, behind_first(line.words.as_slice()))
    } else {
        None
    }
}

/// What the last line says of a pin that is a comment with a pair for it: `name:i`, `name:o` or `name:b`.
#[tactic(auto, using(crate::proofs::Last::line_more))]
pub fn told_of(lines: &[Line], pin: &[u8]) -> Option<Direction>
    ensures { result ≡ told_of lines.now pin.now }
{
    let mut found = None;
    for line in lines {
        found = later(told_in(pin, line), found);
    }
    found
}
