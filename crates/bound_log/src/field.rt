ghost use Rattle.std.specs.Prelude.{◌≡◌, ◌≤◌, Some, None, if◌then◌else◌, length, option_map};
ghost use Rattle.log_lines.specs.Words.{number_below};
ghost use Rattle.bound_log.specs.Line.{end_in, flip_in, place_in, rule_in, side_in};

use crate::Rule;
use cell_num::{MOST_COLUMNS, MOST_NETS, NetNo};
use log_lines::{is_word, number_below};
use row_state::{Kind, Side};

pub(crate) fn rule(word: &[u8]) -> Option<Rule>
    ensures { result ≡ rule_in word.now }
{
    if is_word(word, b"P") {
        Some(Rule::P)
    } else if is_word(word, b"N") {
        Some(Rule::N)
    } else if is_word(word, b"B") {
        Some(Rule::Branch)
    } else {
        None
    }
}

pub(crate) fn end(word: &[u8], nets: u32) -> Option<Option<NetNo>>
    requires { nets ≤ MOST_NETS }
    ensures { result ≡ end_in nets word.now }
{
    if is_word(word, b"-") {
        return Some(None);
    }
    match number_below(word, nets) {
        Some(net) => Some(Some(NetNo(net))),
        None => None,
    }
}

fn flip(word: &[u8]) -> Option<bool>
    ensures { result ≡ flip_in word.now }
{
    if is_word(word, b"0") {
        Some(false)
    } else if is_word(word, b"1") {
        Some(true)
    } else {
        None
    }
}

fn no_side(flipped: bool) -> Option<Option<Side>>
    ensures { result ≡ (if flipped then None else Some None) }
{
    if flipped { None } else { Some(None) }
}

fn some_side(word: &[u8], kinds: usize, flipped: bool) -> Option<Option<Side>>
    requires { kinds ≤ MOST_COLUMNS }
    ensures { result ≡ option_map (λ n. Some (record { kind = n; flipped = flipped })) (number_below kinds word.now) }
{
    match number_below(word, kinds as u32) {
        Some(kind) => Some(Some(Side { kind, flipped })),
        None => None,
    }
}

fn place(kinds: &[Kind], word: &[u8], flipped: bool) -> Option<Option<Side>>
    requires { length kinds.now ≤ MOST_COLUMNS }
    ensures { result ≡ place_in kinds.now word.now flipped }
{
    if is_word(word, b"-") {
        no_side(flipped)
    } else {
        some_side(word, kinds.len(), flipped)
    }
}

pub(crate) fn side(kinds: &[Kind], word: &[u8], flip_word: &[u8]) -> Option<Option<Side>>
    requires { length kinds.now ≤ MOST_COLUMNS }
    ensures { result ≡ side_in kinds.now word.now flip_word.now }
{
    let flipped = flip(flip_word)?;
    place(kinds, word, flipped)
}
