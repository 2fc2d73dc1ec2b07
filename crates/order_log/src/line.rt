ghost use Rattle.std.specs.Prelude.{◌≡◌, ◌≤◌, IfOk, map};
ghost use Rattle.log_lines.specs.Words.{words_in};
ghost use Rattle.trail_log.specs.Line.{fill_in, nets_behind, order_in};
ghost use Rattle.order_log.specs.Reading.{entry_in};

use crate::list::{increases, read_list};
use crate::{LemmaText, OrderEntry};
use bound_log::ending_of_words;
use cell_num::{MOST_NETS, NoMemory};
use log_lines::{all_parts, is_word};
use std::alloc::Global;
use trail_log::NetList;

fn entry_of_words<L: LemmaText>(
    alloc: Global,
    nets: u32,
    words: &[&[u8]],
) -> Result<Option<OrderEntry<L>>, NoMemory>
    requires { nets ≤ MOST_NETS }
    ensures { IfOk result (λ entry. entry ≡ entry_in (L.said nets) (map (λ word. word.now) words.now)) }
{
    let [word, rest @ ..] = words else {
        return Ok(None);
    };
    if is_word(word, b"lemma") {
        return match L::read(alloc, nets, rest)? {
            Some(lemma) => Ok(Some(OrderEntry::Lemma(lemma))),
            None => Ok(None),
        };
    }
    match ending_of_words(words) {
        Some(ending) => Ok(Some(OrderEntry::Ending(ending))),
        None => Ok(None),
    }
}

/// What a line after the order says.
pub(crate) fn read_entry<L: LemmaText>(
    alloc: Global,
    nets: u32,
    line: &[u8],
) -> Result<Option<OrderEntry<L>>, NoMemory>
    requires { nets ≤ MOST_NETS }
    ensures { IfOk result (λ entry. entry ≡ entry_in (L.said nets) (words_in line.now)) }
{
    let words = all_parts(alloc, line, b' ')?;
    let entry = entry_of_words(alloc, nets, words.as_slice())?;
    Ok(entry)
}

fn nets_of_words(
    alloc: Global,
    front: &[u8],
    nets: u32,
    words: &[&[u8]],
) -> Result<Option<NetList>, NoMemory>
    requires { nets ≤ MOST_NETS }
    ensures { IfOk result (λ gates. gates ≡ nets_behind front.now nets (map (λ word. word.now) words.now)) }
{
    let [word, list] = words else {
        return Ok(None);
    };
    if !is_word(word, front) {
        return Ok(None);
    }
    let gates = read_list(alloc, nets, list)?;
    Ok(gates)
}

fn read_nets(
    alloc: Global,
    front: &[u8],
    nets: u32,
    line: &[u8],
) -> Result<Option<NetList>, NoMemory>
    requires { nets ≤ MOST_NETS }
    ensures { IfOk result (λ gates. gates ≡ nets_behind front.now nets (words_in line.now)) }
{
    let words = all_parts(alloc, line, b' ')?;
    nets_of_words(alloc, front, nets, words.as_slice())
}

/// The filled gates of their line.
pub(crate) fn read_fill(alloc: Global, nets: u32, line: &[u8]) -> Result<Option<NetList>, NoMemory>
    requires { nets ≤ MOST_NETS }
    ensures { IfOk result (λ gates. gates ≡ fill_in nets (words_in line.now)) }
{
    let Some(gates) = read_nets(alloc, b"fill", nets, line)? else {
        return Ok(None);
    };
    if increases(gates.as_slice()) {
        Ok(Some(gates))
    } else {
        Ok(None)
    }
}

/// The gates of the line of the order.
pub(crate) fn read_order(alloc: Global, nets: u32, line: &[u8]) -> Result<Option<NetList>, NoMemory>
    requires { nets ≤ MOST_NETS }
    ensures { IfOk result (λ gates. gates ≡ order_in nets (words_in line.now)) }
{
    let gates = read_nets(alloc, b"order", nets, line)?;
    Ok(gates)
}
