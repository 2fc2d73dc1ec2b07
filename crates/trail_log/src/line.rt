ghost use Rattle.std.specs.Prelude.{◌≡◌, ◌≤◌, IfOk, map};
ghost use Rattle.log_lines.specs.Words.{words_in};
ghost use Rattle.trail_log.specs.Line.{entry_in, fill_in, lemma_in, nets_behind, order_in};

use crate::listed::{increases, read_list};
use crate::ordered::{read_classes, read_odd};
use crate::{LemmaLine, MOST_ENDS, NetList, TrailEntry};
use bound_log::ending_of_words;
use cell_num::{MOST_COLUMNS, MOST_NETS, NoMemory};
use log_lines::{all_parts, is_word, number_below};
use std::alloc::Global;

fn lemma(alloc: Global, nets: u32, words: &[&[u8]]) -> Result<Option<LemmaLine>, NoMemory>
    requires { nets ≤ MOST_NETS }
    ensures { IfOk result (λ lemma. lemma ≡ lemma_in nets (map (λ word. word.now) words.now)) }
{
    let [bound, done, odd_word, free, classes_word] = words else {
        return Ok(None);
    };
    let Some(bound) = number_below(bound, MOST_ENDS + 1) else {
        return Ok(None);
    };
    if bound < 1 {
        return Ok(None);
    }
    let Some(done) = number_below(done, MOST_COLUMNS as u32) else {
        return Ok(None);
    };
    let Some(odd) = read_odd(alloc, nets, odd_word)? else {
        return Ok(None);
    };
    if !is_word(free, b"-") {
        return Ok(None);
    }
    let Some(classes) = read_classes(alloc, nets, classes_word)? else {
        return Ok(None);
    };
    Ok(Some(LemmaLine {
        bound,
        done,
        odd,
        classes,
    }))
}

fn entry_of_words(alloc: Global, nets: u32, words: &[&[u8]]) -> Result<Option<TrailEntry>, NoMemory>
    requires { nets ≤ MOST_NETS }
    ensures { IfOk result (λ entry. entry ≡ entry_in nets (map (λ word. word.now) words.now)) }
{
    let [word, rest @ ..] = words else {
        return Ok(None);
    };
    if is_word(word, b"lemma") {
        return Ok(lemma(alloc, nets, rest)?.map(TrailEntry::Lemma));
    }
    Ok(ending_of_words(words).map(TrailEntry::Ending))
}

/// What a line after the order says.
pub(crate) fn read_entry(
    alloc: Global,
    nets: u32,
    line: &[u8],
) -> Result<Option<TrailEntry>, NoMemory>
    requires { nets ≤ MOST_NETS }
    ensures { IfOk result (λ entry. entry ≡ entry_in nets (words_in line.now)) }
{
    let words = all_parts(alloc, line, b' ')?;
    let entry = entry_of_words(alloc, nets, words.as_slice())?;
    Ok(entry)
}

fn read_nets(
    alloc: Global,
    front: &[u8],
    nets: u32,
    line: &[u8],
) -> Result<Option<NetList>, NoMemory>
    requires { nets ≤ MOST_NETS }
    ensures { IfOk result (λ gates. gates ≡ nets_behind front.now nets (words_in line.now)) }
{
    let words = all_parts(alloc, line, b' ')?;
    nets_of_words(alloc, front, nets, words.as_slice())
}

fn nets_of_words(
    alloc: Global,
    front: &[u8],
    nets: u32,
    words: &[&[u8]],
) -> Result<Option<NetList>, NoMemory>
    requires { nets ≤ MOST_NETS }
    ensures { IfOk result (λ gates. gates ≡ nets_behind front.now nets (map (λ word. word.now) words.now)) }
{
    let [word, list] = words else {
        return Ok(None);
    };
    if !is_word(word, front) {
        return Ok(None);
    }
    let gates = read_list(alloc, nets, list)?;
    Ok(gates)
}

/// The filled gates of their line.
pub(crate) fn read_fill(alloc: Global, nets: u32, line: &[u8]) -> Result<Option<NetList>, NoMemory>
    requires { nets ≤ MOST_NETS }
    ensures { IfOk result (λ gates. gates ≡ fill_in nets (words_in line.now)) }
{
    let Some(gates) = read_nets(alloc, b"fill", nets, line)? else {
        return Ok(None);
    };
    if increases(gates.as_slice()) {
        Ok(Some(gates))
    } else {
        Ok(None)
    }
}

/// The gates of the line of the order.
pub(crate) fn read_order(alloc: Global, nets: u32, line: &[u8]) -> Result<Option<NetList>, NoMemory>
    requires { nets ≤ MOST_NETS }
    ensures { IfOk result (λ gates. gates ≡ order_in nets (words_in line.now)) }
{
    let gates = read_nets(alloc, b"order", nets, line)?;
    Ok(gates)
}
