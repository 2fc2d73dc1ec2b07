ghost use Rattle.std.specs.Prelude.{◌≡◌, [], IfOk, IsTrue, map};
ghost use Rattle.row_state.specs.Tests.{counts_fit, end_fits, state_test};
ghost use Rattle.log_lines.specs.Words.{parts_at, words_in};
ghost use Rattle.bound_log.specs.Line.{FewOfEach, column_in, counts_each, counts_in, ending_in, entry_in, gaps_in};
ghost use Rattle.bound_log.specs.Line.{lemma_in, state_in, step_in};

use crate::field::{end, rule, side};
use crate::{Ending, Entry, Lemma, LogStep, MOST_GAPS};
use cell_num::{NetNo, NoMemory};
use log_lines::{few_parts, first_part, is_word, number_below};
use row_state::{Counts, Kind, Kinds, State, Step, has_leads};
use std::alloc::Global;

#[tactic(auto, using(crate::proofs::Rules::some_counts_rules))]
fn some_counts(alloc: Global, kinds: &[Kind], word: &[u8]) -> Result<Option<Counts>, NoMemory>
    requires { FewOfEach kinds.now }
    ensures { IfOk result (λ counts. counts ≡ counts_each kinds.now (parts_at 44 word.now)) }
{
    let mut counts = Counts::from_vec(Vec::with_capacity(alloc, kinds.len())?);
    let mut rest = Some(word);
    for at in 0..kinds.len() {
        let Some(text) = rest else {
            return Ok(None);
        };
        let first = first_part(text, b',');
        let Some(count) = number_below(first.part, kinds[at].count + 1) else {
            return Ok(None);
        };
        counts.push(count)?;
        rest = first.after;
    }
    match rest {
        Some(_) => Ok(None),
        None => Ok(Some(counts)),
    }
}

fn no_counts(alloc: Global, word: &[u8]) -> Option<Counts>
    ensures { result ≡ counts_in [] word.now }
{
    if is_word(word, b"-") {
        Some(Counts::new(alloc))
    } else {
        None
    }
}

fn counts(alloc: Global, kinds: &[Kind], word: &[u8]) -> Result<Option<Counts>, NoMemory>
    requires { FewOfEach kinds.now }
    ensures { IfOk result (λ counts. counts ≡ counts_in kinds.now word.now) }
{
    match kinds {
        [] => Ok(no_counts(alloc, word)),
        [_, ..] => some_counts(alloc, kinds, word),
    }
}

// Whether the state is valid, where its counts and ends are in range.
#[tactic(auto, using(crate::proofs::States::is_tested))]
fn is_valid(state: &State, kinds: &Kinds) -> bool
    requires p_left { IsTrue (counts_fit kinds.now.p state.now.p_left) }
    requires n_left { IsTrue (counts_fit kinds.now.n state.now.n_left) }
    requires p_end { IsTrue (end_fits state.now.p_end kinds.now.nets) }
    requires n_end { IsTrue (end_fits state.now.n_end kinds.now.nets) }
    ensures { result ≡ state_test kinds.now state.now }
{
    has_leads(state, kinds)
}

/// A valid state, by its four words: the counts left of each row, and the open end of each.
#[tactic(auto, using(crate::proofs::Counts::few_of_each))]
pub fn state_of_words(
    alloc: Global,
    kinds: &Kinds,
    p_left: &[u8],
    n_left: &[u8],
    p_end: &[u8],
    n_end: &[u8],
) -> Result<Option<State>, NoMemory>
    ensures { IfOk result (λ state. state ≡ state_in kinds.now p_left.now n_left.now p_end.now n_end.now) }
{
    let Some(p_left) = counts(alloc, kinds.p.as_slice(), p_left)? else {
        return Ok(None);
    };
    let Some(n_left) = counts(alloc, kinds.n.as_slice(), n_left)? else {
        return Ok(None);
    };
    let Some(p_end) = end(p_end, kinds.nets) else {
        return Ok(None);
    };
    let Some(n_end) = end(n_end, kinds.nets) else {
        return Ok(None);
    };
    let state = State {
        p_left,
        n_left,
        p_end,
        n_end,
    };
    if is_valid(&state, kinds) {
        Ok(Some(state))
    } else {
        Ok(None)
    }
}

fn lemma(alloc: Global, kinds: &Kinds, words: &[&[u8]]) -> Result<Option<Lemma>, NoMemory>
    ensures { IfOk result (λ lemma. lemma ≡ lemma_in kinds.now (map (λ word. word.now) words.now)) }
{
    let [bound, reason, p_left, n_left, p_end, n_end] = words else {
        return Ok(None);
    };
    let Some(bound) = number_below(bound, MOST_GAPS as u32 + 1) else {
        return Ok(None);
    };
    if bound < 1 {
        return Ok(None);
    }
    let Some(rule) = rule(reason) else {
        return Ok(None);
    };
    let Some(state) = state_of_words(alloc, kinds, p_left, n_left, p_end, n_end)? else {
        return Ok(None);
    };
    Ok(Some(Lemma { state, bound, rule }))
}

fn gaps_of_words(words: &[&[u8]]) -> Option<u32>
    ensures { result ≡ gaps_in (map (λ word. word.now) words.now) }
{
    match words {
        [gaps] => number_below(gaps, MOST_GAPS as u32 + 1),
        _ => None,
    }
}

fn step(kinds: &Kinds, words: &[&[u8]]) -> Option<LogStep>
    ensures { result ≡ step_in kinds.now (map (λ word. word.now) words.now) }
{
    let [gate, p_kind, p_flip, n_kind, n_flip] = words else {
        return None;
    };
    let gate = number_below(gate, kinds.nets)?;
    let p = side(kinds.p.as_slice(), p_kind, p_flip)?;
    let n = side(kinds.n.as_slice(), n_kind, n_flip)?;
    if p.is_none() && n.is_none() {
        return None;
    }
    Some(LogStep {
        gate: NetNo(gate),
        step: Step { p, n },
    })
}

/// The line after the lemmas, by its words: `gaps` and one number, of at most [`MOST_GAPS`], or `open`.
pub fn ending_of_words(words: &[&[u8]]) -> Option<Ending>
    ensures { result ≡ ending_in (map (λ word. word.now) words.now) }
{
    let [word, rest @ ..] = words else {
        return None;
    };
    if is_word(word, b"gaps") {
        return gaps_of_words(rest).map(Ending::Gaps);
    }
    if is_word(word, b"open") && rest.is_empty() {
        return Some(Ending::Open);
    }
    None
}

fn entry_of_words(alloc: Global, kinds: &Kinds, words: &[&[u8]]) -> Result<Option<Entry>, NoMemory>
    ensures { IfOk result (λ entry. entry ≡ entry_in kinds.now (map (λ word. word.now) words.now)) }
{
    let [word, rest @ ..] = words else {
        return Ok(None);
    };
    if is_word(word, b"lemma") {
        return Ok(lemma(alloc, kinds, rest)?.map(Entry::Lemma));
    }
    Ok(ending_of_words(words).map(Entry::Ending))
}

fn column_of_words(kinds: &Kinds, words: &[&[u8]]) -> Option<LogStep>
    ensures { result ≡ column_in kinds.now (map (λ word. word.now) words.now) }
{
    let [word, rest @ ..] = words else {
        return None;
    };
    if is_word(word, b"column") {
        step(kinds, rest)
    } else {
        None
    }
}

#[tactic(auto, using(crate::proofs::Only::long_entry))]
pub(crate) fn read_entry(
    alloc: Global,
    kinds: &Kinds,
    line: &[u8],
) -> Result<Option<Entry>, NoMemory>
    ensures { IfOk result (λ entry. entry ≡ entry_in kinds.now (words_in line.now)) }
{
    kinds.show_limits();
    let Some(words) = few_parts::<7>(line, b' ') else {
        return Ok(None);
    };
    let entry = entry_of_words(alloc, kinds, words.as_slice())?;
    Ok(entry)
}

#[tactic(auto, using(crate::proofs::Only::long_column))]
pub(crate) fn read_column(kinds: &Kinds, line: &[u8]) -> Option<LogStep>
    ensures { result ≡ column_in kinds.now (words_in line.now) }
{
    let words = few_parts::<6>(line, b' ')?;
    column_of_words(kinds, words.as_slice())
}
