ghost use Rattle.std.specs.Prelude.{◌≡◌, ◌≤◌, IfOk, codes, map, option_map};
ghost use Rattle.log_lines.specs.Words.{words_in};
ghost use Rattle.track_log.specs.Line.{count_in, cycle_in, fields_after, fields_in, gaps_in, lemma_in};
ghost use Rattle.track_log.specs.Line.{number_after};

use crate::MOST_TRACKS;
use crate::item::Item;
use crate::list::read_ordered;
use bound_log::{MOST_GAPS, state_of_words};
use cell_num::{List, NoMemory};
use log_lines::{few_parts, is_word, number_below};
use row_cycles::CycleLemma;
use row_state::{Kinds, State};
use std::alloc::Global;
use track_ways::TrackLemma;

fn number_after(front: &[u8], limit: u32, words: &[&[u8]]) -> Option<u32>
    requires { limit ≤ 1000 }
    ensures { result ≡ number_after front.now limit (map (λ word. word.now) words.now) }
{
    let [word, number] = words else {
        return None;
    };
    if is_word(word, front) {
        number_below(number, limit)
    } else {
        None
    }
}

/// The gaps of their line.
#[tactic(auto, using(crate::proofs::Words::long_number))]
pub(crate) fn read_gaps(line: &[u8]) -> Option<u32>
    ensures { result ≡ gaps_in (words_in line.now) }
{
    let words = few_parts::<2>(line, b' ')?;
    number_after(b"gaps", MOST_GAPS as u32 + 1, words.as_slice())
}

#[tactic(auto, using(crate::proofs::Words::long_number))]
fn read_number(line: &[u8]) -> Option<u32>
    ensures { result ≡ number_after (codes "tracks") 257 (words_in line.now) }
{
    let words = few_parts::<2>(line, b' ')?;
    number_after(b"tracks", MOST_TRACKS + 1, words.as_slice())
}

/// The tracks of their line, at least one.
pub(crate) fn read_count(line: &[u8]) -> Option<u32>
    ensures { result ≡ count_in (words_in line.now) }
{
    let tracks = read_number(line)?;
    if tracks < 1 { None } else { Some(tracks) }
}

// What a lemma's line has after its first word: further gaps, a state, and a list.
struct Fields<T> {
    gaps: u32,
    state: State,
    items: List<T>,
}

fn fields_of_words<T: Item>(
    alloc: Global,
    kinds: &Kinds,
    words: &[&[u8]],
) -> Result<Option<Fields<T>>, NoMemory>
    ensures { IfOk result (λ fields. option_map (λ f. (f.gaps, f.state, f.items)) fields
        ≡ fields_in T.said T.place kinds.now (map (λ word. word.now) words.now)) }
{
    kinds.show_limits();
    let [gaps, p_left, n_left, p_end, n_end, items] = words else {
        return Ok(None);
    };
    let Some(gaps) = number_below(gaps, MOST_GAPS as u32 + 1) else {
        return Ok(None);
    };
    let Some(state) = state_of_words(alloc, kinds, p_left, n_left, p_end, n_end)? else {
        return Ok(None);
    };
    let Some(items) = read_ordered(alloc, kinds.nets, items)? else {
        return Ok(None);
    };
    Ok(Some(Fields { gaps, state, items }))
}

fn fields_after<T: Item>(
    alloc: Global,
    front: &[u8],
    kinds: &Kinds,
    words: &[&[u8]],
) -> Result<Option<Fields<T>>, NoMemory>
    ensures { IfOk result (λ fields. option_map (λ f. (f.gaps, f.state, f.items)) fields
        ≡ fields_after front.now T.said T.place kinds.now (map (λ word. word.now) words.now)) }
{
    let [word, rest @ ..] = words else {
        return Ok(None);
    };
    if is_word(word, front) {
        let fields = fields_of_words(alloc, kinds, rest)?;
        return Ok(fields);
    }
    Ok(None)
}

#[tactic(auto, using(crate::proofs::Words::long_line))]
fn read_fields<T: Item>(
    alloc: Global,
    front: &[u8],
    kinds: &Kinds,
    line: &[u8],
) -> Result<Option<Fields<T>>, NoMemory>
    ensures { IfOk result (λ fields. option_map (λ f. (f.gaps, f.state, f.items)) fields
        ≡ fields_after front.now T.said T.place kinds.now (words_in line.now)) }
{
    let Some(words) = few_parts::<7>(line, b' ') else {
        return Ok(None);
    };
    let fields = fields_after(alloc, front, kinds, words.as_slice())?;
    Ok(fields)
}

/// The lemma on cycles of its line.
#[tactic(auto, using(crate::proofs::Words::no_lemma, crate::proofs::Words::one_lemma))]
pub(crate) fn read_cycle(
    alloc: Global,
    kinds: &Kinds,
    line: &[u8],
) -> Result<Option<CycleLemma>, NoMemory>
    ensures { IfOk result (λ lemma. lemma ≡ cycle_in kinds.now (words_in line.now)) }
{
    let Some(Fields { gaps, state, items }) = read_fields(alloc, b"cycle", kinds, line)? else {
        return Ok(None);
    };
    Ok(Some(CycleLemma {
        state,
        gaps,
        above: items,
    }))
}

/// The lemma on tracks of its line.
#[tactic(auto, using(crate::proofs::Words::no_lemma, crate::proofs::Words::one_lemma))]
pub(crate) fn read_lemma(
    alloc: Global,
    kinds: &Kinds,
    line: &[u8],
) -> Result<Option<TrackLemma>, NoMemory>
    ensures { IfOk result (λ lemma. lemma ≡ lemma_in kinds.now (words_in line.now)) }
{
    let Some(Fields { gaps, state, items }) = read_fields(alloc, b"lemma", kinds, line)? else {
        return Ok(None);
    };
    Ok(Some(TrackLemma {
        state,
        gaps,
        tracks: items,
    }))
}
