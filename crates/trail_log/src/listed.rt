ghost use Rattle.std.specs.Prelude.{◌≡◌, ◌≤◌, ℕ, IfOk, List as Sequence, Option, map};
ghost use Rattle.std.specs.List.{join_with_byte};
ghost use Rattle.trail_log.specs.Listed.{each_in, list_in};
ghost use Rattle.trail_log.specs.Order.{increases};
ghost use Rattle.trail_log.specs.Spelling.{list_text};
ghost use Rattle.log_lines.specs.Words.{parts_at};

use crate::text::joined;
use cell_num::{Bytes, List, MOST_NETS, Names, NoMemory, copy};
use log_lines::{all_parts, is_word};
use std::alloc::Global;

/// What the lists of a certificate hold.
pub trait Listed: Drop + Sized {
    /// How it is written.
    ghost spelling: { Self → Sequence ℕ };

    /// What the word says, over this number of nets.
    ghost said: { ℕ → Sequence ℕ → Option Self };

    /// Its place among others.
    ghost place: { Self → ℕ };

    fn read(alloc: Global, nets: u32, word: &[u8]) -> Result<Option<Self>, NoMemory>
        requires { nets ≤ MOST_NETS }
        ensures { IfOk result (λ item. item ≡ said nets word.now) };

    fn text(&self, alloc: Global) -> Result<Bytes, NoMemory>
        ensures { IfOk result (λ bytes. bytes ≡ spelling self.now) };

    fn rank(&self) -> u64
        ensures { result ≡ place self.now };
}

/// One item of each word, where each is one.
#[tactic(auto, using(crate::proofs::Each::no_item, crate::proofs::Each::one_item, crate::proofs::Each::all_items))]
fn each_of<T: Listed>(
    alloc: Global,
    nets: u32,
    words: &[&[u8]],
) -> Result<Option<List<T>>, NoMemory>
    requires { nets ≤ MOST_NETS }
    ensures { IfOk result (λ items. items ≡ each_in (T.said nets) (map (λ word. word.now) words.now)) }
{
    let mut items = List::new(alloc);
    for word in words {
        let Some(item) = T::read(alloc, nets, word)? else {
            return Ok(None);
        };
        items.push(item)?;
    }
    Ok(Some(items))
}

/// One item of each part between one byte and the next of its kind, where each is one.
pub(crate) fn read_each<T: Listed>(
    alloc: Global,
    nets: u32,
    byte: u8,
    text: &[u8],
) -> Result<Option<List<T>>, NoMemory>
    requires { nets ≤ MOST_NETS }
    ensures { IfOk result (λ items. items ≡ each_in (T.said nets) (parts_at byte text.now)) }
{
    let words = all_parts(alloc, text, byte)?;
    let items = each_of(alloc, nets, words.as_slice())?;
    Ok(items)
}

/// The items with commas between them; `-` for none.
pub(crate) fn read_list<T: Listed>(
    alloc: Global,
    nets: u32,
    text: &[u8],
) -> Result<Option<List<T>>, NoMemory>
    requires { nets ≤ MOST_NETS }
    ensures { IfOk result (λ items. items ≡ list_in 44 (T.said nets) text.now) }
{
    if is_word(text, b"-") {
        return Ok(Some(List::new(alloc)));
    }
    let items = read_each(alloc, nets, b',', text)?;
    Ok(items)
}

fn texts<T: Listed>(alloc: Global, items: &[T]) -> Result<Names, NoMemory>
    ensures { IfOk result (λ words. words ≡ map T.spelling items.now) }
{
    let mut words = Names::new(alloc);
    for item in items {
        words.push(item.text(alloc)?)?;
    }
    Ok(words)
}

/// The items with a byte between each two.
pub(crate) fn each_text<T: Listed>(alloc: Global, byte: u8, items: &[T]) -> Result<Bytes, NoMemory>
    ensures { IfOk result (λ text. text ≡ join_with_byte byte (map T.spelling items.now)) }
{
    let words = texts(alloc, items)?;
    let text = joined(alloc, byte, words.as_slice())?;
    Ok(text)
}

/// The items with commas between them; `-` for none.
pub(crate) fn list_text<T: Listed>(alloc: Global, items: &[T]) -> Result<Bytes, NoMemory>
    ensures { IfOk result (λ text. text ≡ list_text 44 (map T.spelling items.now)) }
{
    if items.is_empty() {
        return Ok(copy(alloc, b"-")?);
    }
    let text = each_text(alloc, b',', items)?;
    Ok(text)
}

/// Whether each is before the next.
pub(crate) fn increases<T: Listed>(items: &[T]) -> bool
    ensures { result ≡ increases T.place items.now }
{
    let Some((_, rest)) = items.split_first() else {
        return true;
    };
    items
        .iter()
        .zip(rest.iter())
        .all(|pair| pair.0.rank() < pair.1.rank())
}
