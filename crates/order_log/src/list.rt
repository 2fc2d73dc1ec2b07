ghost use Rattle.std.specs.Prelude.{◌≡◌, ◌≤◌, ◌++◌, ◌∷◌, IfOk, OnOk, flat_map, map};
ghost use Rattle.std.specs.List.{join_with_byte};
ghost use Rattle.log_lines.specs.Words.{parts_at};
ghost use Rattle.trail_log.specs.Listed.{each_in, list_in};
ghost use Rattle.trail_log.specs.Order.{increases};
ghost use Rattle.trail_log.specs.Spelling.{list_text};
ghost use Rattle.order_log.specs.Lists.{ordered_in};

use crate::item::Item;
use cell_num::{Bytes, List, MOST_NETS, NoMemory};
use log_lines::{all_parts, is_word};
use std::alloc::Global;

// One item of each word, where each is one.
#[tactic(auto, using(crate::proofs::Rules::each_of_rules))]
fn each_of<T: Item>(alloc: Global, nets: u32, words: &[&[u8]]) -> Result<Option<List<T>>, NoMemory>
    requires { nets ≤ MOST_NETS }
    ensures { IfOk result (λ items. items ≡ each_in (T.said nets) (map (λ word. word.now) words.now)) }
{
    let mut items = List::new(alloc);
    for word in words {
        let Some(item) = T::read(alloc, nets, word)? else {
            return Ok(None);
        };
        items.push(item)?;
    }
    Ok(Some(items))
}

/// One item of each part between one byte and the next of its kind, where each is one.
pub fn read_each<T: Item>(
    alloc: Global,
    nets: u32,
    byte: u8,
    text: &[u8],
) -> Result<Option<List<T>>, NoMemory>
    requires { nets ≤ MOST_NETS }
    ensures { IfOk result (λ items. items ≡ each_in (T.said nets) (parts_at byte text.now)) }
{
    let words = all_parts(alloc, text, byte)?;
    let items = each_of(alloc, nets, words.as_slice())?;
    Ok(items)
}

/// The items with commas between them; `-` for none.
pub fn read_list<T: Item>(
    alloc: Global,
    nets: u32,
    text: &[u8],
) -> Result<Option<List<T>>, NoMemory>
    requires { nets ≤ MOST_NETS }
    ensures { IfOk result (λ items. items ≡ list_in 44 (T.said nets) text.now) }
{
    if is_word(text, b"-") {
        return Ok(Some(List::new(alloc)));
    }
    let items = read_each(alloc, nets, b',', text)?;
    Ok(items)
}

/// Whether each is before the next.
pub fn increases<T: Item>(items: &[T]) -> bool
    ensures { result ≡ increases T.place items.now }
{
    let Some((_, rest)) = items.split_first() else {
        return true;
    };
    items
        .iter()
        .zip(rest.iter())
        .all(|pair| pair.0.rank() < pair.1.rank())
}

/// The items with commas between them, each before the next; `-` for none.
#[tactic(auto, unfolding(crate::specs::Lists::ordered_in))]
pub fn read_ordered<T: Item>(
    alloc: Global,
    nets: u32,
    text: &[u8],
) -> Result<Option<List<T>>, NoMemory>
    requires { nets ≤ MOST_NETS }
    ensures { IfOk result (λ items. items ≡ ordered_in (T.said nets) T.place text.now) }
{
    let Some(items): Option<List<T>> = read_list(alloc, nets, text)? else {
        return Ok(None);
    };
    if increases(items.as_slice()) {
        Ok(Some(items))
    } else {
        Ok(None)
    }
}

// Further items, each after the byte.
fn put_more<T: Item>(out: &mut Bytes, byte: u8, items: &[T]) -> Result<(), NoMemory>
    ensures { OnOk result (out.new ≡ out.old ++ flat_map (λ item. byte ∷ T.spelling item) items.now) }
{
    for item in items {
        out.push(byte)?;
        item.put(out)?;
    }
    Ok(())
}

/// The items with the byte between each two.
#[tactic(auto, using(crate::proofs::Lists::items_apart, crate::proofs::Lists::no_items))]
pub fn put_each<T: Item>(out: &mut Bytes, byte: u8, items: &[T]) -> Result<(), NoMemory>
    ensures { OnOk result (out.new ≡ out.old ++ join_with_byte byte (map T.spelling items.now)) }
{
    let [first, rest @ ..] = items else {
        return Ok(());
    };
    first.put(out)?;
    put_more(out, byte, rest)?;
    Ok(())
}

/// The items with commas between them; `-` for none.
#[tactic(auto, using(crate::proofs::Lists::listed_apart))]
pub fn put_list<T: Item>(out: &mut Bytes, items: &[T]) -> Result<(), NoMemory>
    ensures { OnOk result (out.new ≡ out.old ++ list_text 44 (map T.spelling items.now)) }
{
    if items.is_empty() {
        return out.extend(b"-");
    }
    put_each(out, b',', items)
}
