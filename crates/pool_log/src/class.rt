ghost use Rattle.std.specs.Prelude.{◌≡◌, ◌≤◌, IfOk, map};
ghost use Rattle.trail_log.specs.Spelling.{flag_text};
ghost use Rattle.pool_log.specs.Line.{class_of, class_with};

use crate::place::PlaceList;
use cell_num::{Bytes, List, MOST_NETS, NoMemory};
use log_lines::all_parts;
use order_log::{Item, put_each, read_each};
use std::alloc::Global;

/// Places that the columns so far chain, and whether a trail through them has an end already.
#[derive(Debug, Drop)]
pub struct PlaceClass {
    pub places: PlaceList,
    pub flagged: bool,
}

/// Classes of places.
pub type ClassList = List<PlaceClass>;

fn class(
    alloc: Global,
    nets: u32,
    flagged: bool,
    word: &[u8],
) -> Result<Option<PlaceClass>, NoMemory>
    requires { nets ≤ MOST_NETS }
    ensures { IfOk result (λ class. class ≡ class_with nets flagged word.now) }
{
    let Some(places) = read_each(alloc, nets, b'+', word)? else {
        return Ok(None);
    };
    Ok(Some(PlaceClass { places, flagged }))
}

fn class_of_words(alloc: Global, nets: u32, words: &[&[u8]]) -> Result<Option<PlaceClass>, NoMemory>
    requires { nets ≤ MOST_NETS }
    ensures { IfOk result (λ class. class ≡ class_of nets (map (λ word. word.now) words.now)) }
{
    match words {
        [places] => class(alloc, nets, false, places),
        [places, []] => class(alloc, nets, true, places),
        _ => Ok(None),
    }
}

fn flag(flagged: bool) -> &'static [u8]
    ensures { result.now ≡ flag_text flagged }
{
    if flagged { b"!" } else { b"" }
}

impl Item for PlaceClass {
    ghost use Rattle.pool_log.specs.Line.{class_in};
    ghost use Rattle.pool_log.specs.Order.{class_rank};
    ghost use Rattle.pool_log.specs.Text.{class_text};

    ghost spelling = { class_text };

    ghost said = { class_in };

    ghost place = { class_rank };

    fn read(alloc: Global, nets: u32, word: &[u8]) -> Result<Option<PlaceClass>, NoMemory> {
        let words = all_parts(alloc, word, b'!')?;
        let class = class_of_words(alloc, nets, words.as_slice())?;
        Ok(class)
    }

    fn put(&self, out: &mut Bytes) -> Result<(), NoMemory> {
        put_each(out, b'+', self.places.as_slice())?;
        out.extend(flag(self.flagged))
    }

    fn rank(&self) -> u128 {
        match self.places.as_slice() {
            [first, ..] => first.rank(),
            [] => 0,
        }
    }
}
