ghost use Rattle.std.specs.Prelude.{◌≡◌, ◌≢◌, ◌≤◌, ◌&&◌, not, nat_le, length, map, bytes_eq, string_bytes};
ghost use Rattle.std.specs.Prelude.{All, IfOk, IsTrue};
ghost use Rattle.std.specs.List.{list_all};
ghost use Rattle.cell_num.specs.Names.{is_cell, lowered};
ghost use Rattle.call_words.specs.Asked.{are_row_cells, is_top, texts};
ghost use Rattle.call_words.specs.Options.{choice_of};
ghost use Rattle.call_words.specs.Words.{asked_row};

use crate::cell::tech_of;
use cell_inputs::LeastRow;
use cell_num::{Name, Names, NoMemory, is_cell, lower};
use std::alloc::Global;
use std::marker::Model;

/// The most cells of a row.
pub const MOST_ROW_CELLS: usize = 16;

/// A row of cells that is asked for. Its name and theirs are ones that [`is_cell`](cell_num::is_cell) takes; in lower
/// case its name is none of theirs.
#[derive(Drop)]
pub struct RowAsked<'a> {
    /// The technology's file; None is the plain technology.
    pub tech: Option<&'a str>,
    pub spice: &'a str,
    /// The row's name.
    pub top: &'a str,
    /// The cells' names from the left, 2 to [`MOST_ROW_CELLS`].
    pub cells: &'a [String],
    /// Which of its least rows each cell is drawn with.
    pub choice: LeastRow,
}

impl<'a> Model for RowAsked<'a> {
    ghost use Rattle.std.specs.Prelude.{option_map, IsTrue};
    ghost use Rattle.call_words.specs.Asked.{RowAsked as Asked, are_row_cells, is_top, texts};

    ghost Value = { Asked };

    ghost view = { λ a. record {
      tech = option_map (λ name. name.now) a.tech;
      spice = a.spice.now;
      top = a.top.now;
      cells = texts a.cells.now;
      choice = a.choice;
    } };

    ghost invariant = { λ a. IsTrue (is_top a.top.now (texts a.cells.now))
        × IsTrue (are_row_cells (texts a.cells.now)) };
}

// The words with their letters in lower case.
fn lower_all(alloc: Global, words: &[String]) -> Result<Names, NoMemory>
    ensures { IfOk result (λ names. names ≡ map (λ word. lowered (string_bytes word)) words.now) }
{
    let mut names = Names::new(alloc);
    for word in words {
        names.push(lower(alloc, word.as_bytes())?)?;
    }
    Ok(names)
}

impl<'a> RowAsked<'a> {
    /// The row's name in lower case.
    pub fn name(&self, alloc: Global) -> Result<Name, NoMemory>
        ensures lower { IfOk result (λ name. name ≡ lowered self.now.top) }
        ensures cell { IfOk result (λ name. IsTrue (is_cell name)) }
    {
        lower(alloc, self.top.as_bytes())
    }

    /// The cells' names in lower case, none of which is the row's.
    pub fn names(&self, alloc: Global) -> Result<Names, NoMemory>
        ensures lower { IfOk result (λ names. names ≡ map lowered self.now.cells) }
        ensures cells { IfOk result (All (λ name. IsTrue (is_cell name))) }
        ensures some { IfOk result (λ names. 2 ≤ length names) }
        ensures few { IfOk result (λ names. length names ≤ MOST_ROW_CELLS) }
        ensures apart { IfOk result (All (λ name. name ≢ lowered self.now.top)) }
    {
        lower_all(alloc, self.cells)
    }
}

#[tactic(auto, using(crate::proofs::Names::same_name))]
fn is_same(one: &str, other: &str) -> bool
    ensures { result ≡ bytes_eq (lowered one.now) (lowered other.now) }
{
    one.as_bytes().eq_ignore_ascii_case(other.as_bytes())
}

fn has_none(cells: &[String], top: &str) -> bool
    ensures { result ≡ list_all (λ cell. not (bytes_eq (lowered (string_bytes cell)) (lowered top.now))) cells.now }
{
    cells.iter().all(|cell| !is_same(cell.as_str(), top))
}

fn are_all_cells(cells: &[String]) -> bool
    ensures { result ≡ list_all (λ cell. is_cell (string_bytes cell)) cells.now }
{
    cells.iter().all(|cell| is_cell(cell.as_bytes()))
}

fn are_few(cells: &[String]) -> bool
    ensures { result ≡ (nat_le 2 (length cells.now) && nat_le (length cells.now) 16) }
{
    2 <= cells.len() && cells.len() <= MOST_ROW_CELLS
}

// The cells of a row: 2 to 16.
#[tactic(auto, using(crate::proofs::Names::all_cells, crate::proofs::Names::as_many))]
fn are_row_cells(cells: &[String]) -> bool
    ensures { result ≡ are_row_cells (texts cells.now) }
{
    are_few(cells) && are_all_cells(cells)
}

#[tactic(auto, using(crate::proofs::Names::all_others))]
fn is_top(top: &str, cells: &[String]) -> bool
    ensures { result ≡ is_top top.now (texts cells.now) }
{
    is_cell(top.as_bytes()) && has_none(cells, top)
}

/// The choice that the words after TOP end with, `--low` or none, and the words of the cells.
pub(crate) fn choice_of(words: &[String]) -> (LeastRow, &[String])
    ensures choice { result.0 ≡ (choice_of (texts words.now)).0 }
    ensures cells { texts result.1.now ≡ (choice_of (texts words.now)).1 }
{
    match words {
        [cells @ .., word] if word.as_str() == "--low" => (LeastRow::Lowest, cells),
        _ => (LeastRow::First, words),
    }
}

/// The row of the words TECH, SPICE, TOP and those of its cells, with this choice of each cell's row.
pub fn row_of<'a>(
    choice: LeastRow,
    tech: &'a str,
    spice: &'a str,
    top: &'a str,
    cells: &'a [String],
) -> Option<RowAsked<'a>>
    ensures { result ≡ asked_row choice tech.now spice.now top.now (texts cells.now) }
{
    if !tech.is_empty() && !spice.is_empty() && is_top(top, cells) && are_row_cells(cells) {
        Some(RowAsked {
            tech: tech_of(tech),
            spice,
            top,
            cells,
            choice,
        })
    } else {
        None
    }
}
