ghost use Rattle.std.specs.Prelude.{◌≡◌, option_map, IfOk, IsTrue};
ghost use Rattle.cell_num.specs.Names.{lowered, is_cell};
ghost use Rattle.call_words.specs.Words.{tech_of, cell_of};

use cell_num::{Name, NoMemory, is_cell, lower};
use std::alloc::Global;
use std::marker::Model;

/// A cell that is asked for. Its name is one that [`is_cell`](cell_num::is_cell) takes.
#[derive(Drop)]
pub struct CellAsked<'a> {
    /// The technology's file; None is the plain technology.
    pub tech: Option<&'a str>,
    pub spice: &'a str,
    pub cell: &'a str,
}

impl<'a> Model for CellAsked<'a> {
    ghost use Rattle.std.specs.Prelude.{option_map, IsTrue};
    ghost use Rattle.cell_num.specs.Names.{is_cell};
    ghost use Rattle.call_words.specs.Asked.{CellAsked as Asked};

    ghost Value = { Asked };

    ghost view = { λ a. record {
      tech = option_map (λ name. name.now) a.tech;
      spice = a.spice.now;
      cell = a.cell.now;
    } };

    ghost invariant = { λ a. IsTrue (is_cell a.cell.now) };
}

impl<'a> CellAsked<'a> {
    /// The cell's name in lower case.
    pub fn name(&self, alloc: Global) -> Result<Name, NoMemory>
        ensures lower { IfOk result (λ name. name ≡ lowered self.now.cell) }
        ensures cell { IfOk result (λ name. IsTrue (is_cell name)) }
    {
        lower(alloc, self.cell.as_bytes())
    }
}

/// The technology's file, or None for the plain one.
pub fn tech_of(word: &str) -> Option<&str>
    ensures { option_map (λ name. name.now) result ≡ tech_of word.now }
{
    if word == "-" { None } else { Some(word) }
}

/// The cell of the words TECH, SPICE and CELL.
pub fn cell_of<'a>(tech: &'a str, spice: &'a str, cell: &'a str) -> Option<CellAsked<'a>>
    ensures { result ≡ cell_of tech.now spice.now cell.now }
{
    if !tech.is_empty() && !spice.is_empty() && is_cell(cell.as_bytes()) {
        Some(CellAsked {
            tech: tech_of(tech),
            spice,
            cell,
        })
    } else {
        None
    }
}
