ghost use Rattle.std.specs.Prelude.{◌≡◌, IfSome, option_map};
ghost use Rattle.cell_num.specs.Fingers.{AreFingers};
ghost use Rattle.row_bench.specs.Asked.{asked, bound_of, shown};

use cell_io::{Desk, read_all};
use cell_num::{Fingers, copy};
use finger_fold::fold;
use row_state::LogBound;
use spice_net::read_cell;
use std::alloc::Global;
use tech_file::read_tech;

// The most bytes of a file.
const MOST_FILE_BYTES: u64 = 4_194_304;

/// What the words ask for: a version, a technology file, a SPICE file and a cell in lower case.
#[derive(Clone, Copy)]
pub struct Asked<'a> {
    pub bound: LogBound,
    pub tech: &'a str,
    pub spice: &'a str,
    pub cell: &'a str,
}

// The bound of the logs of a version.
fn bound_of(version: &str) -> Option<LogBound>
    ensures { result ≡ bound_of version.now }
{
    match version {
        "1" => Some(LogBound::One),
        "2" => Some(LogBound::Two),
        _ => None,
    }
}

impl<'a> Asked<'a> {
    /// From a version, a technology file, a SPICE file and a cell, if there are just these words.
    pub fn from_words(words: &'a [String]) -> Option<Asked<'a>>
        ensures { option_map shown result ≡ asked words.now }
    {
        match words {
            [version, tech, spice, cell] => Some(Asked {
                bound: bound_of(version.as_str())?,
                tech: tech.as_str(),
                spice: spice.as_str(),
                cell: cell.as_str(),
            }),
            _ => None,
        }
    }
}

/// The fingers of the cell, and how many nodes the search may take.
pub fn fingers_of<D: Desk>(alloc: Global, asked: &Asked<'_>, desk: &mut D) -> Option<(Fingers, u64)>
    ensures { IfSome result (λ asked. AreFingers asked.0) }
{
    let bytes = read_all(alloc, desk, asked.tech, MOST_FILE_BYTES).ok()?;
    let tech = read_tech(alloc, &bytes).ok()?;
    let bytes = read_all(alloc, desk, asked.spice, MOST_FILE_BYTES).ok()?;
    let name = copy(alloc, asked.cell.as_bytes()).ok()?;
    let cell = read_cell(alloc, &bytes, &name, &tech).ok()?;
    match fold(alloc, &cell, &tech) {
        Ok(fingers) => Some((fingers, tech.budget)),
        Err(_) => None,
    }
}
