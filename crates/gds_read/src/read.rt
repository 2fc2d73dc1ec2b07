ghost use Rattle.std.specs.Prelude.{◌≡◌, ◌≤◌, length, IfOk, IfErr};
ghost use Rattle.gds_record.specs.Records.{items_from};
ghost use Rattle.gds_read.specs.Elements.{elements_of};
ghost use Rattle.gds_read.specs.Flat.{file_of, drawn, Gives};
ghost use Rattle.gds_read.specs.Decoding.{unit_in, grid_in, Decodes, IsCell, IsRefused, IsTwiceOf};

use crate::field::field_content;
use crate::flat::add_elements;
use crate::index::{places_of, read_index};
use crate::pass::first_pass;
use crate::real::picometres_at_place;
use crate::structure::{Lookup, find_structure};
use box_geom::Shapes;
use cell_num::{MOST_BYTES, Name};
use gds_area::{Context, GdsFault, Grid, MOST_LEVELS, MOST_PICOMETRES, no_progress};
use gds_record::RecordType;
use std::alloc::Global;

#[tactic(auto, using(crate::proofs::Decoded::unit_limit))]
fn unit(units: &[u8]) -> u64
    ensures value { result ≡ unit_in units.now }
    ensures limit { result ≤ MOST_PICOMETRES }
{
    if units.len() != 16 {
        return 0;
    }
    picometres_at_place(units, 8)
}

fn grid_of(bytes: &[u8], lambda_nm: u32) -> Grid
    requires { length bytes.now ≤ MOST_BYTES }
    ensures value { result ≡ grid_in bytes.now lambda_nm }
    ensures limit { result.picometres ≤ MOST_PICOMETRES }
{
    let units = field_content(bytes, 0, RecordType::BgnStr, RecordType::Units);
    Grid {
        picometres: unit(units),
        lambda_nm,
    }
}

// What the elements draw, from a place up to the end of the structure.
#[tactic(auto, using(crate::proofs::Listed::read_rules))]
fn read_elements(alloc: Global, bytes: &[u8], place: u64, grid: &Grid) -> Result<Shapes, GdsFault>
    requires size { length bytes.now ≤ MOST_BYTES }
    requires place { place ≤ length bytes.now }
    requires grid { 1 ≤ grid.now.lambda_nm }
    requires unit { grid.now.picometres ≤ MOST_PICOMETRES }
    ensures { Gives result (drawn (file_of grid.now bytes.now) 0 (elements_of (items_from bytes.now place))) }
{
    let context = Context {
        grid: *grid,
        origin: None,
        levels: MOST_LEVELS,
    };
    let index = read_index(alloc, bytes)?;
    let places = places_of(alloc, bytes, place, true)?;
    let mut progress = no_progress(alloc);
    add_elements(
        alloc,
        bytes,
        &index,
        places.as_slice(),
        &context,
        &mut progress,
    )?;
    Ok(progress.shapes)
}

// Two structures have the name.
fn twice(name: &Name) -> GdsFault
    ensures { IsTwiceOf name.now result }
{
    match name.clone() {
        Ok(name) => GdsFault::Twice { name },
        Err(_) => GdsFault::NoMemory,
    }
}

/// The rectangles and labels of the structure that has the name, in grid units of half a lambda. The
/// whole library is looked at first: the answer is the first fault of its records, then of the name,
/// then of the structure's elements in order. A reference draws what the structure draws that it names, as
/// mirrored, turned and moved (GDSII Stream Format Manual, Release 6.0: SREF, AREF); labels are the
/// structure's own. At most 1,073,741,824 bytes are taken.
#[tactic(auto, using(crate::proofs::Decoded::refusal_rules))]
pub fn read_cell(
    alloc: Global,
    bytes: &[u8],
    name: &Name,
    lambda_nm: u32,
) -> Result<Shapes, GdsFault>
    requires size { length bytes.now ≤ MOST_BYTES }
    requires lambda { 1 ≤ lambda_nm }
    ensures decodes { IfOk result (λ shapes. Decodes bytes.now name.now lambda_nm shapes) }
    // the bytes are a library, exactly one structure has the name, and this is what its elements draw
    ensures cell { IfOk result (λ shapes. IsCell bytes.now name.now lambda_nm shapes) }
    ensures refused { IfErr result (λ fault. IsRefused bytes.now name.now lambda_nm fault) }
{
    first_pass(bytes)?;
    match find_structure(bytes, name.as_slice()) {
        Lookup::NoCell => Err(GdsFault::NoCell),
        Lookup::Twice => Err(twice(name)),
        Lookup::At { place } => {
            let grid = grid_of(bytes, lambda_nm);
            read_elements(alloc, bytes, place, &grid)
        }
    }
}
