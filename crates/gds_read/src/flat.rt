// The elements of a structure, with the structures that they refer to.
ghost use Rattle.std.specs.Prelude.{◌≤◌, ◌<◌, ◌-◌, ◌*◌, length, OnOk};
ghost use Rattle.gds_read.specs.Elements.{element_of};
ghost use Rattle.gds_area.specs.Moves.{IsNear};
ghost use Rattle.gds_read.specs.Index.{IsIndex};
ghost use Rattle.gds_area.specs.Progress.{amount, Adds};
ghost use Rattle.gds_read.specs.Flat.{IsContext, copies_in, drawn_record, element_in, flat_in, listed_in, referred_in};
ghost use Rattle.gds_read.specs.Flat.{row_in};

use crate::element::{add_boundary, add_path};
use crate::index::{Index, list_of};
use crate::label::add_text;
use crate::reference::{Copies, copy_at, read_array, target};
use cell_num::MOST_BYTES;
use gds_area::{
    Context, GdsFault, MOST_RECTANGLES, Origin, Progress, composed, count_one, origin_at,
};
use gds_record::{GdsRec, RecordType, next_record};
use std::alloc::Global;

// A copy of a structure: one reference more, and what its elements draw.
#[tactic(auto, using(crate::proofs::Copied::copy_rules, crate::proofs::Listed::copied_listed))]
#[cycle(references)]
fn add_copy(
    alloc: Global,
    bytes: &[u8],
    index: &Index,
    place: u64,
    context: &Context,
    origin: &Origin,
    progress: &mut Progress,
) -> Result<(), GdsFault>
    requires size { length bytes.now ≤ MOST_BYTES }
    requires index { IsIndex bytes.now index.now }
    requires place { place ≤ length bytes.now }
    requires context { IsContext context.now }
    requires near { IsNear (17 - context.now.levels) origin.now.stands }
    requires room { amount progress.now ≤ MOST_RECTANGLES }
    ensures adds { Adds result progress.old progress.new
        (flat_in bytes.now context.now.grid context.now.levels origin.now (amount progress.old) place) }
    ensures room { OnOk result (amount progress.new ≤ MOST_RECTANGLES) }
{
    if context.levels == 0 {
        return Err(GdsFault::Deep { at: origin.outer });
    }
    count_one(progress, origin.outer)?;
    let inside = Context {
        grid: context.grid,
        origin: Some(*origin),
        levels: context.levels - 1,
    };
    let places = list_of(alloc, bytes, index, place)?;
    add_elements(alloc, bytes, index, places.as_slice(), &inside, progress)
}

#[tactic(auto, using(crate::proofs::Copied::column_rules, gds_area::proofs::Moved::near_inside))]
#[cycle(references)]
fn add_row(
    alloc: Global,
    bytes: &[u8],
    index: &Index,
    copies: &Copies,
    row: u16,
    context: &Context,
    origin: &Origin,
    progress: &mut Progress,
) -> Result<(), GdsFault>
    requires size { length bytes.now ≤ MOST_BYTES }
    requires index { IsIndex bytes.now index.now }
    requires place { copies.now.place ≤ length bytes.now }
    requires row { row < copies.now.array.lattice.rows }
    requires context { IsContext context.now }
    requires near { IsNear (16 - context.now.levels) origin.now.stands }
    requires room { amount progress.now ≤ MOST_RECTANGLES }
    ensures adds { Adds result progress.old progress.new (row_in bytes.now context.now origin.now copies.now
        (amount progress.old) row) }
    ensures room { OnOk result (amount progress.new ≤ MOST_RECTANGLES) }
{
    for column in 0..copies.array.lattice.columns {
        let copy = copy_at(&copies.array, column, row);
        let here = Origin {
            stands: composed(&origin.stands, &copy, 16 - context.levels),
            outer: origin.outer,
        };
        add_copy(alloc, bytes, index, copies.place, context, &here, progress)?;
    }
    Ok(())
}

#[tactic(auto, using(crate::proofs::Copied::row_rules))]
#[cycle(references)]
fn add_copies(
    alloc: Global,
    bytes: &[u8],
    index: &Index,
    copies: &Copies,
    context: &Context,
    origin: &Origin,
    progress: &mut Progress,
) -> Result<(), GdsFault>
    requires size { length bytes.now ≤ MOST_BYTES }
    requires index { IsIndex bytes.now index.now }
    requires place { copies.now.place ≤ length bytes.now }
    requires context { IsContext context.now }
    requires near { IsNear (16 - context.now.levels) origin.now.stands }
    requires room { amount progress.now ≤ MOST_RECTANGLES }
    ensures adds { Adds result progress.old progress.new (copies_in bytes.now context.now origin.now copies.now
        (amount progress.old)) }
    ensures room { OnOk result (amount progress.new ≤ MOST_RECTANGLES) }
{
    for row in 0..copies.array.lattice.rows {
        add_row(alloc, bytes, index, copies, row, context, origin, progress)?;
    }
    Ok(())
}

// What the reference draws that a record of a type begins.
#[tactic(auto, using(crate::proofs::Copied::reference_rules, crate::proofs::Drawings::adds_same))]
#[cycle(references)]
fn add_reference(
    alloc: Global,
    bytes: &[u8],
    index: &Index,
    kind: RecordType,
    rec: &GdsRec,
    context: &Context,
    progress: &mut Progress,
) -> Result<(), GdsFault>
    requires size { length bytes.now ≤ MOST_BYTES }
    requires index { IsIndex bytes.now index.now }
    requires place { rec.now.next ≤ length bytes.now }
    requires context { IsContext context.now }
    requires room { amount progress.now ≤ MOST_RECTANGLES }
    ensures adds { Adds result progress.old progress.new
        (referred_in bytes.now context.now (amount progress.old) rec.now kind) }
    ensures room { OnOk result (amount progress.new ≤ MOST_RECTANGLES) }
{
    let Some(place) = target(bytes, index, rec.next) else {
        return Err(GdsFault::Reference { at: rec.at });
    };
    let Some(array) = read_array(bytes, kind, rec) else {
        return Err(GdsFault::Reference { at: rec.at });
    };
    let origin = origin_at(context, rec.at);
    let copies = Copies { place, array };
    add_copies(alloc, bytes, index, &copies, context, &origin, progress)
}

// What the element draws that a record of a type begins, if it begins one.
#[tactic(auto, using(crate::proofs::Copied::kind_rules))]
#[cycle(references)]
fn add_element(
    alloc: Global,
    bytes: &[u8],
    index: &Index,
    kind: RecordType,
    rec: &GdsRec,
    context: &Context,
    progress: &mut Progress,
) -> Result<(), GdsFault>
    requires size { length bytes.now ≤ MOST_BYTES }
    requires index { IsIndex bytes.now index.now }
    requires place { rec.now.next ≤ length bytes.now }
    requires context { IsContext context.now }
    requires room { amount progress.now ≤ MOST_RECTANGLES }
    ensures adds { Adds result progress.old progress.new
        (element_in bytes.now context.now (amount progress.old) (element_of bytes.now rec.now kind) kind) }
    ensures room { OnOk result (amount progress.new ≤ MOST_RECTANGLES) }
{
    let origin = origin_at(context, rec.at);
    match kind {
        RecordType::Boundary => add_boundary(alloc, bytes, rec, &context.grid, &origin, progress),
        RecordType::Path => add_path(alloc, bytes, rec, &context.grid, &origin, progress),
        RecordType::Text => match context.origin {
            None => add_text(alloc, bytes, rec, &context.grid, progress),
            Some(_) => Ok(()),
        },
        RecordType::SRef | RecordType::ARef => {
            add_reference(alloc, bytes, index, kind, rec, context, progress)
        }
        _ => Ok(()),
    }
}

// What a record draws that may begin an element.
#[tactic(auto, using(crate::proofs::Copied::same_taken))]
#[cycle(references)]
fn add_record(
    alloc: Global,
    bytes: &[u8],
    index: &Index,
    rec: &GdsRec,
    context: &Context,
    progress: &mut Progress,
) -> Result<(), GdsFault>
    requires size { length bytes.now ≤ MOST_BYTES }
    requires index { IsIndex bytes.now index.now }
    requires place { rec.now.next ≤ length bytes.now }
    requires context { IsContext context.now }
    requires room { amount progress.now ≤ MOST_RECTANGLES }
    ensures adds { Adds result progress.old progress.new
        (drawn_record bytes.now context.now (amount progress.old) rec.now) }
    ensures room { OnOk result (amount progress.new ≤ MOST_RECTANGLES) }
{
    match RecordType::numbered(rec.code) {
        Some(kind) => add_element(alloc, bytes, index, kind, rec, context, progress),
        None => Ok(()),
    }
}

/// What the elements draw whose first records are at some places.
#[tactic(auto, using(gds_record::proofs::Walks::moves, crate::proofs::Listed::listed_rules))]
#[cycle(references)]
pub fn add_elements(
    alloc: Global,
    bytes: &[u8],
    index: &Index,
    places: &[u64],
    context: &Context,
    progress: &mut Progress,
) -> Result<(), GdsFault>
    requires size { length bytes.now ≤ MOST_BYTES }
    requires index { IsIndex bytes.now index.now }
    requires context { IsContext context.now }
    requires room { amount progress.now ≤ MOST_RECTANGLES }
    ensures adds { Adds result progress.old progress.new
        (listed_in bytes.now context.now (amount progress.old) places.now) }
    ensures room { OnOk result (amount progress.new ≤ MOST_RECTANGLES) }
{
    for place in places {
        if let Ok(rec) = next_record(bytes, *place) {
            add_record(alloc, bytes, index, &rec, context, progress)?;
        }
    }
    Ok(())
}
