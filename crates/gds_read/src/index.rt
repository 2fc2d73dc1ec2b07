// The structures of a library by their names, and the elements of each that may draw something where it is
// referred to: no reference needs a walk through the file, and no copy one through what draws nothing.
ghost use Rattle.std.specs.Prelude.{◌≡◌, ◌≤◌, [], ◌∷◌, ◌++◌, false, length, IfOk, OnOk};
ghost use Rattle.gds_record.specs.Records.{items_from};
ghost use Rattle.gds_read.specs.Structure.{Finds, IsWithin, found_in};
ghost use Rattle.gds_read.specs.Index.{looked_up, once_more, drawing_places};
ghost use Rattle.gds_read.specs.Index.{IsIndex, IsNamed, IsListed, IsStructureAdded};

use crate::draws::draws;
use crate::structure::{Lookup, trim};
use cell_num::{MOST_BYTES, NoMemory};
use gds_record::{RecordType, next_record};
use indexmap::IndexMap;
use std::alloc::{AllocError, Global};

/// The structures by name, and by the place after its name the places of the elements of each that may draw.
#[derive(Drop)]
pub struct Index<'a> {
    pub names: IndexMap<&'a [u8], Lookup>,
    pub drawing: IndexMap<u64, Vec<u64>>,
}

// What is known of a name.
fn looked_up(index: &Index, name: &[u8]) -> Lookup
    ensures { result ≡ looked_up index.now name.now }
{
    match index.names.get(name) {
        Some(found) => *found,
        None => Lookup::NoCell,
    }
}

// One structure more, whose name ends at a place.
fn once_more(found: Lookup, place: u64) -> Lookup
    ensures { result ≡ once_more found place }
{
    match found {
        Lookup::NoCell => Lookup::At { place },
        _ => Lookup::Twice,
    }
}

fn add_name<'a>(index: &mut Index<'a>, name: &'a [u8], place: u64) -> Result<(), AllocError>
    ensures { OnOk result (IsNamed index.old index.new name.now place) }
{
    let found = once_more(looked_up(index, name), place);
    index.names.insert(name, found)?;
    Ok(())
}

fn add_list(index: &mut Index, places: Vec<u64>, place: u64) -> Result<(), AllocError>
    ensures { OnOk result (IsListed index.old index.new places.items place) }
{
    index.drawing.insert(place, places)?;
    Ok(())
}

/// The places of the elements that may draw, from a place up to the end of the structure; texts are among
/// them where labels are asked for.
#[tactic(auto, using(gds_record::proofs::Walks::moves, crate::proofs::Listed::place_rules))]
pub fn places_of(
    alloc: Global,
    bytes: &[u8],
    place: u64,
    labels: bool,
) -> Result<Vec<u64>, NoMemory>
    requires size { length bytes.now ≤ MOST_BYTES }
    requires place { place ≤ length bytes.now }
    ensures { IfOk result (λ places. places.items ≡ drawing_places labels (items_from bytes.now place)) }
{
    let mut places = Vec::new(alloc);
    let mut at = place;
    'records: loop {
        let Ok(rec) = next_record(bytes, at) else {
            return Ok(places);
        };
        if rec.code == RecordType::EndStr.number() {
            return Ok(places);
        }
        if draws(alloc, bytes, &rec, labels)? {
            push_place(&mut places, rec.at)?;
        }
        at = rec.next;
    }
}

fn push_place(places: &mut Vec<u64>, place: u64) -> Result<(), AllocError>
    ensures { OnOk result (places.new.items ≡ places.old.items ++ place ∷ []) }
{
    places.push(place)?;
    Ok(())
}

// Adds the structure of a name.
#[tactic(auto, using(crate::proofs::Indexed::structure_added))]
fn add_structure<'a>(
    alloc: Global,
    index: &mut Index<'a>,
    bytes: &'a [u8],
    name: &'a [u8],
    place: u64,
) -> Result<(), NoMemory>
    requires size { length bytes.now ≤ MOST_BYTES }
    requires place { place ≤ length bytes.now }
    ensures { OnOk result (IsStructureAdded bytes.now index.old index.new name.now place) }
{
    add_name(index, name, place)?;
    let places = places_of(alloc, bytes, place, false)?;
    add_list(index, places, place)?;
    Ok(())
}

/// The index of a library.
#[tactic(auto, using(gds_record::proofs::Walks::moves, crate::proofs::Indexed::passed_by))]
pub fn read_index(alloc: Global, bytes: &[u8]) -> Result<Index<'_>, NoMemory>
    requires { length bytes.now ≤ MOST_BYTES }
    ensures { IfOk result (IsIndex bytes.now) }
{
    let mut index = Index {
        names: IndexMap::new(alloc),
        drawing: IndexMap::new(alloc),
    };
    let mut at = 0;
    'records: loop {
        let Ok(rec) = next_record(bytes, at) else {
            return Ok(index);
        };
        if rec.code == RecordType::StrName.number() {
            let name = trim(&bytes[rec.at as usize + 4..rec.next as usize]);
            add_structure(alloc, &mut index, bytes, name, rec.next)?;
        }
        at = rec.next;
    }
}

/// The place after the name of the structure that has it.
pub fn find_name(bytes: &[u8], index: &Index, name: &[u8]) -> Lookup
    requires { IsIndex bytes.now index.now }
    ensures found { Finds bytes.now result (found_in bytes.now name.now) }
    ensures within { IsWithin (length bytes.now) result }
{
    looked_up(index, name)
}

fn copied(alloc: Global, places: &[u64]) -> Result<Vec<u64>, NoMemory>
    ensures { IfOk result (λ copy. copy.items ≡ places.now) }
{
    let mut copy = Vec::new(alloc);
    copy.extend_from_slice(places)?;
    Ok(copy)
}

/// The places of the elements that may draw of the structure whose name ends at a place, without labels.
pub fn list_of(alloc: Global, bytes: &[u8], index: &Index, place: u64) -> Result<Vec<u64>, NoMemory>
    requires size { length bytes.now ≤ MOST_BYTES }
    requires place { place ≤ length bytes.now }
    requires index { IsIndex bytes.now index.now }
    ensures { IfOk result (λ places. places.items ≡ drawing_places false (items_from bytes.now place)) }
{
    match index.drawing.get(&place) {
        Some(places) => copied(alloc, places.as_slice()),
        None => places_of(alloc, bytes, place, false),
    }
}
