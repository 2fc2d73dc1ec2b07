// What a reference says.
ghost use Rattle.std.specs.Prelude.{◌≡◌, ◌≤◌, ◌<◌, length, option_map};
ghost use Rattle.gds_record.specs.declared.types.RecordType.TheVariants as record_type;
ghost use Rattle.gds_record.specs.Records.{items_from};
ghost use Rattle.gds_read.specs.Elements.{until, inside_of};
ghost use Rattle.gds_area.specs.Moves.{IsNear};
ghost use Rattle.gds_read.specs.Index.{IsIndex};
ghost use Rattle.gds_read.specs.References.{target_in, Targets, stands_twice, repeats, data_in, first_bit};
ghost use Rattle.gds_read.specs.References.{mirror_told, turn_of, turn_told, is_full_size, facing_of};
ghost use Rattle.gds_read.specs.References.{array_of, copy_at};

use crate::field::{element_content, field};
use crate::index::{Index, find_name};
use crate::lattice::{Lattice, read_lattice, shift, summed};
use crate::real::{whole, word_at, zero};
use crate::structure::{Lookup, trim};
use cell_num::MOST_BYTES;
use gds_area::{Move, Turn};
use gds_record::{GdsRec, RecordType, next_record};

/// Mirrored or not, and how it is turned then.
#[derive(Clone, Copy, Debug, PartialEq, Eq)]
pub struct Facing {
    pub mirrored: bool,
    pub turn: Turn,
}

/// The copies of a reference.
#[derive(Clone, Copy, Debug, PartialEq, Eq)]
pub struct Array {
    pub facing: Facing,
    pub lattice: Lattice,
}

/// The copies of the structure whose name ends at a place.
#[derive(Clone, Copy, Debug, PartialEq, Eq)]
pub struct Copies {
    pub place: u64,
    pub array: Array,
}

/// The place after the name of the structure that an element names; its first record ends at `from`.
pub fn target(bytes: &[u8], index: &Index, from: u64) -> Option<u64>
    requires size { length bytes.now ≤ MOST_BYTES }
    requires index { IsIndex bytes.now index.now }
    requires place { from ≤ length bytes.now }
    ensures { Targets bytes.now result (target_in (items_from bytes.now 0)
        (until record_type.EndEl (items_from bytes.now from))) }
{
    let Some(name) = field(bytes, from, RecordType::EndEl, RecordType::SName) else {
        return None;
    };
    let name = trim(&bytes[name.at as usize + 4..name.next as usize]);
    match find_name(bytes, index, name) {
        Lookup::At { place } => Some(place),
        _ => None,
    }
}

// Whether the element has two records of a type or more.
#[tactic(auto, using(gds_record::proofs::Walks::moves, crate::proofs::Repeats::repeat_rules))]
fn twice(bytes: &[u8], from: u64, kind: RecordType) -> bool
    requires size { length bytes.now ≤ MOST_BYTES }
    requires place { from ≤ length bytes.now }
    ensures { result ≡ stands_twice kind (until record_type.EndEl (items_from bytes.now from)) }
{
    let mut seen = false;
    let mut at = from;
    'records: loop {
        let Ok(rec) = next_record(bytes, at) else {
            return false;
        };
        if rec.code == RecordType::EndEl.number() {
            return false;
        }
        if rec.code == kind.number() {
            if seen {
                return true;
            }
            seen = true;
        }
        at = rec.next;
    }
}

fn repeats(bytes: &[u8], from: u64) -> bool
    requires size { length bytes.now ≤ MOST_BYTES }
    requires place { from ≤ length bytes.now }
    ensures { result ≡ repeats (until record_type.EndEl (items_from bytes.now from)) }
{
    twice(bytes, from, RecordType::SName)
        || twice(bytes, from, RecordType::Xy)
        || twice(bytes, from, RecordType::ColRow)
        || twice(bytes, from, RecordType::STrans)
        || twice(bytes, from, RecordType::Mag)
        || twice(bytes, from, RecordType::Angle)
}

// The data of the element's first record of a type, if it has one.
fn data(bytes: &[u8], from: u64, kind: RecordType) -> Option<&[u8]>
    requires size { length bytes.now ≤ MOST_BYTES }
    requires place { from ≤ length bytes.now }
    ensures { option_map (λ w. w.now) result ≡ data_in kind (until record_type.EndEl (items_from bytes.now from)) }
{
    let rec = field(bytes, from, RecordType::EndEl, kind)?;
    Some(&bytes[rec.at as usize + 4..rec.next as usize])
}

fn first_bit(bits: &[u8]) -> Option<bool>
    ensures { result ≡ first_bit bits.now }
{
    match bits {
        [high, _] => Some(128 <= *high),
        _ => None,
    }
}

fn mirror(content: Option<&[u8]>) -> Option<bool>
    ensures { result ≡ mirror_told (option_map (λ w. w.now) content.entry) }
{
    match content {
        None => Some(false),
        Some(bits) => first_bit(bits),
    }
}

fn turn(word: u64) -> Option<Turn>
    ensures { result ≡ turn_of word }
{
    if zero(word) {
        Some(Turn::Zero)
    } else if whole(90, word) {
        Some(Turn::Quarter)
    } else if whole(180, word) {
        Some(Turn::Half)
    } else if whole(270, word) {
        Some(Turn::ThreeQuarters)
    } else {
        None
    }
}

fn turned(content: Option<&[u8]>) -> Option<Turn>
    ensures { result ≡ turn_told (option_map (λ w. w.now) content.entry) }
{
    match content {
        None => Some(Turn::Zero),
        Some(angle) => {
            if angle.len() != 8 {
                return None;
            }
            turn(word_at(angle, 0))
        }
    }
}

fn full_size(content: Option<&[u8]>) -> bool
    ensures { result ≡ is_full_size (option_map (λ w. w.now) content.entry) }
{
    match content {
        None => true,
        Some(size) => {
            if size.len() != 8 {
                return false;
            }
            whole(1, word_at(size, 0))
        }
    }
}

fn read_facing(bytes: &[u8], from: u64) -> Option<Facing>
    requires size { length bytes.now ≤ MOST_BYTES }
    requires place { from ≤ length bytes.now }
    ensures { result ≡ facing_of (until record_type.EndEl (items_from bytes.now from)) }
{
    if !full_size(data(bytes, from, RecordType::Mag)) {
        return None;
    }
    let mirrored = mirror(data(bytes, from, RecordType::STrans));
    let turn = turned(data(bytes, from, RecordType::Angle));
    match (mirrored, turn) {
        (Some(mirrored), Some(turn)) => Some(Facing { mirrored, turn }),
        _ => None,
    }
}

/// The copies of the reference that a record of a type begins.
pub fn read_array(bytes: &[u8], kind: RecordType, rec: &GdsRec) -> Option<Array>
    requires size { length bytes.now ≤ MOST_BYTES }
    requires place { rec.now.next ≤ length bytes.now }
    ensures { result ≡ array_of kind (inside_of bytes.now rec.now) }
{
    let from = rec.next;
    if repeats(bytes, from) {
        return None;
    }
    let xy = element_content(bytes, from, RecordType::Xy);
    let content = data(bytes, from, RecordType::ColRow);
    match (read_facing(bytes, from), read_lattice(kind, xy, content)) {
        (Some(facing), Some(lattice)) => Some(Array { facing, lattice }),
        _ => None,
    }
}

/// How one of the copies is placed.
#[tactic(auto, using(crate::proofs::Steps::near_one))]
pub fn copy_at(array: &Array, column: u16, row: u16) -> Move
    requires column { column < array.now.lattice.columns }
    requires row { row < array.now.lattice.rows }
    ensures value { result ≡ copy_at array.now column row }
    ensures near { IsNear 1 result }
{
    let at = &array.lattice;
    Move {
        mirrored: array.facing.mirrored,
        turn: array.facing.turn,
        x: summed(
            &at.first.x,
            shift(&at.first.x, &at.behind_columns.x, column, at.columns),
            shift(&at.first.x, &at.behind_rows.x, row, at.rows),
        ),
        y: summed(
            &at.first.y,
            shift(&at.first.y, &at.behind_columns.y, column, at.columns),
            shift(&at.first.y, &at.behind_rows.y, row, at.rows),
        ),
    }
}
