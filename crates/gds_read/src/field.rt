// The records inside an element, found by their type.
ghost use Rattle.std.specs.Prelude.{◌≡◌, ◌≤◌, ◌<◌, ◌+◌, ◌==◌, [], length, find, option_map, IfSome};
ghost use Rattle.gds_record.specs.Records.{item_of, items_from};
ghost use Rattle.gds_record.specs.declared.types.RecordType.TheVariants as record_type;
ghost use Rattle.gds_read.specs.Structure.{is_type};
ghost use Rattle.gds_read.specs.Elements.{until, content_of, place_of, short_of, layer_of};

use box_geom::Layer;
use cell_num::MOST_BYTES;
use gds_record::{GdsRec, RecordType, layers, next_record};

/// The first record of a type between a place and the next record of the type `end`.
#[tactic(auto, using(gds_record::proofs::Walks::moves, crate::proofs::Fields::field_rules))]
pub fn field(bytes: &[u8], from: u64, end: RecordType, kind: RecordType) -> Option<GdsRec>
    requires size { length bytes.now ≤ MOST_BYTES }
    requires place { from ≤ length bytes.now }
    ensures found { option_map (item_of bytes.now) result ≡ find (is_type kind) (until end
        (items_from bytes.now from)) }
    ensures within { IfSome result (λ r. (r.at + 4 ≤ r.next) × (r.next ≤ length bytes.now)) }
{
    let mut at = from;
    'records: loop {
        let Ok(rec) = next_record(bytes, at) else {
            return None;
        };
        if rec.code == end.number() {
            return None;
        }
        if rec.code == kind.number() {
            return Some(rec);
        }
        at = rec.next;
    }
}

/// The data of that record, or none.
pub fn field_content(bytes: &[u8], from: u64, end: RecordType, kind: RecordType) -> &[u8]
    requires size { length bytes.now ≤ MOST_BYTES }
    requires place { from ≤ length bytes.now }
    ensures { result.now ≡ content_of kind (until end (items_from bytes.now from)) }
{
    match field(bytes, from, end, kind) {
        Some(rec) => &bytes[rec.at as usize + 4..rec.next as usize],
        None => &[],
    }
}

/// The place of the record of a type in an element whose first record ends at `from`, or 0.
pub fn field_place(bytes: &[u8], from: u64, kind: RecordType) -> u64
    requires size { length bytes.now ≤ MOST_BYTES }
    requires place { from ≤ length bytes.now }
    ensures { result ≡ place_of (find (is_type kind) (until record_type.EndEl (items_from bytes.now from))) }
{
    match field(bytes, from, RecordType::EndEl, kind) {
        Some(rec) => rec.at,
        None => 0,
    }
}

/// The data of that record, or none.
pub fn element_content(bytes: &[u8], from: u64, kind: RecordType) -> &[u8]
    requires size { length bytes.now ≤ MOST_BYTES }
    requires place { from ≤ length bytes.now }
    ensures { result.now ≡ content_of kind (until record_type.EndEl (items_from bytes.now from)) }
{
    field_content(bytes, from, RecordType::EndEl, kind)
}

/// A two-byte integer, the high byte first; 0 for data of another length.
pub fn short(content: &[u8]) -> u16
    ensures { result ≡ short_of content.now }
{
    match content {
        [high, low] => 256 * u16::from(*high) + u16::from(*low),
        _ => 0,
    }
}

/// The layer of the element whose first record ends at `from`.
pub fn element_layer(bytes: &[u8], from: u64) -> Option<Layer>
    requires size { length bytes.now ≤ MOST_BYTES }
    requires place { from ≤ length bytes.now }
    ensures { result ≡ layer_of (until record_type.EndEl (items_from bytes.now from)) }
{
    layers::numbered(short(element_content(bytes, from, RecordType::Layer)))
}
