ghost use Rattle.std.specs.Prelude.{position, not, ◌==◌, IfSome, ◌≡◌, ◌≤◌, ◌<◌, length, ◌+◌};
ghost use Rattle.gds_record.specs.declared.types.RecordType.TheVariants as record_type;
ghost use Rattle.gds_read.specs.Grammar.{is_wrong_unit, item_with, with_unit, known_step};
ghost use Rattle.gds_read.specs.Grammar.{step_of, zeros_behind, first_pass_of};

use crate::grammar::{Place, after, allowed, wrong_length};
use crate::real::picometres_at_place;
use cell_num::MOST_BYTES;
use gds_area::GdsFault;
use gds_record::{GdsRec, RecordType, next_record};

fn wrong_unit(picometres: u64) -> bool
    ensures { result ≡ is_wrong_unit picometres }
{
    picometres < 1 || 1_000_000 < picometres
}

// The place after a record that is right, except the unit that it may give.
fn with_unit(kind: RecordType, rec: &GdsRec, content: &[u8], next: Place) -> Result<Place, GdsFault>
    requires { kind ≡ record_type.Units → length content.now ≡ 16 }
    ensures { result ≡ with_unit kind (item_with rec.now content.now) next }
{
    if kind != RecordType::Units {
        return Ok(next);
    }
    let picometres = picometres_at_place(content, 8);
    if wrong_unit(picometres) {
        return Err(GdsFault::Unit { picometres });
    }
    Ok(next)
}

fn known(place: Place, kind: RecordType, rec: &GdsRec, content: &[u8]) -> Result<Place, GdsFault>
    ensures { result ≡ known_step place (item_with rec.now content.now) kind }
{
    let at = rec.at;
    let code = rec.code;
    if !allowed(place, kind) {
        return Err(GdsFault::Order { at, code });
    }
    if rec.form != kind.data_type().number() {
        return Err(GdsFault::Kind { at, code });
    }
    if wrong_length(place, kind, content.len()) {
        return Err(GdsFault::Length { at });
    }
    with_unit(kind, rec, content, after(place, kind))
}

fn step(place: Place, rec: &GdsRec, content: &[u8]) -> Result<Place, GdsFault>
    ensures { result ≡ step_of place (item_with rec.now content.now) }
{
    let at = rec.at;
    let code = rec.code;
    match (RecordType::numbered(code), place) {
        (None, Place::Start) => Err(GdsFault::Order { at, code }),
        (None, _) => Ok(place),
        (Some(kind), _) => known(place, kind, rec, content),
    }
}

// The first byte that is not zero.
fn first_other(bytes: &[u8]) -> Option<usize>
    ensures place { result ≡ position (λ b. not (b == 0)) bytes.now }
    ensures within { IfSome result (λ i. i < length bytes.now) }
{
    bytes.iter().position(|b| *b != 0)
}

// After the library there are zero bytes alone.
fn behind(bytes: &[u8], from: u64) -> Result<u64, GdsFault>
    requires { from ≤ length bytes.now }
    ensures { result ≡ zeros_behind bytes.now from }
{
    match first_other(&bytes[from as usize..]) {
        None => Ok(from),
        Some(more) => {
            let at = from + more as u64;
            Err(GdsFault::Order {
                at,
                code: bytes[at as usize],
            })
        }
    }
}

/// Goes over all records of a library, and gives the place after it.
#[tactic(auto, using(gds_record::proofs::Walks::moves, crate::proofs::Passes::pass_rules))]
pub fn first_pass(bytes: &[u8]) -> Result<u64, GdsFault>
    requires { length bytes.now ≤ MOST_BYTES }
    ensures { result ≡ first_pass_of bytes.now }
{
    let mut place = Place::Start;
    let mut at = 0;
    'records: loop {
        let rec = next_record(bytes, at)?;
        place = step(place, &rec, &bytes[rec.at as usize + 4..rec.next as usize])?;
        if let Place::Ended = place {
            return behind(bytes, rec.next);
        }
        at = rec.next;
    }
}
