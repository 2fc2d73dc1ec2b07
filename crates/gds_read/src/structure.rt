ghost use Rattle.std.specs.Prelude.{◌≡◌, ◌≤◌, ◌<◌, ◌+◌, ◌==◌, length, Ok};
ghost use Rattle.gds_read.specs.Grammar.{item_with};
ghost use Rattle.gds_read.specs.Structure.{trimmed, is_named, Finds, IsWithin, found_in};

use cell_num::MOST_BYTES;
use gds_record::{GdsRec, RecordType, next_record};

/// The structures that have a name.
#[derive(Clone, Copy, Debug, PartialEq, Eq)]
pub enum Lookup {
    NoCell,
    Twice,
    /// One, with the place after its name.
    At { place: u64 },
}

/// A text without the zero bytes at its end.
#[tactic(auto, using(crate::proofs::Trim::trim_zero, crate::proofs::Trim::trim_kept))]
pub fn trim(text: &[u8]) -> &[u8]
    ensures { result.now ≡ trimmed text.now }
{
    let mut end = text.len();
    while 0 < end {
        if text[end - 1] != 0 {
            return &text[..end];
        }
        end -= 1;
    }
    &[]
}

fn named(rec: &GdsRec, content: &[u8], name: &[u8]) -> bool
    ensures { result ≡ is_named name.now (item_with rec.now content.now) }
{
    rec.code == RecordType::StrName.number() && trim(content) == name
}

/// The place after the name of the structure that has it.
#[tactic(auto, using(gds_record::proofs::Walks::moves, crate::proofs::Tails::tail_rules))]
pub fn find_structure(bytes: &[u8], name: &[u8]) -> Lookup
    requires { length bytes.now ≤ MOST_BYTES }
    ensures found { Finds bytes.now result (found_in bytes.now name.now) }
    ensures within { IsWithin (length bytes.now) result }
{
    let mut found = Lookup::NoCell;
    let mut at = 0;
    'records: loop {
        let Ok(rec) = next_record(bytes, at) else {
            return found;
        };
        if named(&rec, &bytes[rec.at as usize + 4..rec.next as usize], name) {
            let Lookup::NoCell = found else {
                return Lookup::Twice;
            };
            found = Lookup::At { place: rec.next };
        }
        at = rec.next;
    }
}
