ghost use Rattle.std.specs.Prelude.{◌≡◌, ◌≤◌, length};
ghost use Rattle.gds_record.specs.Records.{record_at};

use cell_num::MOST_BYTES;
use thiserror::Error;

/// A record: its place, its type and data type, and the place after it. Its data lies between
/// `at + 4` and `next`.
#[derive(Clone, Copy, Debug, PartialEq, Eq)]
pub struct GdsRec {
    pub at: u64,
    pub code: u8,
    pub form: u8,
    pub next: u64,
}

/// Why no record is at a place.
#[derive(Debug, PartialEq, Eq, Drop, Error)]
pub enum RecFault {
    /// The bytes end before the record does.
    #[error("Cut")]
    Cut { at: u64 },
    /// Its length is odd, or less than the four bytes of its header.
    #[error("Length")]
    Length { at: u64 },
}

/// The record that begins at a place. At most 1,073,741,824 bytes are taken.
pub fn next_record(bytes: &[u8], at: u64) -> Result<GdsRec, RecFault>
    requires { length bytes.now ≤ MOST_BYTES }
    ensures { result ≡ record_at bytes.now at }
{
    let whole = bytes.len() as u64;
    if whole < at || whole - at < 4 {
        return Err(RecFault::Cut { at });
    }
    let here = at as usize;
    let size = 256 * u64::from(bytes[here]) + u64::from(bytes[here + 1]);
    if whole - at < size {
        return Err(RecFault::Cut { at });
    }
    if size < 4 || size % 2 == 1 {
        return Err(RecFault::Length { at });
    }
    Ok(GdsRec {
        at,
        code: bytes[here + 2],
        form: bytes[here + 3],
        next: at + size,
    })
}
