ghost use Rattle.std.specs.Prelude.{◌≡◌, IfOk};
ghost use Rattle.std.specs.List.{list_all};
ghost use Rattle.cell_num.specs.Names.{lowered, is_name_byte, is_name, is_cell_byte, is_cell};

use crate::{Name, NoMemory};
use std::alloc::Global;

/// The bytes of the longest name.
pub const MOST_NAME_BYTES: usize = 64;

/// The bytes of the longest name of a cell.
pub const MOST_CELL_BYTES: usize = 32;

/// A copy of a text.
pub fn copy(alloc: Global, text: &[u8]) -> Result<Name, NoMemory>
    ensures { IfOk result (λ n. n ≡ text.now) }
{
    Ok(Name::from_vec(Vec::from_slice(alloc, text)?))
}

/// A copy with its letters in lower case.
pub fn lower(alloc: Global, text: &[u8]) -> Result<Name, NoMemory>
    ensures { IfOk result (λ n. n ≡ lowered text.now) }
{
    let bytes = text
        .iter()
        .map(|b| b.to_ascii_lowercase())
        .collect::<Vec<u8>>(alloc)?;
    Ok(Name::from_vec(bytes))
}

fn name_byte(byte: u8) -> bool
    ensures { result ≡ is_name_byte byte }
{
    b'!' <= byte && byte <= b'~' && !b"=;#\"'(),{}\\".contains(&byte)
}

fn name_bytes(word: &[u8]) -> bool
    ensures { result ≡ list_all is_name_byte word.now }
{
    word.iter().all(|b| name_byte(*b))
}

/// Whether a word may name a net, a transistor or a model: 1 to [`MOST_NAME_BYTES`] printable bytes,
/// none of them a blank or one of `=;#"'(),{}\`.
pub fn is_name(word: &[u8]) -> bool
    ensures { result ≡ is_name word.now }
{
    1 <= word.len() && word.len() <= MOST_NAME_BYTES && name_bytes(word)
}

fn cell_byte(byte: u8) -> bool
    ensures { result ≡ is_cell_byte byte }
{
    byte.is_ascii_alphanumeric() || byte == b'_' || byte == b'$' || byte == b'?'
}

fn cell_bytes(word: &[u8]) -> bool
    ensures { result ≡ list_all is_cell_byte word.now }
{
    word.iter().all(|b| cell_byte(*b))
}

/// Whether a word may name a cell: 1 to [`MOST_CELL_BYTES`] letters, digits, `_`, `$` or `?`.
pub fn is_cell(word: &[u8]) -> bool
    ensures { result ≡ is_cell word.now }
{
    1 <= word.len() && word.len() <= MOST_CELL_BYTES && cell_bytes(word)
}
