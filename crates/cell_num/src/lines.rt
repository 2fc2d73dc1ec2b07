ghost use Rattle.std.specs.Prelude.{◌≡◌, ◌++◌, decimal, OnOk};
ghost use Rattle.cell_num.specs.Lines.{text_line, count_line, pair_line};

use crate::{Bytes, NoMemory};
use itoa::Buffer;

/// Adds a number in decimal digits.
pub fn put_number(out: &mut Bytes, number: u64) -> Result<(), NoMemory>
    ensures { OnOk result (out.new ≡ out.old ++ decimal number) }
{
    out.extend(Buffer::new().format(number).as_bytes())
}

/// Adds a line of a word and a text.
pub fn put_text(out: &mut Bytes, word: &[u8], text: &[u8]) -> Result<(), NoMemory>
    ensures { OnOk result (out.new ≡ out.old ++ text_line word.now text.now) }
{
    out.extend(word)?;
    out.extend(text)?;
    out.extend(b"\n")
}

/// Adds a line of a word and a count.
pub fn put_count(out: &mut Bytes, word: &[u8], count: u64) -> Result<(), NoMemory>
    ensures { OnOk result (out.new ≡ out.old ++ count_line word.now count) }
{
    out.extend(word)?;
    put_number(out, count)?;
    out.extend(b"\n")
}

/// Adds a line of two numbers, each after its word.
pub fn put_pair(
    out: &mut Bytes,
    word: &[u8],
    first: u32,
    behind: &[u8],
    second: u32,
) -> Result<(), NoMemory>
    ensures { OnOk result (out.new ≡ out.old ++ pair_line word.now first behind.now second) }
{
    out.extend(word)?;
    put_number(out, u64::from(first))?;
    put_count(out, behind, u64::from(second))
}
