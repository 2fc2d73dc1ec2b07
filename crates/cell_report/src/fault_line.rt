ghost use Rattle.std.specs.Prelude.{◌≡◌, ◌++◌, map, flat_map, codes, OnOk};
ghost use Rattle.cell_report.specs.Faults.{field_text, fault_line};
ghost use Rattle.cell_report.specs.Fields.{spelled};

use cell_num::{Bytes, NoMemory, put_number};
use itoa::Buffer;

/// A field of a fault: its name and its value.
#[derive(Clone, Copy)]
pub enum Field<'a> {
    Number(&'a [u8], u64),
    Signed(&'a [u8], i64),
    Text(&'a [u8], &'a [u8]),
}

// Adds a word after a blank.
fn put_word(out: &mut Bytes, word: &[u8]) -> Result<(), NoMemory>
    ensures { OnOk result (out.new ≡ out.old ++ codes " " ++ word.now) }
{
    out.extend(b" ")?;
    out.extend(word)
}

fn put_field(out: &mut Bytes, field: &Field<'_>) -> Result<(), NoMemory>
    ensures { OnOk result (out.new ≡ out.old ++ field_text (spelled field.now)) }
{
    match field {
        Field::Number(name, value) => {
            put_word(out, name)?;
            out.extend(b" ")?;
            put_number(out, *value)
        }
        Field::Signed(name, value) => {
            put_word(out, name)?;
            put_word(out, Buffer::new().format(*value).as_bytes())
        }
        Field::Text(name, text) => {
            put_word(out, name)?;
            put_word(out, text)
        }
    }
}

fn put_fields(out: &mut Bytes, fields: &[Field<'_>]) -> Result<(), NoMemory>
    ensures { OnOk result (out.new ≡ out.old ++ flat_map field_text (map spelled fields.now)) }
{
    'fields: for field in fields {
        put_field(out, field)?;
    }
    Ok(())
}

/// Adds the line of a fault: the part's word, the fault's name, and each field's name and value.
pub fn put_fault(
    out: &mut Bytes,
    word: &[u8],
    name: &[u8],
    fields: &[Field<'_>],
) -> Result<(), NoMemory>
    ensures { OnOk result
        (out.new ≡ out.old ++ fault_line word.now (record { name = name.now; fields = map spelled fields.now })) }
{
    out.extend(word)?;
    put_word(out, name)?;
    put_fields(out, fields)?;
    out.extend(b"\n")
}
