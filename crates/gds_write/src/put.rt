// Records and numbers at the end of a list of bytes.
ghost use Rattle.std.specs.Prelude.{◌≡◌, ◌<◌, ◌≤◌, ◌+◌, ◌++◌, [], ◌∷◌, length, pos, ◌*ℤ◌, OnOk};
ghost use Rattle.std.specs.Int.{w16, to_be_bytes};
ghost use Rattle.gds_record.specs.Records.{raw, spelled};
ghost use Rattle.gds_record.specs.Types.{number_of, data_number_of, data_type_of};
ghost use Rattle.gds_write.specs.Written.{padded, long, point, Fits};

use gds_record::RecordType;
use std::alloc::AllocError;

/// The header of a record: its length, its type and its data type.
pub fn put_header(out: &mut Vec<u8>, kind: RecordType, content: u16) -> Result<(), AllocError>
    requires { content ≤ 1000 }
    ensures { OnOk result (out.new.items ≡ out.old.items ++ (to_be_bytes w16 (content + 4) ++
        number_of kind ∷ data_number_of (data_type_of kind) ∷ [])) }
{
    let [high, low] = (content + 4).to_be_bytes();
    out.extend_from_slice(&[high, low, kind.number(), kind.data_type().number()])
}

/// A record of the table.
#[tactic(auto, unfolding(gds_record::specs::Records::spelled))]
pub fn put(out: &mut Vec<u8>, kind: RecordType, content: &[u8]) -> Result<(), AllocError>
    requires { length content.now ≤ 1000 }
    ensures { OnOk result (out.new.items ≡ out.old.items ++ spelled (raw kind content.now)) }
{
    put_header(out, kind, content.len() as u16)?;
    out.extend_from_slice(content)?;
    Ok(())
}

/// A record of text, filled up to an even length.
#[tactic(auto, unfolding(gds_record::specs::Records::spelled))]
pub fn put_text(out: &mut Vec<u8>, kind: RecordType, text: &[u8]) -> Result<(), AllocError>
    requires { length text.now < 1000 }
    ensures { OnOk result (out.new.items ≡ out.old.items ++ spelled (raw kind (padded text.now))) }
{
    if text.len() % 2 == 0 {
        put(out, kind, text)
    } else {
        put_header(out, kind, text.len() as u16 + 1)?;
        out.extend_from_slice(text)?;
        out.push(0)?;
        Ok(())
    }
}

fn nanometres(value: i32, unit: u32) -> i32
    requires { Fits unit value }
    ensures { result ≡ value *ℤ pos unit }
{
    (i64::from(value) * i64::from(unit)) as i32
}

#[tactic(auto, unfolding(crate::specs::Written::long))]
fn put_long(out: &mut Vec<u8>, value: i32, unit: u32) -> Result<(), AllocError>
    requires { Fits unit value }
    ensures { OnOk result (out.new.items ≡ out.old.items ++ long unit value) }
{
    out.extend_from_slice(&nanometres(value, unit).to_be_bytes())
}

/// A point, in nanometres.
#[tactic(auto, unfolding(crate::specs::Written::point))]
pub fn put_point(out: &mut Vec<u8>, x: i32, y: i32, unit: u32) -> Result<(), AllocError>
    requires x { Fits unit x }
    requires y { Fits unit y }
    ensures { OnOk result (out.new.items ≡ out.old.items ++ point unit x y) }
{
    put_long(out, x, unit)?;
    put_long(out, y, unit)?;
    Ok(())
}
