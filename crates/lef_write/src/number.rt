// Lengths and coordinates in microns.
ghost use Rattle.std.specs.Prelude.{◌≡◌, ◌<◌, ◌++◌, OnOk};
ghost use Rattle.lef_write.specs.Lef.{digit, microns, minus_of, coordinate};

use cell_num::{Bytes, NoMemory, put_number};

fn digit(value: u64) -> u8
    requires { value < 10 }
    ensures { result ≡ digit value }
{
    b'0' + value as u8
}

/// Adds a length in microns, with exactly three decimals.
#[tactic(auto, unfolding(crate::specs::Lef::microns))]
pub fn put_microns(out: &mut Bytes, nanometres: u64) -> Result<(), NoMemory>
    ensures { OnOk result (out.new ≡ out.old ++ microns nanometres) }
{
    let part = nanometres % 1000;
    put_number(out, nanometres / 1000)?;
    out.extend(b".")?;
    out.extend(&[digit(part / 100), digit(part / 10 % 10), digit(part % 10)])
}

fn put_minus(out: &mut Bytes, value: i32) -> Result<(), NoMemory>
    ensures { OnOk result (out.new ≡ out.old ++ minus_of value) }
{
    if value < 0 { out.extend(b"-") } else { Ok(()) }
}

/// Adds a coordinate that is given in grid units of `unit_nm` nanometres.
#[tactic(auto, unfolding(crate::specs::Lef::coordinate))]
pub fn put_coordinate(out: &mut Bytes, value: i32, unit_nm: u32) -> Result<(), NoMemory>
    ensures { OnOk result (out.new ≡ out.old ++ coordinate unit_nm value) }
{
    put_minus(out, value)?;
    put_microns(out, u64::from(value.unsigned_abs()) * u64::from(unit_nm))
}
