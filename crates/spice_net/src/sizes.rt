ghost use Rattle.std.specs.Prelude.{◌≡◌};
ghost use Rattle.spice_net.specs.declared.fault.SpiceFault.TheVariants as fault;
ghost use Rattle.spice_text.specs.Numbers.{fixed_of};
ghost use Rattle.cell_num.specs.Steps.{or_fault};
ghost use Rattle.spice_net.specs.Numbers.{units_of};
ghost use Rattle.spice_net.specs.Transistors.{sizes_of};

use crate::fault::SpiceFault;
use crate::fields::Fields;
use crate::numbers::{count, units};
use cell_num::Fixed;
use spice_text::read_fixed;
use std::marker::Model;
use tech_file::Tech;

/// The numbers of a transistor line: the channel's width and its length in grid units, and the counts
/// that `m` and `nf` are, where they are whole numbers from 1 to 64.
#[derive(Drop)]
pub struct Sizes {
    pub width: u32,
    pub channel: u32,
    pub copies: Option<u32>,
    pub fingers: Option<u32>,
}

impl Model for Sizes {
    ghost use Rattle.spice_net.specs.Transistors.{Sizes as SizesOf};

    ghost Value = { SizesOf };

    ghost view = { λ v. record { width = v.width; channel = v.channel; copies = v.copies; fingers = v.fingers } };
}

fn size(tech: &Tech, line: u32, value: &[u8]) -> Result<u32, SpiceFault>
    ensures { result ≡ or_fault (units_of tech.now value.now) (fault.Number line) }
{
    match units(tech, value) {
        Some(units) => Ok(units),
        None => Err(SpiceFault::Number { line }),
    }
}

fn number(line: u32, value: &[u8]) -> Result<Fixed, SpiceFault>
    ensures { result ≡ or_fault (fixed_of value.now) (fault.Number line) }
{
    match read_fixed(value) {
        Some(number) => Ok(number),
        None => Err(SpiceFault::Number { line }),
    }
}

/// The numbers of a line.
pub fn read_sizes(tech: &Tech, line: u32, fields: &Fields) -> Result<Sizes, SpiceFault>
    ensures { result ≡ sizes_of tech.now line fields.now }
{
    let width = size(tech, line, fields.width)?;
    let channel = size(tech, line, fields.channel)?;
    let m = number(line, fields.m)?;
    let nf = number(line, fields.nf)?;
    Ok(Sizes {
        width,
        channel,
        copies: count(&m),
        fingers: count(&nf),
    })
}
