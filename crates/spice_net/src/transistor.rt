ghost use Rattle.std.specs.Prelude.{◌≡◌, ◌≢◌, IfOk, IfErr, Ok, Err};
ghost use Rattle.spice_net.specs.declared.fault.SpiceFault.TheVariants as fault;
ghost use Rattle.spice_net.specs.Transistors.{row_of, own_rail, other_rail, is_rail, rails_allowed};
ghost use Rattle.spice_net.specs.Transistors.{transistor_with, transistor_of, is_transistor};
ghost use Rattle.spice_net.specs.Reader.{transistor_as};

use crate::chosen::has_name;
use crate::fault::SpiceFault;
use crate::fields::{Fields, read_fields};
use crate::numbers::least_width;
use crate::sizes::read_sizes;
use cell_num::{List, Name, NoMemory, Row, copy};
use std::alloc::Global;
use std::marker::Model;
use tech_file::Tech;

/// A transistor, its nets by their names.
#[derive(Debug, Drop)]
pub struct Transistor {
    /// How many equal transistors its line stands for.
    pub copies: u32,
    pub row: Row,
    pub drain: Name,
    pub gate: Name,
    pub source: Name,
    /// In grid units.
    pub width: u32,
    /// Into how many fingers it is cut at least.
    pub fingers: u32,
}

impl Model for Transistor {
    ghost use Rattle.spice_net.specs.Transistors.{Transistor as TransistorOf};

    ghost Value = { TransistorOf };

    ghost view = { λ v. record {
      copies = v.copies;
      row = v.row;
      drain = v.drain;
      gate = v.gate;
      source = v.source;
      width = v.width;
      fingers = v.fingers;
    } };
}

pub type TransistorList = List<Transistor>;

// The length of every channel.
const CHANNEL_UNITS: u32 = 4;

fn row_of(tech: &Tech, model: &[u8]) -> Option<Row>
    ensures { result ≡ row_of tech.now model.now }
{
    if has_name(tech.p_models.as_slice(), model) {
        Some(Row::P)
    } else if has_name(tech.n_models.as_slice(), model) {
        Some(Row::N)
    } else {
        None
    }
}

fn own_rail(tech: &Tech, row: Row) -> &[u8]
    ensures { result.now ≡ own_rail tech.now row }
{
    match row {
        Row::P => tech.vdd.as_slice(),
        Row::N => tech.gnd.as_slice(),
    }
}

fn other_rail(tech: &Tech, row: Row) -> &[u8]
    ensures { result.now ≡ other_rail tech.now row }
{
    match row {
        Row::P => tech.gnd.as_slice(),
        Row::N => tech.vdd.as_slice(),
    }
}

/// Whether a net is one of the rails.
pub fn is_rail(tech: &Tech, net: &[u8]) -> bool
    ensures { result ≡ is_rail tech.now net.now }
{
    net == tech.vdd.as_slice() || net == tech.gnd.as_slice()
}

fn rails_allowed(tech: &Tech, row: Row, fields: &Fields) -> bool
    ensures { result ≡ rails_allowed tech.now row fields.now }
{
    let other = other_rail(tech, row);
    !is_rail(tech, fields.gate) && fields.drain != other && fields.source != other
}

// what is known of a transistor that is not refused, beside its nets
#[derive(Clone, Copy)]
struct Judged {
    copies: u32,
    row: Row,
    width: u32,
    fingers: u32,
}

fn judge(tech: &Tech, line: u32, fields: &Fields) -> Result<Judged, SpiceFault>
    ensures right { IfOk result (λ j. transistor_with tech.now line fields.now ≡ Ok (transistor_as j fields.now)) }
    ensures fault { IfErr result (λ f. transistor_with tech.now line fields.now ≡ Err f) }
{
    let Some(row) = row_of(tech, fields.model) else {
        return Err(SpiceFault::Model { line });
    };
    let sizes = read_sizes(tech, line, fields)?;
    if sizes.channel != CHANNEL_UNITS {
        return Err(SpiceFault::Length {
            line,
            units: sizes.channel,
        });
    }
    if u64::from(sizes.width) < least_width(sizes.fingers) {
        return Err(SpiceFault::Narrow {
            line,
            units: sizes.width,
        });
    }
    if fields.bulk != own_rail(tech, row) {
        return Err(SpiceFault::Body { line });
    }
    if !rails_allowed(tech, row, fields) {
        return Err(SpiceFault::Rail { line });
    }
    let (Some(copies), Some(fingers)) = (sizes.copies, sizes.fingers) else {
        return Err(SpiceFault::Multiple { line });
    };
    Ok(Judged {
        copies,
        row,
        width: sizes.width,
        fingers,
    })
}

fn named(alloc: Global, judged: Judged, fields: &Fields) -> Result<Transistor, NoMemory>
    ensures { IfOk result (λ t. t ≡ transistor_as judged fields.now) }
{
    Ok(Transistor {
        copies: judged.copies,
        row: judged.row,
        drain: copy(alloc, fields.drain)?,
        gate: copy(alloc, fields.gate)?,
        source: copy(alloc, fields.source)?,
        width: judged.width,
        fingers: judged.fingers,
    })
}

/// Whether a line's first word begins with an `m`.
pub fn is_transistor(words: &[Name]) -> bool
    ensures { result ≡ is_transistor words.now }
{
    match words {
        [first, ..] => first.as_slice().starts_with(b"m"),
        [] => false,
    }
}

/// The transistor of a line that begins with an `m`, or the line's first fault.
pub fn read_transistor(
    alloc: Global,
    tech: &Tech,
    line: u32,
    words: &[Name],
) -> Result<Transistor, SpiceFault>
    ensures transistor { IfOk result (λ t. transistor_of tech.now line words.now ≡ Ok t) }
    ensures fault { IfErr result (λ f. f ≢ fault.NoMemory → transistor_of tech.now line words.now ≡ Err f) }
{
    let fields = read_fields(line, words)?;
    let judged = judge(tech, line, &fields)?;
    let transistor = named(alloc, judged, &fields)?;
    Ok(transistor)
}
