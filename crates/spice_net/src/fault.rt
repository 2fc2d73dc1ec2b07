ghost use Rattle.std.specs.Prelude.{◌≡◌};

use cell_num::{Name, NoMemory};
use thiserror::Error;

/// What there is too much of.
#[derive(Clone, Copy, Debug, PartialEq, Eq)]
pub enum What {
    Pins,
    Devices,
    Nets,
}

/// Why no subcircuit was read. A line is the number, counted from 1, of a logical line's first
/// physical line, except for `NotAscii`. Units are grid units of half a lambda.
#[derive(Debug, Drop, Error)]
pub enum SpiceFault {
    /// A physical line that is no comment holds a byte that is neither printable ASCII nor a tab.
    #[error("NotAscii")]
    NotAscii { line: u32 },
    /// No line begins a subcircuit of the name.
    #[error("NoCell")]
    NoCell,
    /// No `.ends` line follows it.
    #[error("Unended")]
    Unended,
    /// A line inside is neither a transistor nor `.global`.
    #[error("Element")]
    Element { line: u32 },
    /// A transistor has fewer than six words or a word that is no name among them, a parameter has no
    /// `=`, its width or its length is missing; or a pin is no name or listed twice.
    #[error("Fields")]
    Fields { line: u32 },
    /// The model is of neither kind of transistor.
    #[error("Model")]
    Model { line: u32 },
    /// A width, a length, an `m` or an `nf` is no number, or a size is above 100,000 units.
    #[error("Number")]
    Number { line: u32 },
    /// The length is not 4 units.
    #[error("Length")]
    Length { line: u32, units: u32 },
    /// The width is below 6 units, or below 6 for each finger that `nf` asks for.
    #[error("Narrow")]
    Narrow { line: u32, units: u32 },
    /// The bulk is not vdd of a P or gnd of an N transistor.
    #[error("Body")]
    Body { line: u32 },
    /// A gate is a rail, an N transistor ends on vdd, or a P transistor ends on gnd.
    #[error("Rail")]
    Rail { line: u32 },
    /// A rail is neither a pin nor named by a `.global` line.
    #[error("NoRail")]
    NoRail,
    /// The first pin, other than the rails, that no transistor has at its drain, gate or source.
    #[error("IdlePin")]
    IdlePin { name: Name },
    /// There is no transistor.
    #[error("Empty")]
    Empty,
    /// More than 64 pins, 128 devices with all their copies or 256 nets.
    #[error("TooMany")]
    TooMany { what: What, count: u64 },
    /// `m` or `nf` is a number, but no whole number from 1 to 64.
    #[error("Multiple")]
    Multiple { line: u32 },
    #[error("NoMemory")]
    NoMemory,
}

impl From<NoMemory> for SpiceFault {
    ghost use Rattle.spice_net.specs.declared.fault.SpiceFault.TheVariants.{NoMemory};

    ghost from_gives = { λ _ e. e ≡ NoMemory };

    fn from(_: NoMemory) -> SpiceFault {
        SpiceFault::NoMemory
    }
}
