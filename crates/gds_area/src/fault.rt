ghost use Rattle.std.specs.Prelude.{◌≡◌};
ghost use Rattle.gds_area.specs.Faults.{as_fault};
ghost use Rattle.gds_area.specs.declared.fault.GdsFault.TheVariants as fault;

use cell_num::{Name, NoMemory};
use gds_record::RecFault;
use std::alloc::AllocError;
use thiserror::Error;

/// Why the bytes are not read. `at` is a place in the bytes, `code` the type of the record there.
#[derive(Debug, PartialEq, Eq, Drop, Error)]
pub enum GdsFault {
    /// A record is not whole, or the bytes end before the library does.
    #[error("Cut")]
    Cut { at: u64 },
    /// The length of a record or of its data.
    #[error("Length")]
    Length { at: u64 },
    /// A record is where the grammar has no place for it.
    #[error("Order")]
    Order { at: u64, code: u8 },
    /// A record has another data type than its own, or the ends of a path have a form other than 0 and 2.
    #[error("Kind")]
    Kind { at: u64, code: u8 },
    /// The database unit, in picometres, is below 1 or above 1,000,000.
    #[error("Unit")]
    Unit { picometres: u64 },
    /// No structure has the name.
    #[error("NoCell")]
    NoCell,
    /// Two structures have the name.
    #[error("Twice")]
    Twice { name: Name },
    /// Two neighbouring points of a boundary or a path differ in both coordinates.
    #[error("Slant")]
    Slant { at: u64 },
    /// A coordinate is no whole number of grid units, or too large.
    #[error("Grid")]
    Grid { at: u64 },
    /// A reference names no structure or a name that two have, or is magnified, or turned by an angle that
    /// is no quarter turn, or its records or the steps between its copies are not right.
    #[error("Reference")]
    Reference { at: u64 },
    #[error("NoMemory")]
    NoMemory,
    /// More than 16 references are inside one another; the outermost one is here.
    #[error("Deep")]
    Deep { at: u64 },
    /// Up to and with this element the structure has more than 1,000,000 rectangles and references.
    #[error("Wide")]
    Wide { at: u64 },
}

impl From<RecFault> for GdsFault {
    ghost from_gives = { λ f e. e ≡ as_fault f };

    fn from(fault: RecFault) -> GdsFault {
        match fault {
            RecFault::Cut { at } => GdsFault::Cut { at },
            RecFault::Length { at } => GdsFault::Length { at },
        }
    }
}

impl From<NoMemory> for GdsFault {
    ghost from_gives = { λ _ e. e ≡ fault.NoMemory };

    fn from(_: NoMemory) -> GdsFault {
        GdsFault::NoMemory
    }
}

impl From<AllocError> for GdsFault {
    ghost from_gives = { λ _ e. e ≡ fault.NoMemory };

    fn from(_: AllocError) -> GdsFault {
        GdsFault::NoMemory
    }
}
