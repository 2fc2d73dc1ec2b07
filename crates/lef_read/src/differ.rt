use box_geom::Layer;
use cell_num::{Name, NoMemory};
use net_extract::ExtractFault;
use std::alloc::AllocError;
use thiserror::Error;

/// The first thing in which a macro differs from a drawing, in the order of looking. `x` and `y` are the
/// lower left corner of a cell, in grid units.
#[derive(Debug, PartialEq, Eq, Drop, Error)]
pub enum Differ {
    /// The drawing has no netlist.
    #[error("Extract")]
    Extract(ExtractFault),
    /// A pin whose name is no label of the drawing.
    #[error("NoLabel")]
    NoLabel { name: Name },
    /// A cell of a port that is not in the net of its pin.
    #[error("Port")]
    Port { name: Name, x: i32, y: i32 },
    /// A cell of metal that lies in no port and no obstruction.
    #[error("Bare")]
    Bare { layer: Layer, x: i32, y: i32 },
    #[error("NoMemory")]
    NoMemory,
}

impl From<NoMemory> for Differ {
    ghost use Rattle.std.specs.Prelude.{◌≡◌};
    ghost use Rattle.lef_read.specs.declared.differ.Differ.TheVariants.{NoMemory as OutOfMemory};

    ghost from_gives = { λ _ e. e ≡ OutOfMemory };

    fn from(_: NoMemory) -> Differ {
        Differ::NoMemory
    }
}

impl From<AllocError> for Differ {
    ghost use Rattle.std.specs.Prelude.{◌≡◌};
    ghost use Rattle.lef_read.specs.declared.differ.Differ.TheVariants.{NoMemory as OutOfMemory};

    ghost from_gives = { λ _ e. e ≡ OutOfMemory };

    fn from(_: AllocError) -> Differ {
        Differ::NoMemory
    }
}

impl From<ExtractFault> for Differ {
    ghost use Rattle.std.specs.Prelude.{◌≡◌};
    ghost use Rattle.lef_read.specs.Lookups.{differs_as};

    ghost from_gives = { λ f d. d ≡ differs_as f };

    fn from(fault: ExtractFault) -> Differ {
        match fault {
            ExtractFault::NoMemory => Differ::NoMemory,
            fault => Differ::Extract(fault),
        }
    }
}
