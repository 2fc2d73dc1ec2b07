ghost use Rattle.std.specs.Prelude.{◌≡◌};

use box_geom::Shapes;
use cell_num::NoMemory;
use std::alloc::AllocError;
use thiserror::Error;

/// The shapes and the labels of a cell, and its width and height in grid units.
#[derive(Clone, Debug, PartialEq, Drop)]
pub struct Drawing {
    pub shapes: Shapes,
    pub width: u32,
    pub height: u32,
}

/// Why no cell was drawn.
#[derive(Debug, Drop, Error)]
pub enum DrawFault {
    /// The given height of the cell is below the one that its rows and tracks need.
    #[error("TooTall")]
    TooTall { needed: u32, given: u32 },
    #[error("NoMemory")]
    NoMemory,
}

impl From<NoMemory> for DrawFault {
    ghost use Rattle.cell_draw.specs.declared.drawing.DrawFault.TheVariants.{NoMemory as OutOfMemory};

    ghost from_gives = { λ _ e. e ≡ OutOfMemory };

    fn from(_: NoMemory) -> DrawFault {
        DrawFault::NoMemory
    }
}

impl From<AllocError> for DrawFault {
    ghost use Rattle.cell_draw.specs.declared.drawing.DrawFault.TheVariants.{NoMemory as OutOfMemory};

    ghost from_gives = { λ _ e. e ≡ OutOfMemory };

    fn from(_: AllocError) -> DrawFault {
        DrawFault::NoMemory
    }
}
