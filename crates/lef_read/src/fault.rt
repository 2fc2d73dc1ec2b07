ghost use Rattle.std.specs.Prelude.{◌≡◌};

use cell_num::NoMemory;
use thiserror::Error;

/// Why no macro is read. `line` is a line of the text, counted from 1 by line feeds.
#[derive(Debug, PartialEq, Eq, Drop, Error)]
pub enum LefFault {
    /// A token that the reading does not allow at its place, an origin other than (0, 0), or a rectangle with no layer.
    #[error("Statement")]
    Statement { line: u32 },
    /// A number of another form, or the sides of a rectangle that do not ascend.
    #[error("Number")]
    Number { line: u32 },
    /// The bytes end inside a statement, a text or a block.
    #[error("Cut")]
    Cut,
    /// No macro has the name.
    #[error("NoMacro")]
    NoMacro,
    /// A rectangle of the macro is no whole number of grid units; the line of its word RECT.
    #[error("Grid")]
    Grid { line: u32 },
    #[error("NoMemory")]
    NoMemory,
}

impl From<NoMemory> for LefFault {
    ghost use Rattle.lef_read.specs.declared.fault.LefFault.TheVariants.{NoMemory as OutOfMemory};

    ghost from_gives = { λ _ e. e ≡ OutOfMemory };

    fn from(_: NoMemory) -> LefFault {
        LefFault::NoMemory
    }
}
