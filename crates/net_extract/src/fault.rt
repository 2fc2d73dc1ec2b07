use cell_num::Name;
use thiserror::Error;

/// Why a drawing has no netlist, in the order of looking.
#[derive(Debug, PartialEq, Eq, Drop, Error)]
pub enum ExtractFault {
    /// More than 10,000 rectangles, or else more than 2,000 labels.
    #[error("TooMany")]
    TooMany { count: u64 },
    /// A class of gate cells that is no device; the lower left corner of its first cell, in grid units.
    #[error("OddDevice")]
    OddDevice { x: i32, y: i32 },
    /// A label that belongs to no conductor cell.
    #[error("Stray")]
    Stray { name: Name },
    /// Two different labels in one net.
    #[error("Short")]
    Short { one: Name, other: Name },
    /// One label in two nets.
    #[error("Split")]
    Split { name: Name },
    #[error("NoMemory")]
    NoMemory,
}
