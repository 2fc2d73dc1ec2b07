use cell_num::NoMemory;
use thiserror::Error;

/// Why the bytes are not the text of a log, by the first place that is wrong.
#[derive(Clone, Copy, Debug, Error)]
pub enum LogFault {
    /// The first line is another.
    #[error("Version")]
    Version,
    /// The second line is not `cell` and the name.
    #[error("Cell")]
    Cell,
    /// A later line, or one after `end`, has no form that is allowed there.
    #[error("Line")]
    Line { line: u32 },
    /// The bytes end before the line `end` does.
    #[error("Cut")]
    Cut,
    #[error("NoMemory")]
    NoMemory,
}

impl From<NoMemory> for LogFault {
    ghost use Rattle.std.specs.Prelude.{◌≡◌};
    ghost use Rattle.bound_log.specs.declared.fault.LogFault.TheVariants.{NoMemory};

    ghost from_gives = { λ _ e. e ≡ NoMemory };

    fn from(_: NoMemory) -> LogFault {
        LogFault::NoMemory
    }
}
