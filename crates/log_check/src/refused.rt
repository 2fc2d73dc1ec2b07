ghost use Rattle.std.specs.Prelude.{◌≡◌};

use cell_num::NoMemory;
use thiserror::Error;

/// Why a log is refused, in the order of looking.
#[derive(Debug, PartialEq, Eq, Drop, Error)]
pub enum Refused {
    /// The first lemma that is not justified, by its line in the text of the log.
    #[error("Unproved")]
    Unproved { line: u32 },
    /// The log lists no row. The lemmas prove that each has at least `best` gaps.
    #[error("NoRow")]
    NoRow { best: u32 },
    /// The listed columns are no arrangement of the fingers.
    #[error("NotArrangement")]
    NotArrangement,
    /// The log says another number of gaps than its columns have.
    #[error("Gaps")]
    Gaps { said: u32, counted: u32 },
    /// The row has more gaps than the lemmas prove that each has.
    #[error("NotLeast")]
    NotLeast { best: u32, said: u32 },
    #[error("NoMemory")]
    NoMemory,
}

impl From<NoMemory> for Refused {
    ghost use Rattle.log_check.specs.declared.refused.Refused.TheVariants.{NoMemory};

    ghost from_gives = { λ _ e. e ≡ NoMemory };

    fn from(_: NoMemory) -> Refused {
        Refused::NoMemory
    }
}
