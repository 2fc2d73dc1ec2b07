ghost use Rattle.std.specs.Prelude.{◌≡◌};

use cell_num::{NetNo, NoMemory};
use thiserror::Error;

/// Why a certificate is refused, in the order of looking.
#[derive(Debug, PartialEq, Eq, Drop, Error)]
pub enum TrailRefusal {
    /// The order is not each gate of a finger once. Or the gates with half columns that are not filled do not all have
    /// more fingers in one row. Or, in versions 2 and 3, a gate without half columns is filled.
    #[error("Gates")]
    Gates,
    /// The first gate of the order that is not left open, and whose fingers pair in more than
    /// [`MOST_CHOICES`](crate::MOST_CHOICES) ways.
    #[error("Choices")]
    Choices { gate: NetNo },
    /// In versions 2 and 3: the first lemma whose line, by its number in the text, is not the one text of its state.
    #[error("Line")]
    Line { line: u32 },
    /// The first lemma that is not justified, by its line in the text of the certificate.
    #[error("Unproved")]
    Unproved { line: u32 },
    /// The certificate lists no row. The lemmas prove that each has at least `best` gaps.
    #[error("NoRow")]
    NoRow { best: u32 },
    /// The listed columns are no arrangement of the fingers.
    #[error("NotArrangement")]
    NotArrangement,
    /// The certificate says another number of gaps than its columns have.
    #[error("Gaps")]
    Gaps { said: u32, counted: u32 },
    /// The row has more gaps than the lemmas prove that each has.
    #[error("NotLeast")]
    NotLeast { best: u32, said: u32 },
    #[error("NoMemory")]
    NoMemory,
}

impl From<NoMemory> for TrailRefusal {
    ghost use Rattle.trail_check.specs.declared.refusal.TrailRefusal.TheVariants.{NoMemory};

    ghost from_gives = { λ _ e. e ≡ NoMemory };

    fn from(_: NoMemory) -> TrailRefusal {
        TrailRefusal::NoMemory
    }
}
