ghost use Rattle.std.specs.Prelude.{◌≡◌};

use cell_num::{NetNo, NoMemory};
use thiserror::Error;

/// Why lemmas on ends are refused, in the order of looking.
#[derive(Debug, PartialEq, Eq, Drop, Error)]
pub enum PoolRefusal {
    /// The order is not each gate of a finger once.
    #[error("Order")]
    Order,
    /// The first gate of the order whose fingers pair in more than [`MOST_CHOICES`](crate::MOST_CHOICES) ways.
    #[error("Choices")]
    Choices { gate: NetNo },
    /// The place of the first lemma that is not justified by those before it.
    #[error("Unproved")]
    Unproved { at: usize },
    #[error("NoMemory")]
    NoMemory,
}

impl From<NoMemory> for PoolRefusal {
    ghost use Rattle.pool_check.specs.declared.refusal.PoolRefusal.TheVariants.{NoMemory};

    ghost from_gives = { λ _ e. e ≡ NoMemory };

    fn from(_: NoMemory) -> PoolRefusal {
        PoolRefusal::NoMemory
    }
}
