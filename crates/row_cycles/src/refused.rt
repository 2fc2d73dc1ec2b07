ghost use Rattle.std.specs.Prelude.{◌≡◌};

use cell_num::NoMemory;
use thiserror::Error;

/// Why a certificate that no row can be wired is refused, in the order of looking.
#[derive(Debug, PartialEq, Eq, Drop, Error)]
pub enum CyclesRefused {
    /// The first lemma that is not justified by those before it, by its place in the list.
    #[error("Unjustified")]
    Unjustified { at: usize },
    /// No lemma is on the start state and that many gaps and asks for nothing.
    #[error("NoStart")]
    NoStart,
    #[error("NoMemory")]
    NoMemory,
}

impl From<NoMemory> for CyclesRefused {
    ghost use Rattle.row_cycles.specs.declared.refused.CyclesRefused.TheVariants.{NoMemory};

    ghost from_gives = { λ _ e. e ≡ NoMemory };

    fn from(_: NoMemory) -> CyclesRefused {
        CyclesRefused::NoMemory
    }
}
