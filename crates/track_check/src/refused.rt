ghost use Rattle.std.specs.Prelude.{◌≡◌};

use cell_num::NoMemory;
use thiserror::Error;

/// Why a certificate of tracks is refused, in the order of looking.
#[derive(Debug, PartialEq, Eq, Drop, Error)]
pub enum TracksRefused {
    /// The first lemma that is not justified by those before it, by its place in the list.
    #[error("Unjustified")]
    Unjustified { at: usize },
    /// No lemma is about the start state, that many gaps and any tracks.
    #[error("NoStart")]
    NoStart,
    #[error("NoMemory")]
    NoMemory,
}

impl From<NoMemory> for TracksRefused {
    ghost use Rattle.track_check.specs.declared.refused.TracksRefused.TheVariants.{NoMemory};

    ghost from_gives = { λ _ e. e ≡ NoMemory };

    fn from(_: NoMemory) -> TracksRefused {
        TracksRefused::NoMemory
    }
}
