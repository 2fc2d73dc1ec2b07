use std::alloc::AllocError;
use thiserror::Error;

/// Why there is no first routing.
#[derive(Debug, Drop, Error)]
pub enum FirstStop {
    /// No legal routing has that many tracks.
    #[error("no legal routing has so many tracks")]
    None,
    /// The tries of the budget are spent.
    #[error("the tries of the budget are spent")]
    Spent,
    #[error("out of memory")]
    NoMemory,
}

impl From<AllocError> for FirstStop {
    ghost use Rattle.std.specs.Prelude.{◌≡◌};
    ghost use Rattle.first_route.specs.declared.stop.FirstStop.TheVariants.{NoMemory};

    ghost from_gives = { λ _ e. e ≡ NoMemory };

    fn from(_: AllocError) -> FirstStop {
        FirstStop::NoMemory
    }
}
