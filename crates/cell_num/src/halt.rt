use crate::NoMemory;

/// Why a search ends without an answer.
#[derive(Debug, Drop)]
pub enum Halt {
    /// The budget is spent.
    Spent,
    /// Memory ran out.
    NoMemory,
}

impl From<NoMemory> for Halt {
    ghost use Rattle.std.specs.Prelude.{◌≡◌};
    ghost use Rattle.cell_num.specs.declared.halt.Halt.TheVariants.{NoMemory};

    ghost from_gives = { λ _ e. e ≡ NoMemory };

    fn from(_: NoMemory) -> Halt {
        Halt::NoMemory
    }
}
