use bound_log::{Best, Kept, Log};
use cell_num::NoMemory;
use row_model::Arrangement;

/// The first least arrangement.
#[derive(Debug, Drop)]
pub struct Found {
    pub row: Arrangement,
    /// The log that lists the row, and proves that no arrangement has fewer gaps.
    pub log: Log,
    /// How many nodes of the budget the search took.
    pub nodes: u64,
}

/// Why a search ended without a row.
#[derive(Debug, Drop)]
pub enum Stop {
    /// The budget is spent. The lemmas prove that each arrangement has at least `proved` gaps.
    Unfinished { log: Log, proved: u32 },
    NoMemory,
}

/// The first least arrangement, with the lemmas as they were kept.
#[derive(Debug, Drop)]
pub struct FoundKept {
    pub row: Arrangement,
    /// Prove that no arrangement has fewer gaps.
    pub kept: Kept,
    /// The row as a log lists it.
    pub best: Best,
    /// How many nodes of the budget the search took.
    pub nodes: u64,
}

/// Why a search ended without a row, with the lemmas as they were kept.
#[derive(Debug, Drop)]
pub enum StopKept {
    /// The budget is spent. The lemmas prove that each arrangement has at least `proved` gaps.
    Unfinished { kept: Kept, proved: u32 },
    NoMemory,
}

impl From<NoMemory> for Stop {
    ghost use Rattle.std.specs.Prelude.{◌≡◌};
    ghost use Rattle.row_search.specs.declared.found.Stop.TheVariants.{NoMemory};

    ghost from_gives = { λ _ e. e ≡ NoMemory };

    fn from(_: NoMemory) -> Stop {
        Stop::NoMemory
    }
}

impl From<NoMemory> for StopKept {
    ghost use Rattle.std.specs.Prelude.{◌≡◌};
    ghost use Rattle.row_search.specs.declared.found.StopKept.TheVariants.{NoMemory};

    ghost from_gives = { λ _ e. e ≡ NoMemory };

    fn from(_: NoMemory) -> StopKept {
        StopKept::NoMemory
    }
}
