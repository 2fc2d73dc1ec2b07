use crate::TrailEvidence;
use cell_num::{NetNo, NoMemory};
use row_model::Arrangement;

/// The first least arrangement.
#[derive(Debug, Drop)]
pub struct EitherFound {
    pub row: Arrangement,
    /// The certificate that lists the row, and proves that no arrangement has fewer gaps.
    pub evidence: TrailEvidence,
}

/// Why a search ended without a row.
#[derive(Debug, Drop)]
pub enum EitherStop {
    /// The certificate, which lists no row, proves that each arrangement has at least `proved` gaps. No search with
    /// pools proves more. The search for it spent the budget, or a later one did that proves no more. Or none spent it,
    /// and each arrangement has more gaps.
    Unfinished {
        evidence: TrailEvidence,
        proved: u32,
    },
    /// The gate at which a search for a certificate of version 1 ends, where no search with pools could list lemmas.
    Choices {
        gate: NetNo,
    },
    NoMemory,
}

impl From<NoMemory> for EitherStop {
    ghost use Rattle.std.specs.Prelude.{◌≡◌};
    ghost use Rattle.trail_either.specs.declared.found.EitherStop.TheVariants.{NoMemory};

    ghost from_gives = { λ _ e. e ≡ NoMemory };

    fn from(_: NoMemory) -> EitherStop {
        EitherStop::NoMemory
    }
}
