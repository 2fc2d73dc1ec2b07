use cell_num::{NetNo, NoMemory};
use row_model::Arrangement;
use trail_log::TrailCertificate;

/// The first least arrangement.
#[derive(Debug, Drop)]
pub struct TrailFound {
    pub row: Arrangement,
    /// The certificate that lists the row, and proves that no arrangement has fewer gaps.
    pub trails: TrailCertificate,
}

/// Why a search ended without a row.
#[derive(Debug, Drop)]
pub enum TrailStop {
    /// The budget is spent. The lemmas of the certificate, which lists no row, prove that each arrangement has at least
    /// `proved` gaps.
    Unfinished {
        trails: TrailCertificate,
        proved: u32,
    },
    /// There are too many ways to pair the fingers of the gate. It is the first such gate that is not left open. Or it
    /// is the first that is left open, and each arrangement has more gaps than lemmas prove then.
    Choices {
        gate: NetNo,
    },
    NoMemory,
}

impl From<NoMemory> for TrailStop {
    ghost use Rattle.std.specs.Prelude.{◌≡◌};
    ghost use Rattle.trail_search.specs.declared.found.TrailStop.TheVariants.{NoMemory};

    ghost from_gives = { λ _ e. e ≡ NoMemory };

    fn from(_: NoMemory) -> TrailStop {
        TrailStop::NoMemory
    }
}
