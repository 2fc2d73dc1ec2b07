use cell_num::NoMemory;
use fewer_log::FewerCertificate;
use row_model::Arrangement;

/// The first least arrangement.
#[derive(Debug, Drop)]
pub struct PoolFound {
    pub row: Arrangement,
    /// The certificate that lists the row, and proves that no arrangement has fewer gaps.
    pub certificate: FewerCertificate,
}

/// Why a search ended without a row.
#[derive(Debug, Drop)]
pub enum PoolStop {
    /// The budget is spent. The lemmas of the certificate, which lists no row, prove that each arrangement has at least
    /// `proved` gaps.
    Unfinished {
        certificate: FewerCertificate,
        proved: u32,
    },
    /// Each arrangement has more gaps than the `proved` ones of the lemmas of the certificate, which lists no row. No
    /// lemmas over its order prove more.
    InVain {
        certificate: FewerCertificate,
        proved: u32,
    },
    /// No text lists the lemmas. Or a gate has too many ways, though half columns stay open: never with `Without`.
    Crowded,
    NoMemory,
}

impl From<NoMemory> for PoolStop {
    ghost use Rattle.std.specs.Prelude.{◌≡◌};
    ghost use Rattle.pool_trails.specs.declared.found.PoolStop.TheVariants.{NoMemory};

    ghost from_gives = { λ _ e. e ≡ NoMemory };

    fn from(_: NoMemory) -> PoolStop {
        PoolStop::NoMemory
    }
}
