ghost use Rattle.std.specs.Prelude.{◌≡◌};

use cell_num::{NetNo, NoMemory};
use trail_log::{NetList, TrailCertificate};

/// A certificate without a row: its lemmas prove that every arrangement of some fingers has at least `gaps` gaps.
#[derive(Debug, Drop)]
pub(crate) struct Proof {
    pub trails: TrailCertificate,
    /// The gates that are left open, since they have too many ways.
    pub opened: NetList,
    pub gaps: u32,
}

/// Why a search for a proof ends early.
#[derive(Debug, Drop)]
pub(crate) enum ProveStop {
    /// The units are spent; what is proved so far.
    Unfinished(Proof),
    /// The fingers of the gate pair in too many ways. It is the first such gate that is not left open.
    Choices { gate: NetNo },
    NoMemory,
}

impl From<NoMemory> for ProveStop {
    ghost use Rattle.trail_search.specs.declared.proof.ProveStop.TheVariants.{NoMemory};

    ghost from_gives = { λ _ e. e ≡ NoMemory };

    fn from(_: NoMemory) -> ProveStop {
        ProveStop::NoMemory
    }
}

/// Why it is not known whether a limit is refuted.
#[derive(Debug, Drop)]
pub(crate) enum RefuteStop {
    /// The units are spent.
    Spent,
    /// The fingers of the gate pair in too many ways.
    Choices { gate: NetNo },
    NoMemory,
}

impl From<NoMemory> for RefuteStop {
    ghost use Rattle.trail_search.specs.declared.proof.RefuteStop.TheVariants.{NoMemory};

    ghost from_gives = { λ _ e. e ≡ NoMemory };

    fn from(_: NoMemory) -> RefuteStop {
        RefuteStop::NoMemory
    }
}
