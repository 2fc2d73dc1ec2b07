ghost use Rattle.std.specs.Prelude.{◌≡◌};

use cell_num::{Name, NoMemory};
use finger_fold::FoldFault;
use gds_area::GdsFault;
use lef_read::LefFault;
use spice_net::SpiceFault;
use tech_file::TechFault;

/// The first step that was refused before the work of a command, and why.
#[derive(Debug, Drop)]
pub enum Refusal {
    /// The words have none of the listed forms.
    Words,
    /// A file that is not there or was not read.
    Unread { name: Name },
    /// A file of more bytes than its limit.
    Long { name: Name },
    Tech(TechFault),
    Spice(SpiceFault),
    Fold(FoldFault),
    Gds(GdsFault),
    Lef(LefFault),
    NoMemory,
}

impl From<NoMemory> for Refusal {
    ghost use Rattle.call_read.specs.declared.refusal.Refusal.TheVariants.{NoMemory};

    ghost from_gives = { λ _ e. e ≡ NoMemory };

    fn from(_: NoMemory) -> Refusal {
        Refusal::NoMemory
    }
}

impl From<TechFault> for Refusal {
    ghost use Rattle.call_read.specs.Refusals.{tech_refusal};

    ghost from_gives = { λ fault e. e ≡ tech_refusal fault };

    fn from(fault: TechFault) -> Refusal {
        match fault {
            TechFault::NoMemory => Refusal::NoMemory,
            fault => Refusal::Tech(fault),
        }
    }
}

impl From<SpiceFault> for Refusal {
    ghost use Rattle.call_read.specs.Refusals.{spice_refusal};

    ghost from_gives = { λ fault e. e ≡ spice_refusal fault };

    fn from(fault: SpiceFault) -> Refusal {
        match fault {
            SpiceFault::NoMemory => Refusal::NoMemory,
            fault => Refusal::Spice(fault),
        }
    }
}

impl From<FoldFault> for Refusal {
    ghost use Rattle.call_read.specs.Refusals.{fold_refusal};

    ghost from_gives = { λ fault e. e ≡ fold_refusal fault };

    fn from(fault: FoldFault) -> Refusal {
        match fault {
            FoldFault::NoMemory => Refusal::NoMemory,
            fault => Refusal::Fold(fault),
        }
    }
}

impl From<GdsFault> for Refusal {
    ghost use Rattle.call_read.specs.Refusals.{gds_refusal};

    ghost from_gives = { λ fault e. e ≡ gds_refusal fault };

    fn from(fault: GdsFault) -> Refusal {
        match fault {
            GdsFault::NoMemory => Refusal::NoMemory,
            fault => Refusal::Gds(fault),
        }
    }
}

impl From<LefFault> for Refusal {
    ghost use Rattle.call_read.specs.Refusals.{lef_refusal};

    ghost from_gives = { λ fault e. e ≡ lef_refusal fault };

    fn from(fault: LefFault) -> Refusal {
        match fault {
            LefFault::NoMemory => Refusal::NoMemory,
            fault => Refusal::Lef(fault),
        }
    }
}
