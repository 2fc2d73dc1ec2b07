ghost use Rattle.std.specs.Prelude.{◌≡◌};

use crate::row_outcome::{InputFault, Undrawn};
use cell_inputs::Inputs;
use cell_num::NoMemory;
use finger_fold::FoldFault;
use spice_net::SpiceFault;

/// Why a cell of a row is not made.
#[derive(Drop)]
pub enum RowStop {
    Refused(InputFault),
    Stopped { inputs: Inputs, why: Undrawn },
    NoMemory,
}

impl From<NoMemory> for RowStop {
    ghost use Rattle.cell_make.specs.declared.row_stop.RowStop.TheVariants.{NoMemory};

    ghost from_gives = { λ _ e. e ≡ NoMemory };

    fn from(_: NoMemory) -> RowStop {
        RowStop::NoMemory
    }
}

impl From<SpiceFault> for RowStop {
    ghost use Rattle.cell_make.specs.RowSteps.{spice_stop};

    ghost from_gives = { λ fault e. e ≡ spice_stop fault };

    fn from(fault: SpiceFault) -> RowStop {
        match fault {
            SpiceFault::NoMemory => RowStop::NoMemory,
            fault => RowStop::Refused(InputFault::Spice(fault)),
        }
    }
}

impl From<FoldFault> for RowStop {
    ghost use Rattle.cell_make.specs.RowSteps.{fold_stop};

    ghost from_gives = { λ fault e. e ≡ fold_stop fault };

    fn from(fault: FoldFault) -> RowStop {
        match fault {
            FoldFault::NoMemory => RowStop::NoMemory,
            fault => RowStop::Refused(InputFault::Fold(fault)),
        }
    }
}
