ghost use Rattle.std.specs.Prelude.{◌≡◌, ◌≢◌};
ghost use Rattle.bound_log.specs.declared.fault.LogFault.TheVariants as log;
ghost use Rattle.track_check.specs.declared.rejected.TextRejected.TheVariants as because;

use bound_log::LogFault;
use cell_num::NoMemory;
use thiserror::Error;

/// Why a text is rejected, in the order of looking.
#[derive(Debug, Drop, Error)]
pub enum TextRejected {
    /// The bytes are not the text of a certificate: the first place that is wrong.
    #[error("Text")]
    Text { fault: LogFault },
    /// The first lemma that does not follow from those before it, by its line.
    #[error("Unjustified")]
    Unjustified { line: u32 },
    /// No lemma is about the start state, the gaps and any tracks.
    #[error("NoStart")]
    NoStart,
    #[error("NoMemory")]
    NoMemory,
}

impl TextRejected {
    /// The cause that a text has the fault.
    pub fn of_fault(fault: LogFault) -> TextRejected
        ensures { result ≢ because.NoMemory → (result ≡ because.Text fault) × (fault ≢ log.NoMemory) }
    {
        match fault {
            LogFault::NoMemory => TextRejected::NoMemory,
            _ => TextRejected::Text { fault },
        }
    }
}

impl From<NoMemory> for TextRejected {
    ghost use Rattle.track_check.specs.declared.rejected.TextRejected.TheVariants.{NoMemory};

    ghost from_gives = { λ _ e. e ≡ NoMemory };

    fn from(_: NoMemory) -> TextRejected {
        TextRejected::NoMemory
    }
}
