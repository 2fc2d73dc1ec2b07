ghost use Rattle.std.specs.Prelude.{◌≡◌, ◌≢◌};
ghost use Rattle.tech_file.specs.declared.fault.TechFault.TheVariants as fault;

use crate::words::copy;
use cell_num::{Name, NoMemory};
use std::alloc::Global;
use thiserror::Error;

/// Why no technology was read.
#[derive(Debug, Drop, Error)]
pub enum TechFault {
    /// The bytes are no TOML document.
    #[error("Text")]
    Text,
    /// The least key by its bytes that no technology has.
    #[error("Key")]
    Key { name: Name },
    /// The value of this key is of another kind, or is no name or no list of names that may stand there.
    #[error("Form")]
    Form { name: Name },
    /// The integer of this key is out of its range.
    #[error("Range")]
    Range { name: Name, value: i64 },
    #[error("NoMemory")]
    NoMemory,
}

impl From<NoMemory> for TechFault {
    ghost use Rattle.tech_file.specs.declared.fault.TechFault.TheVariants.{NoMemory};

    ghost from_gives = { λ _ e. e ≡ NoMemory };

    fn from(_: NoMemory) -> TechFault {
        TechFault::NoMemory
    }
}

/// The fault of a key whose value is of another kind or may not stand there.
pub fn bad_form(alloc: Global, key: &str) -> TechFault
    ensures { result ≢ fault.NoMemory → result ≡ fault.Form key.now }
{
    match copy(alloc, key) {
        Ok(name) => TechFault::Form { name },
        Err(NoMemory) => TechFault::NoMemory,
    }
}
