// Values as they are printed, and names that are put together.
ghost use Rattle.std.specs.Prelude.{◌≡◌, ◌++◌, ◌∷◌, [], OnOk};

use cell_num::{Names, NoMemory, copy};
use std::alloc::{AllocError, Global};
use std::fmt::Debug;

/// Whether a value is printed so by `{:?}`.
pub fn prints<T: Debug>(alloc: Global, value: &T, want: &str) -> Result<bool, AllocError> {
    let text = format!(in alloc; "{value:?}")?;
    Ok(text.as_str() == want)
}

pub fn add_name(alloc: Global, names: &mut Names, word: &[u8]) -> Result<(), NoMemory>
    ensures { OnOk result (names.new ≡ names.old ++ word.now ∷ []) }
{
    let name = copy(alloc, word)?;
    names.push(name)
}
