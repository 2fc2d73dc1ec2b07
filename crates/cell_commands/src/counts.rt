ghost use Rattle.std.specs.Prelude.{◌≡◌, ◌++◌, OnOk};
ghost use Rattle.cell_commands.specs.Counts.{counts_text};

use cell_num::{Bytes, NoMemory, put_count};

/// Adds the number of lemmas, and that of the gates whose half columns are filled.
pub(crate) fn put_counts(out: &mut Bytes, lemmas: u64, filled: u64) -> Result<(), NoMemory>
    ensures { OnOk result (out.new ≡ out.old ++ counts_text lemmas filled) }
{
    put_count(out, b"lemmas ", lemmas)?;
    put_count(out, b"filled ", filled)
}
