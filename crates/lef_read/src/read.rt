ghost use Rattle.std.specs.Prelude.{◌≡◌, ◌≢◌, ◌≤◌, Ok, Err, length, IfOk, IfErr};
ghost use Rattle.lef_read.specs.Macros.{macro_in};
ghost use Rattle.lef_read.specs.declared.fault.LefFault.TheVariants as fault;

use crate::cell::Macro;
use crate::cursor::Cursor;
use crate::draft::Draft;
use crate::fault::LefFault;
use crate::library::library;
use cell_num::{MOST_BYTES, Name};
use std::alloc::Global;

/// The first macro of the name in a LEF library (LEF/DEF 5.8 Language Reference), in grid units of so
/// many nanometres. The whole library is looked at first: the answer is the first of Statement, Number
/// and Cut in the text, then NoMacro, then Grid. At most 1,073,741,824 bytes are taken.
#[tactic(auto, using(crate::proofs::Whole::refused_so, crate::proofs::Whole::comes_to))]
pub fn read_macro(alloc: Global, bytes: &[u8], name: &Name, unit_nm: u32) -> Result<Macro, LefFault>
    requires few { length bytes.now ≤ MOST_BYTES }
    requires unit { 1 ≤ unit_nm }
    ensures read { IfOk result (λ m. macro_in bytes.now name.now unit_nm ≡ Ok m) }
    ensures refused { IfErr result (λ f. f ≢ fault.NoMemory → macro_in bytes.now name.now unit_nm ≡ Err f) }
{
    let mut cursor = Cursor::new(bytes);
    let mut draft = Draft::new(alloc, name.as_slice(), unit_nm)?;
    library(alloc, &mut cursor, &mut draft)?;
    let cell = draft.finish()?;
    Ok(cell)
}
