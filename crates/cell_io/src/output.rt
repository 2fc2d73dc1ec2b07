ghost use Rattle.std.specs.Prelude.{◌≡◌, ◌≤◌, ◌<◌, ◌⊎◌, length, Some, option_map, Ok, Err, IsOk, OnOk, OnErr, IfOk};
ghost use Rattle.std.specs.Prelude.{IfSome, IsErrOf};
ghost use Rattle.cell_io.specs.Desk.{Both, ForSome, AddsPart, AppendedIn, CreatesOne, WrittenIn, IsHeld, Sets};
ghost use Rattle.cell_io.specs.Desk.{IsQuiet, OnlyMakes, OnlyAppends, OnlySays, WritingFailed, MemoryFailed};
ghost use Rattle.cell_io.specs.Output.{Puts, CanPut, IsSpared};
ghost use Rattle.cell_io.specs.declared.desk.DeskAnswer.TheVariants as answer;
ghost use Rattle.cell_io.specs.declared.output.WriteFault.TheVariants.{Failed, NoMemory};

use crate::{Desk, DeskAnswer};
use thiserror::Error;

/// Why not all bytes were written or said.
#[derive(Debug, PartialEq, Eq, Drop, Error)]
pub enum WriteFault {
    #[error("Failed")]
    Failed,
    #[error("NoMemory")]
    NoMemory,
}

// Puts the first bytes of the part at the end of the file, or, where none is named, says them.
#[tactic(auto, using(crate::proofs::Puts::said_nothing, crate::proofs::Puts::appended_nothing))]
fn put_part<D: Desk>(desk: &mut D, file: Option<&str>, part: &[u8]) -> Result<usize, DeskAnswer>
    requires { CanPut (option_map (λ name. name.now) file) (D.view desk.old) }
    ensures within { IfOk result (λ count. count ≤ length part.now) }
    ensures puts { IfOk result (λ count.
        Puts (option_map (λ name. name.now) file.entry) part.now count (D.view desk.old) (D.view desk.new)) }
    ensures none { result ≡ Ok 0 → 0 < length part.now → WritingFailed (D.view desk.old) (D.view desk.new) }
    ensures refused { OnErr result
        (Puts (option_map (λ name. name.now) file.entry) part.now 0 (D.view desk.old) (D.view desk.new)) }
    ensures failed { IsErrOf result answer.Failed → WritingFailed (D.view desk.old) (D.view desk.new) }
    ensures memory { IsErrOf result answer.NoMemory → MemoryFailed (D.view desk.old) (D.view desk.new) }
    ensures missing { result ≡ Err answer.Missing → ⊥ }
    ensures quiet { IfOk result (λ count. 0 < count → IsQuiet (D.view desk.old) (D.view desk.new)) }
{
    match file {
        Some(name) => desk.append(name, part),
        None => desk.say(part),
    }
}

// Puts all the bytes there. After a fault a front of them was put.
#[tactic(auto, using(crate::proofs::Rules::put_all_rules))]
fn put_all<D: Desk>(desk: &mut D, file: Option<&str>, bytes: &[u8]) -> Result<(), WriteFault>
    requires { CanPut (option_map (λ name. name.now) file) (D.view desk.old) }
    ensures ok { OnOk result (Puts (option_map (λ name. name.now) file.entry) bytes.now (length bytes.now)
        (D.view desk.old) (D.view desk.new)) }
    ensures err { OnErr result (ForSome bytes.now (Puts (option_map (λ name. name.now) file.entry) bytes.now)
        (D.view desk.old) (D.view desk.new)) }
    ensures failed { IsErrOf result Failed → WritingFailed (D.view desk.old) (D.view desk.new) }
    ensures memory { IsErrOf result NoMemory → MemoryFailed (D.view desk.old) (D.view desk.new) }
    ensures quiet { OnOk result (IsQuiet (D.view desk.old) (D.view desk.new)) }
{
    let mut at = 0;
    'parts: while at < bytes.len() {
        match put_part(desk, file, &bytes[at..]) {
            Ok(0) => return Err(WriteFault::Failed),
            Ok(count) => at += count,
            Err(DeskAnswer::Failed) => return Err(WriteFault::Failed),
            Err(DeskAnswer::NoMemory) => return Err(WriteFault::NoMemory),
            Err(DeskAnswer::Missing) => unreachable!(),
        }
    }
    Ok(())
}

/// Says all the bytes. After a fault only a front of them was said.
#[tactic(auto, using(crate::proofs::Puts::says_some))]
pub fn say_all<D: Desk>(desk: &mut D, bytes: &[u8]) -> Result<(), WriteFault>
    ensures ok { OnOk result
        (Both (AddsPart bytes.now (length bytes.now)) (D.view desk.old).said (D.view desk.new).said) }
    ensures err { OnErr result
        (Both (ForSome bytes.now (AddsPart bytes.now)) (D.view desk.old).said (D.view desk.new).said) }
    ensures failed { IsErrOf result Failed → WritingFailed (D.view desk.old) (D.view desk.new) }
    ensures memory { IsErrOf result NoMemory → MemoryFailed (D.view desk.old) (D.view desk.new) }
    ensures quiet { OnOk result (IsQuiet (D.view desk.old) (D.view desk.new)) }
    ensures done { IsSpared (D.view desk.old) (D.view desk.new) → IsOk result }
    ensures only { OnlySays (D.view desk.old) (D.view desk.new) }
{
    put_all(desk, None, bytes)
}

/// Puts all the bytes at the end of a file that was made. After a fault only a front of them is there.
#[tactic(auto, using(crate::proofs::Puts::appends_some))]
pub fn append_all<D: Desk>(desk: &mut D, name: &str, bytes: &[u8]) -> Result<(), WriteFault>
    requires { IfSome (D.view desk.old).made (λ files. IsHeld files name.now) }
    ensures ok { OnOk result
        (Both (AppendedIn name.now bytes.now (length bytes.now)) (D.view desk.old).made (D.view desk.new).made) }
    ensures err { OnErr result
        (Both (ForSome bytes.now (AppendedIn name.now bytes.now)) (D.view desk.old).made (D.view desk.new).made) }
    ensures failed { IsErrOf result Failed → WritingFailed (D.view desk.old) (D.view desk.new) }
    ensures memory { IsErrOf result NoMemory → MemoryFailed (D.view desk.old) (D.view desk.new) }
    ensures quiet { OnOk result (IsQuiet (D.view desk.old) (D.view desk.new)) }
    ensures done { IsSpared (D.view desk.old) (D.view desk.new) → IsOk result }
    ensures only { OnlyAppends (D.view desk.old) (D.view desk.new) }
{
    put_all(desk, Some(name), bytes)
}

/// Makes the file with exactly these bytes, and creates it once. After a fault it is as before, or, where this call
/// created it, has a front of them.
#[tactic(auto, using(crate::proofs::Rules::write_all_rules))]
pub fn write_all<D: Desk>(desk: &mut D, name: &str, bytes: &[u8]) -> Result<(), WriteFault>
    ensures ok { OnOk result (Both (Sets name.now (Some bytes.now)) (D.view desk.old).made (D.view desk.new).made) }
    ensures err { OnErr result (((D.view desk.new).made ≡ (D.view desk.old).made)
        ⊎ Both (ForSome bytes.now (WrittenIn name.now bytes.now)) (D.view desk.old).made (D.view desk.new).made) }
    ensures once { OnOk result (Both (CreatesOne name.now) (D.view desk.old).created (D.view desk.new).created) }
    ensures at_most_once { OnErr result (((D.view desk.new).created ≡ (D.view desk.old).created)
        ⊎ Both (CreatesOne name.now) (D.view desk.old).created (D.view desk.new).created) }
    ensures failed { IsErrOf result Failed → WritingFailed (D.view desk.old) (D.view desk.new) }
    ensures memory { IsErrOf result NoMemory → MemoryFailed (D.view desk.old) (D.view desk.new) }
    ensures quiet { OnOk result (IsQuiet (D.view desk.old) (D.view desk.new)) }
    ensures done { IsSpared (D.view desk.old) (D.view desk.new) → IsOk result }
    ensures only { OnlyMakes (D.view desk.old) (D.view desk.new) }
{
    match desk.create(name) {
        Ok(()) => append_all(desk, name, bytes),
        Err(DeskAnswer::Failed) => Err(WriteFault::Failed),
        Err(DeskAnswer::NoMemory) => Err(WriteFault::NoMemory),
        Err(DeskAnswer::Missing) => unreachable!(),
    }
}
