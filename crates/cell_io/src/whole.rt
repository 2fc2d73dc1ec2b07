ghost use Rattle.std.specs.Prelude.{◌≡◌, ◌≤◌, ◌<◌, ◌+◌, ℕ, length, take, vec_len, Err, IfOk, IfSome, IsErrOf, OnOk};
ghost use Rattle.cell_io.specs.Desk.{told, IsMissing, OnlyReads, ReadingFailed, ReadsPart};
ghost use Rattle.cell_io.specs.Whole.{KeepsUnlessUnread, TookFile};
ghost use Rattle.cell_io.specs.declared.whole.ReadFault.TheVariants as fault;
ghost use Rattle.cell_io.specs.declared.whole.ReadFault.TheVariants.{Missing, Failed, TooLong};

use crate::{Desk, DeskAnswer, Sink};
use cell_num::NoMemory;
use std::alloc::{AllocError, Global};
use thiserror::Error;

/// Why a file was not read.
#[derive(Debug, PartialEq, Eq, Drop, Error)]
pub enum ReadFault {
    #[error("Missing")]
    Missing,
    #[error("Failed")]
    Failed,
    /// The file has more bytes than were asked for at most.
    #[error("TooLong")]
    TooLong,
    #[error("NoMemory")]
    NoMemory,
}

impl From<NoMemory> for ReadFault {
    ghost use Rattle.std.specs.Prelude.{◌≡◌};
    ghost use Rattle.cell_io.specs.declared.whole.ReadFault.TheVariants.{NoMemory};

    ghost from_gives = { λ _ e. e ≡ NoMemory };

    fn from(_: NoMemory) -> ReadFault {
        ReadFault::NoMemory
    }
}

// The bytes of one reading.
const PART: usize = 65536;

// Room for a part, on the heap.
fn make_buffer(alloc: Global) -> Result<Vec<u8>, AllocError>
    ensures { IfOk result (λ buffer. vec_len buffer ≡ PART) }
{
    vec![in alloc; 0u8; PART]
}

// Copies some of the file's bytes from that place on to the part, and says how many.
fn read_next<D: Desk>(
    desk: &mut D,
    name: &str,
    at: u64,
    part: &mut [u8],
) -> Result<usize, ReadFault>
    ensures within { IfOk result (λ count. count ≤ length part.new) }
    ensures bytes { IfOk result (λ count.
        IfSome (told (D.view desk.old).given name.now) (λ file. ReadsPart file at part.new count)) }
    ensures missing { IsMissing (IsErrOf result Missing) name.now (D.view desk.old) (D.view desk.new) }
    ensures failed { IsErrOf result Failed → ReadingFailed (D.view desk.old) (D.view desk.new) }
    ensures too_long { result ≡ Err TooLong → ⊥ }
    ensures memory { result ≡ Err fault.NoMemory → ⊥ }
    ensures only { OnlyReads (D.view desk.old) (D.view desk.new) }
    ensures quiet { KeepsUnlessUnread result (D.view desk.old) (D.view desk.new) }
{
    match desk.read_part(name, at, part) {
        Ok(count) => Ok(count),
        Err(DeskAnswer::Missing) => Err(ReadFault::Missing),
        Err(DeskAnswer::Failed) => Err(ReadFault::Failed),
        Err(DeskAnswer::NoMemory) => unreachable!(),
    }
}

// Gives the sink the file's bytes from that place on, as many as are read at once and at most `room`, and says
// how many.
fn pass_more<D: Desk, S: Sink>(
    desk: &mut D,
    name: &str,
    at: u64,
    room: u64,
    part: &mut [u8],
    sink: &mut S,
) -> Result<usize, ReadFault>
    requires part { 0 < length part.old }
    requires may { (count : ℕ) → count ≤ room → S.may sink.old count }
    ensures within { IfOk result (λ count. count ≤ room) }
    ensures part { IfOk result (λ count. (0 < length part.new) × (count ≤ length part.new)) }
    ensures bytes { IfOk result (λ count. IfSome (told (D.view desk.old).given name.now) (λ file.
        ReadsPart file at part.new count)) }
    ensures sink { IfOk result (λ count. S.took sink.old (take count part.new) sink.new) }
    ensures too_long { IsErrOf result TooLong →
        IfSome (told (D.view desk.old).given name.now) (λ file. at + room < length file) }
    ensures missing { IsMissing (IsErrOf result Missing) name.now (D.view desk.old) (D.view desk.new) }
    ensures failed { IsErrOf result Failed → ReadingFailed (D.view desk.old) (D.view desk.new) }
    ensures only { OnlyReads (D.view desk.old) (D.view desk.new) }
    ensures quiet { KeepsUnlessUnread result (D.view desk.old) (D.view desk.new) }
{
    let count = read_next(desk, name, at, part)?;
    if count as u64 > room {
        return Err(ReadFault::TooLong);
    }
    sink.take(&part[..count])?;
    Ok(count)
}

/// Gives the sink the whole file, of at most `most` bytes, part by part, in memory for one part. After a fault it
/// has taken some of them, in order.
pub fn read_into<D: Desk, S: Sink>(
    alloc: Global,
    desk: &mut D,
    name: &str,
    most: u64,
    sink: &mut S,
) -> Result<(), ReadFault>
    requires { (count : ℕ) → count ≤ most → S.may sink.old count }
    ensures file { OnOk result
        (TookFile (λ bytes. S.took sink.old bytes sink.new) most (told (D.view desk.old).given name.now)) }
    // of files that contracts see, exactly one with more bytes is too long
    ensures too_long { IsErrOf result TooLong →
        IfSome (told (D.view desk.old).given name.now) (λ file. most < length file) }
    ensures missing { IsMissing (IsErrOf result Missing) name.now (D.view desk.old) (D.view desk.new) }
    ensures failed { IsErrOf result Failed → ReadingFailed (D.view desk.old) (D.view desk.new) }
    ensures only { OnlyReads (D.view desk.old) (D.view desk.new) }
    ensures quiet { KeepsUnlessUnread result (D.view desk.old) (D.view desk.new) }
{
    let Ok(mut buffer) = make_buffer(alloc) else {
        // a missing file is still answered as missing
        read_next(desk, name, 0, &mut [0u8; 1])?;
        return Err(ReadFault::NoMemory);
    };
    let mut at = 0;
    'parts: loop {
        let room = most - at;
        let want = if room < PART as u64 {
            room as usize + 1
        } else {
            PART
        };
        let count = pass_more(desk, name, at, room, &mut buffer[..want], sink)?;
        if count == 0 {
            return Ok(());
        }
        at += count as u64;
    }
}

/// The whole file, of at most `most` bytes. It is read part by part, and takes memory for a part beside
/// what it answers.
pub fn read_all<D: Desk>(
    alloc: Global,
    desk: &mut D,
    name: &str,
    most: u64,
) -> Result<Vec<u8>, ReadFault>
    ensures size { IfOk result (λ bytes. vec_len bytes ≤ most) }
    ensures file { IfOk result (λ bytes.
        IfSome (told (D.view desk.old).given name.now) (λ file. bytes.items ≡ file)) }
    // of files that contracts see, exactly one with more bytes is too long: it is never read whole
    ensures too_long { IsErrOf result TooLong →
        IfSome (told (D.view desk.old).given name.now) (λ file. most < length file) }
    ensures fits { IfOk result (λ bytes.
        IfSome (told (D.view desk.old).given name.now) (λ file. length file ≤ most)) }
    ensures missing { IsMissing (IsErrOf result Missing) name.now (D.view desk.old) (D.view desk.new) }
    ensures failed { IsErrOf result Failed → ReadingFailed (D.view desk.old) (D.view desk.new) }
    ensures only { OnlyReads (D.view desk.old) (D.view desk.new) }
    ensures quiet { KeepsUnlessUnread result (D.view desk.old) (D.view desk.new) }
{
    let mut bytes = Vec::new(alloc);
    read_into(alloc, desk, name, most, &mut bytes)?;
    Ok(bytes)
}
