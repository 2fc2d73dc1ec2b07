ghost use Rattle.std.specs.Prelude.{◌≡◌, ◌≤◌, ℕ, List as Sequence, Err, IfErr, Ok, OnOk, length};
ghost use Rattle.cell_io.specs.Desk.{OnlyReads};
ghost use Rattle.call_read.specs.Read.{named, IsRead, KeepsReads};
ghost use Rattle.call_read.specs.Sources.{file_name, most_bytes};

use crate::refusal::Refusal;
use cell_io::{Desk, ReadFault, Sink, read_into};
use cell_num::{Bytes, MOST_BYTES, copy};
use std::alloc::Global;
use std::marker::Model;

/// The bytes of a file, at most a gibibyte.
#[derive(Drop)]
pub struct FileBytes {
    bytes: Vec<u8>,
}

impl Model for FileBytes {
    ghost use Rattle.std.specs.Prelude.{ℕ, ◌≤◌, List, length};
    ghost use Rattle.cell_num.specs.declared.limits.TheConstants.{MOST_BYTES};

    ghost Value = { List ℕ };

    ghost view = { λ b. b.bytes.items };

    ghost invariant = { λ b. length b.bytes.items ≤ MOST_BYTES };
}

impl FileBytes {
    /// The bytes, in place.
    pub fn as_slice(&self) -> &[u8]
        ensures bytes { result.now ≡ self.now }
        ensures few { length result.now ≤ MOST_BYTES }
    {
        self.bytes.as_slice()
    }

    /// The bytes alone.
    pub fn into_bytes(self) -> Bytes
        ensures bytes { result ≡ self }
        ensures few { length result ≤ MOST_BYTES }
    {
        Bytes::from_vec(self.bytes)
    }
}

/// A file to read: what it is read as, and its name.
#[derive(Clone, Copy)]
pub enum Source<'a> {
    Tech(&'a str),
    Spice(&'a str),
    Log(&'a str),
    Gds(&'a str),
    Lef(&'a str),
    Trails(&'a str),
    Tracks(&'a str),
}

fn file_name(source: Source<'_>) -> &str
    ensures { result.now ≡ file_name (named source.entry) }
{
    match source {
        Source::Tech(name)
        | Source::Spice(name)
        | Source::Log(name)
        | Source::Gds(name)
        | Source::Lef(name)
        | Source::Trails(name)
        | Source::Tracks(name) => name,
    }
}

fn most_bytes(source: Source<'_>) -> u64
    ensures is { result ≡ most_bytes (named source.entry) }
    ensures few { result ≤ MOST_BYTES }
{
    match source {
        Source::Tech(_) | Source::Spice(_) => 4_194_304,
        Source::Log(_) | Source::Trails(_) | Source::Tracks(_) => 536_870_912,
        Source::Gds(_) | Source::Lef(_) => 67_108_864,
    }
}

/// Gives the sink all bytes of a file that is there and within its limit.
pub fn read_to<D: Desk, S: Sink>(
    alloc: Global,
    desk: &mut D,
    source: Source<'_>,
    sink: &mut S,
) -> Result<(), Refusal>
    requires { (count : ℕ) → count ≤ most_bytes (named source) → S.may sink.old count }
    ensures bytes { OnOk result ((bytes : Sequence ℕ) × S.took sink.old bytes sink.new
        × (length bytes ≤ most_bytes (named source.entry))
        × IsRead (D.view desk.old) (D.view desk.new) (named source.entry) (Ok bytes)) }
    ensures refused { IfErr result (λ e. IsRead (D.view desk.old) (D.view desk.new) (named source.entry) (Err e)) }
    ensures quiet { KeepsReads result (D.view desk.old) (D.view desk.new) }
    ensures only { OnlyReads (D.view desk.old) (D.view desk.new) }
{
    let name = file_name(source);
    match read_into(alloc, desk, name, most_bytes(source), sink) {
        Ok(()) => Ok(()),
        Err(ReadFault::Missing | ReadFault::Failed) => Err(Refusal::Unread {
            name: copy(alloc, name.as_bytes())?,
        }),
        Err(ReadFault::TooLong) => Err(Refusal::Long {
            name: copy(alloc, name.as_bytes())?,
        }),
        Err(ReadFault::NoMemory) => Err(Refusal::NoMemory),
    }
}

/// The bytes of a file that is there and within its limit.
pub fn read_file<D: Desk>(
    alloc: Global,
    desk: &mut D,
    source: Source<'_>,
) -> Result<FileBytes, Refusal>
    ensures reads { IsRead (D.view desk.old) (D.view desk.new) (named source.entry) result }
    ensures quiet { KeepsReads result (D.view desk.old) (D.view desk.new) }
    ensures only { OnlyReads (D.view desk.old) (D.view desk.new) }
{
    let mut bytes = Vec::new(alloc);
    read_to(alloc, desk, source, &mut bytes)?;
    Ok(FileBytes { bytes })
}
