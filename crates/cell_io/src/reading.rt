ghost use Rattle.std.specs.Prelude.{◌≡◌, ◌≤◌, ◌+◌, ◌-◌, ◌^◌, ◌↔◌, min, Some, IsTrue, IfOk, IfSome, length};
ghost use Rattle.std.specs.Io.KnownBytes.{ReadConsumes};
ghost use Rattle.cell_io.specs.Desk.{ReadsPart};
ghost use Rattle.cell_io.specs.Reading.{name_of, place_of, file_of, LeavesTheRest};

use arrayvec::ArrayString;
use std::io;
use std::io::{Read, Seek, SeekFrom};

// The longest name that is kept; the system opens no longer one.
const MOST_NAME: usize = 4096;

/// A file that is open for reading, its name, and the place that it reads next.
#[derive(Drop)]
pub(crate) struct Reading<F> {
    name: ArrayString<MOST_NAME>,
    file: F,
    place: u64,
}

impl<F: Read + Seek + Drop> Reading<F> {
    /// A file that was just opened, at its first byte.
    pub(crate) fn new(name: &str, file: F) -> io::Result<Reading<F>>
        ensures name { IfOk result (λ reading. name_of reading ≡ name.now) }
        ensures file { IfOk result (λ reading. file_of reading ≡ file) }
        ensures place { IfOk result (λ reading. place_of reading ≡ 0) }
    {
        match ArrayString::from(name) {
            Ok(name) => Ok(Reading {
                name,
                file,
                place: 0,
            }),
            Err(_) => Err(io::Error::from(io::ErrorKind::InvalidFilename)),
        }
    }

    pub(crate) fn is_of(&self, name: &str) -> bool
        ensures { IsTrue result ↔ (name_of self.now ≡ name.now) }
    {
        self.name.as_str() == name
    }

    /// Reads bytes from the place `from` on to the front of `into`, and answers how many. It seeks only
    /// where the file is at another place, so that one that cannot seek is read from front to end.
    pub(crate) fn read_part(&mut self, from: u64, into: &mut [u8]) -> io::Result<usize>
        ensures within { IfOk result (λ count. count ≤ length into.new) }
        // where the file shows its bytes and is at the kept place, they are its bytes from `from` on
        ensures bytes { LeavesTheRest F.remaining F.stream_position F.stream_bytes →
            F.stream_position (file_of self.old) ≡ Some (place_of self.old) →
            IfOk result (λ count.
            IfSome (F.stream_bytes (file_of self.old)) (λ file. ReadsPart file from into.new count)) }
        // at that place already, it only reads
        ensures onward { place_of self.old ≡ from →
            ReadConsumes (F.remaining (file_of self.old)) (F.remaining (file_of self.new)) result into.new }
        ensures place { IfOk result (λ count. place_of self.new ≡ min (from + count) (2 ^ 64 - 1)) }
        ensures name { name_of self.new ≡ name_of self.old }
    {
        if self.place != from {
            self.file.seek(SeekFrom::Start(from))?;
        }
        let count = self.file.read(into)?;
        self.place = from.saturating_add(count as u64);
        Ok(count)
    }
}

/// Reads bytes in memory as a file. Contracts see these bytes, so the contract of `Reading::read_part` says which
/// ones are read; nothing else calls it.
#[tactic(auto, using(crate::proofs::Readings::cursor_leaves_the_rest))]
pub fn read_memory(bytes: Vec<u8>, from: u64, into: &mut [u8]) -> io::Result<usize>
    ensures { IfOk result (λ count. ReadsPart bytes.items from into.new count) }
{
    let mut reading = Reading::new("", io::Cursor::new(bytes))?;
    reading.read_part(from, into)
}
