ghost use Rattle.std.specs.Prelude.{◌≡◌, ◌<◌, ◌+◌, ◌-◌, ◌^◌, ◌↔◌, min, Some, None, Ok, IsNone, IsErrOf, IsOk, OnErr};
ghost use Rattle.std.specs.Prelude.{IfOk, IfSome, length};
ghost use Rattle.cell_io.specs.Mem.{steady_view, files_of, steady_files, bytes_written, bytes_said, IsCopied};
ghost use Rattle.cell_io.specs.declared.desk.DeskAnswer.TheVariants.{Missing, Failed, NoMemory};

use crate::files::{copy_part, find_file};
use crate::{Desk, DeskAnswer, FileList};

/// A desk that reads from memory and takes all that is written and said. It counts those bytes and
/// keeps none of them, and it never fails.
#[derive(Drop)]
pub struct SteadyDesk {
    given: FileList,
    written: u64,
    said: u64,
}

impl SteadyDesk {
    /// A desk that gives these files, and whose calls never fail.
    pub fn new(given: FileList) -> SteadyDesk
        ensures given { steady_files result ≡ files_of given }
        ensures written { bytes_written result ≡ 0 }
        ensures said { bytes_said result ≡ 0 }
    {
        SteadyDesk {
            given,
            written: 0,
            said: 0,
        }
    }

    /// How many bytes were appended to files; at most the greatest u64.
    pub fn count_written(&self) -> u64
        ensures { result ≡ bytes_written self.now }
    {
        self.written
    }

    /// How many bytes were said; at most the greatest u64.
    pub fn count_said(&self) -> u64
        ensures { result ≡ bytes_said self.now }
    {
        self.said
    }
}

impl Desk for SteadyDesk {
    ghost view = { steady_view };

    fn read_part(&mut self, name: &str, from: u64, into: &mut [u8]) -> Result<usize, DeskAnswer>
        ensures missing { IsErrOf result Missing ↔ IsNone (steady_files self.old name.now) }
        ensures failed { result ≡ Err Failed → ⊥ }
        ensures memory { result ≡ Err NoMemory → ⊥ }
        ensures bytes { IfOk result (λ count.
            IfSome (steady_files self.old name.now) (IsCopied from (2 ^ 64 - 1) into.old into.new count)) }
        ensures refused { OnErr result (into.new ≡ into.old) }
        ensures same { self.new ≡ self.old }
    {
        match find_file(self.given.as_slice(), name.as_bytes()) {
            Some(bytes) => Ok(copy_part(bytes, from, into, usize::MAX)),
            None => Err(DeskAnswer::Missing),
        }
    }

    fn create(&mut self, _name: &str) -> Result<(), DeskAnswer>
        ensures ok { IsOk result }
        ensures same { self.new ≡ self.old }
    {
        Ok(())
    }

    fn append(&mut self, _name: &str, part: &[u8]) -> Result<usize, DeskAnswer>
        ensures all { result ≡ Ok (length part.now) }
        ensures given { steady_files self.new ≡ steady_files self.old }
        ensures written { bytes_written self.new ≡ min (bytes_written self.old + length part.now) (2 ^ 64 - 1) }
        ensures said { bytes_said self.new ≡ bytes_said self.old }
    {
        self.written = self.written.saturating_add(part.len() as u64);
        Ok(part.len())
    }

    fn say(&mut self, part: &[u8]) -> Result<usize, DeskAnswer>
        ensures all { result ≡ Ok (length part.now) }
        ensures given { steady_files self.new ≡ steady_files self.old }
        ensures written { bytes_written self.new ≡ bytes_written self.old }
        ensures said { bytes_said self.new ≡ min (bytes_said self.old + length part.now) (2 ^ 64 - 1) }
    {
        self.said = self.said.saturating_add(part.len() as u64);
        Ok(part.len())
    }
}
