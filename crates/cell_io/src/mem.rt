ghost use Rattle.std.specs.Prelude.{◌≡◌, ◌<◌, ◌≤◌, ◌+◌, ◌++◌, ◌-◌, ◌^◌, min, [], Contains, ℕ, List as Sequence, None};
ghost use Rattle.std.specs.Prelude.{option_map, Some, length, take, IsTrue, IsNone, IsSome, IfSome, IfOk, IsErrOf};
ghost use Rattle.std.specs.Prelude.{◌↔◌, OnOk, OnErr};
ghost use Rattle.cell_io.specs.Desk.{IsHeld, AppendedIn, CreatedIn, CreatesOne, OnlyReads, OnlyMakes, OnlyAppends};
ghost use Rattle.cell_io.specs.Desk.{OnlySays, ReadingFailed};
ghost use Rattle.cell_io.specs.Mem.{mem_view, CountsFailed, CountsShort, files_of, given_files, made_files};
ghost use Rattle.cell_io.specs.Mem.{created_names, said_bytes, failing_calls, most_of, next_call, read_faults_of};
ghost use Rattle.cell_io.specs.Mem.{write_faults_of, shorts_of, IsToFail, IsAfterCall, IsCopied, one_more};
ghost use Rattle.cell_io.specs.declared.desk.DeskAnswer.TheVariants as answer;

use crate::chunk_size::ChunkSize;
use crate::files::{append_to, copy_part, create_noted, find_file};
use crate::{Desk, DeskAnswer};
use cell_num::{Bytes, List, Name, NoMemory};
use std::alloc::Global;
use std::collections::BTreeMap;

/// A file in memory.
#[derive(Drop)]
pub struct File {
    pub name: Name,
    pub bytes: Bytes,
}

pub type FileList = List<File>;

pub type CallList = List<u64>;

/// A desk in memory, which shows all that it holds, fails at the calls of a list and can be set to move few bytes
/// a call. The calls are numbered from 0, those that answer Missing too.
#[derive(Drop)]
pub struct MemDesk {
    alloc: Global,
    given: FileList,
    made: BTreeMap<String, Bytes>,
    created: Vec<Name>,
    said: Bytes,
    fail: CallList,
    most: ChunkSize,
    calls: u64,
    read_faults: u64,
    write_faults: u64,
    shorts: u64,
}

fn has_call(calls: &[u64], call: u64) -> bool
    ensures { IsTrue result ↔ Contains calls.now call }
{
    calls.contains(&call)
}

impl MemDesk {
    /// A desk that has said and made nothing. It keeps the allocator for what it will hold, and takes
    /// no memory yet. Of two given files with one name the first is read.
    pub fn new(alloc: Global, given: FileList, fail: CallList) -> MemDesk
        ensures given { given_files result ≡ files_of given }
        ensures made { (name : Sequence ℕ) → IsNone (made_files result name) }
        ensures created { created_names result ≡ [] }
        ensures said { said_bytes result ≡ [] }
        ensures failing { failing_calls result ≡ fail }
        ensures most { most_of result ≡ 2 ^ 64 - 1 }
        ensures number { next_call result ≡ 0 }
        ensures read_count { read_faults_of result ≡ 0 }
        ensures write_count { write_faults_of result ≡ 0 }
        ensures short_count { shorts_of result ≡ 0 }
    {
        MemDesk {
            alloc,
            given,
            made: BTreeMap::new(alloc),
            created: Vec::new(alloc),
            said: List::new(alloc),
            fail,
            most: ChunkSize::all(),
            calls: 0,
            read_faults: 0,
            write_faults: 0,
            shorts: 0,
        }
    }

    /// From now on each call moves at most that many bytes.
    pub fn cut(&mut self, most: u32)
        requires { 1 ≤ most }
        ensures { self.new ≡ record self.old { most = most } }
    {
        self.most = ChunkSize::new(most);
    }

    /// The bytes of a file that was made.
    pub fn file(&self, name: &str) -> Option<&[u8]>
        ensures { option_map (λ bytes. bytes.now) result ≡ made_files self.now name.now }
    {
        match self.made.get(name) {
            Some(bytes) => Some(bytes.as_slice()),
            None => None,
        }
    }

    /// The names of the files that were created, in order, each as often as it was.
    pub fn created(&self) -> &[Name]
        ensures { result.now ≡ created_names self.now }
    {
        self.created.as_slice()
    }

    /// All bytes that were said.
    pub fn all_said(&self) -> &[u8]
        ensures { result.now ≡ said_bytes self.now }
    {
        self.said.as_slice()
    }

    // Takes the next number, and answers whether that call is to fail.
    fn fails(&mut self) -> bool
        ensures fails { IsTrue result ↔ IsToFail self.old }
        ensures number { self.new ≡ record self.old { calls = one_more self.old.calls } }
    {
        let call = self.calls;
        self.calls = call.saturating_add(1);
        has_call(self.fail.as_slice(), call)
    }
}

impl Desk for MemDesk {
    ghost view = { mem_view };

    fn read_part(&mut self, name: &str, from: u64, into: &mut [u8]) -> Result<usize, DeskAnswer>
        ensures call { IsAfterCall self.old self.new }
        ensures missing { IsErrOf result answer.Missing ↔ IsNone (given_files self.old name.now) }
        ensures failed { IsErrOf result answer.Failed
            ↔ (IsSome (given_files self.old name.now) × IsToFail self.old) }
        ensures memory { result ≡ Err answer.NoMemory → ⊥ }
        ensures bytes { IfOk result (λ count.
            IfSome (given_files self.old name.now) (IsCopied from (most_of self.old) into.old into.new count)) }
        ensures some { 1 ≤ most_of self.old }
        ensures refused { OnErr result (into.new ≡ into.old) }
        ensures counted { CountsFailed result (read_faults_of self.old) (read_faults_of self.new) }
        ensures rose { IsErrOf result answer.Failed → ReadingFailed (mem_view self.old) (mem_view self.new) }
        ensures only { OnlyReads (mem_view self.old) (mem_view self.new) }
        ensures quiet { OnOk result (mem_view self.new ≡ mem_view self.old) }
    {
        let most = self.most.bytes();
        let fails = self.fails();
        let Some(bytes) = find_file(self.given.as_slice(), name.as_bytes()) else {
            return Err(DeskAnswer::Missing);
        };
        if fails {
            self.read_faults = self.read_faults.saturating_add(1);
            return Err(DeskAnswer::Failed);
        }
        Ok(copy_part(bytes, from, into, most))
    }

    fn create(&mut self, name: &str) -> Result<(), DeskAnswer>
        ensures call { IsAfterCall self.old self.new }
        ensures failed { IsErrOf result answer.Failed ↔ IsToFail self.old }
        ensures missing { result ≡ Err answer.Missing → ⊥ }
        ensures made { OnOk result (CreatedIn name.now (made_files self.old) (made_files self.new)) }
        ensures refused { OnErr result (made_files self.new ≡ made_files self.old) }
        ensures created { OnOk result (CreatesOne name.now (created_names self.old) (created_names self.new)) }
        ensures uncreated { OnErr result (created_names self.new ≡ created_names self.old) }
        ensures counted { CountsFailed result (write_faults_of self.old) (write_faults_of self.new) }
        ensures short_counted { CountsShort result (shorts_of self.old) (shorts_of self.new) }
        ensures only { OnlyMakes (mem_view self.old) (mem_view self.new) }
    {
        if self.fails() {
            self.write_faults = self.write_faults.saturating_add(1);
            return Err(DeskAnswer::Failed);
        }
        match create_noted(self.alloc, &mut self.made, &mut self.created, name) {
            Ok(()) => Ok(()),
            Err(_) => {
                self.shorts = self.shorts.saturating_add(1);
                Err(DeskAnswer::NoMemory)
            }
        }
    }

    fn append(&mut self, name: &str, part: &[u8]) -> Result<usize, DeskAnswer>
        requires { IsHeld (made_files self.old) name.now }
        ensures call { IsAfterCall self.old self.new }
        ensures failed { IsErrOf result answer.Failed ↔ IsToFail self.old }
        ensures missing { result ≡ Err answer.Missing → ⊥ }
        ensures all { IfOk result (λ count. count ≡ min (length part.now) (most_of self.old)) }
        ensures some { 1 ≤ most_of self.old }
        ensures made { IfOk result (λ count.
            AppendedIn name.now part.now count (made_files self.old) (made_files self.new)) }
        ensures refused { OnErr result (made_files self.new ≡ made_files self.old) }
        ensures counted { CountsFailed result (write_faults_of self.old) (write_faults_of self.new) }
        ensures short_counted { CountsShort result (shorts_of self.old) (shorts_of self.new) }
        ensures only { OnlyAppends (mem_view self.old) (mem_view self.new) }
    {
        let count = self.most.of(part.len());
        if self.fails() {
            self.write_faults = self.write_faults.saturating_add(1);
            return Err(DeskAnswer::Failed);
        }
        match append_to(&mut self.made, name, part, count) {
            Ok(()) => Ok(count),
            Err(_) => {
                self.shorts = self.shorts.saturating_add(1);
                Err(DeskAnswer::NoMemory)
            }
        }
    }

    fn say(&mut self, part: &[u8]) -> Result<usize, DeskAnswer>
        ensures call { IsAfterCall self.old self.new }
        ensures failed { IsErrOf result answer.Failed ↔ IsToFail self.old }
        ensures missing { result ≡ Err answer.Missing → ⊥ }
        ensures all { IfOk result (λ count. count ≡ min (length part.now) (most_of self.old)) }
        ensures some { 1 ≤ most_of self.old }
        ensures said { IfOk result (λ count. said_bytes self.new ≡ said_bytes self.old ++ take count part.now) }
        ensures refused { OnErr result (said_bytes self.new ≡ said_bytes self.old) }
        ensures counted { CountsFailed result (write_faults_of self.old) (write_faults_of self.new) }
        ensures short_counted { CountsShort result (shorts_of self.old) (shorts_of self.new) }
        ensures only { OnlySays (mem_view self.old) (mem_view self.new) }
    {
        let count = self.most.of(part.len());
        if self.fails() {
            self.write_faults = self.write_faults.saturating_add(1);
            return Err(DeskAnswer::Failed);
        }
        match self.said.extend(&part[..count]) {
            Ok(()) => Ok(count),
            Err(_) => {
                self.shorts = self.shorts.saturating_add(1);
                Err(DeskAnswer::NoMemory)
            }
        }
    }
}
