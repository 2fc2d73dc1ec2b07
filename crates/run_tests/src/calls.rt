// Calls over desks in memory, and how they end.
use cell_io::{CallList, Desk, File, FileList, MemDesk};
use cell_num::{List, Name};
use cell_run::{Status, run};
use std::alloc::Global;
use std::test::Fail;

/// A file before a call: its name and its bytes.
pub type Given<'a> = (&'a str, &'a [u8]);

/// What a call says: parts one after another, or its first or its last bytes.
#[derive(Clone, Copy)]
pub enum Said<'a> {
    Whole(&'a [&'a str]),
    First(&'a str),
    Last(&'a str),
}

/// What a call leaves of a file.
#[derive(Clone, Copy)]
pub enum Left<'a> {
    Nothing,
    Something,
    Length(usize),
    /// Its length and its sum, as `mark` gives them.
    Mark(usize, u32),
    Front(&'a [u8]),
    Bytes(&'a [u8]),
}

/// How a call ends.
#[derive(Clone, Copy)]
pub struct End<'said, 'files> {
    pub status: Status,
    pub said: Said<'said>,
    pub files: &'files [(&'files str, Left<'files>)],
}

fn words_of(alloc: Global, text: &str) -> Result<Vec<String>, Fail> {
    let mut words = Vec::new(alloc);
    add_words(alloc, &mut words, text)?;
    Ok(words)
}

fn add_words(alloc: Global, words: &mut Vec<String>, text: &str) -> Result<(), Fail> {
    for word in text.split_ascii_whitespace() {
        words.push(String::from_str(alloc, word)?)?;
    }
    Ok(())
}

// Runs the words on any desk. It has no clause, which keeps those of `run` out of the tests' proofs, and those of the
// desk out of its own.
fn run_on<D: Desk>(alloc: Global, words: &[String], desk: &mut D) -> Status {
    run(alloc, words, desk)
}

pub fn call(alloc: Global, words: &str, desk: &mut MemDesk) -> Result<Status, Fail> {
    let words = words_of(alloc, words)?;
    let status = run_on(alloc, &words, desk);
    drop(words);
    Ok(status)
}

fn name_of(alloc: Global, text: &[u8]) -> Result<Name, Fail> {
    Ok(List::from_vec(text.to_vec(alloc)?))
}

fn file_of(alloc: Global, given: &Given) -> Result<File, Fail> {
    let name = name_of(alloc, given.0.as_bytes())?;
    let bytes = name_of(alloc, given.1)?;
    Ok(File { name, bytes })
}

fn add_files(alloc: Global, files: &mut FileList, given: &[Given]) -> Result<(), Fail> {
    for file in given {
        files.push(file_of(alloc, file)?)?;
    }
    Ok(())
}

fn files_of(alloc: Global, given: &[Given]) -> Result<FileList, Fail> {
    let mut files = FileList::new(alloc);
    add_files(alloc, &mut files, given)?;
    Ok(files)
}

/// A desk with these files, whose calls from the list fail.
pub fn desk_of(alloc: Global, given: &[Given], fail: &[u64]) -> Result<MemDesk, Fail> {
    let mut calls = CallList::new(alloc);
    calls.extend(fail)?;
    let files = files_of(alloc, given)?;
    Ok(MemDesk::new(alloc, files, calls))
}

fn is_joined(said: &[u8], parts: &[&str]) -> bool {
    let mut rest = said;
    for part in parts {
        match rest.strip_prefix(part.as_bytes()) {
            Some(behind) => rest = behind,
            None => return false,
        }
    }
    rest.is_empty()
}

fn is_said(said: &[u8], want: &Said) -> bool {
    match want {
        Said::Whole(parts) => is_joined(said, parts),
        Said::First(text) => said.starts_with(text.as_bytes()),
        Said::Last(text) => said.ends_with(text.as_bytes()),
    }
}

/// The length of some bytes, and a sum in which their order counts.
pub fn mark(bytes: &[u8]) -> (usize, u32) {
    let mut sum: u32 = 0;
    for byte in bytes {
        sum = sum.wrapping_mul(31).wrapping_add(u32::from(*byte));
    }
    (bytes.len(), sum)
}

fn is_left(file: Option<&[u8]>, want: &Left) -> bool {
    match (file, want) {
        (None, Left::Nothing) => true,
        (Some(_), Left::Something) => true,
        (Some(bytes), Left::Length(length)) => bytes.len() == *length,
        (Some(bytes), Left::Mark(length, sum)) => mark(bytes) == (*length, *sum),
        (Some(bytes), Left::Front(front)) => bytes.starts_with(front),
        (Some(bytes), Left::Bytes(want)) => bytes == *want,
        _ => false,
    }
}

fn are_left(desk: &MemDesk, files: &[(&str, Left)]) -> bool {
    for (name, left) in files {
        if !is_left(desk.file(name), left) {
            return false;
        }
    }
    true
}

fn is_end(status: Status, desk: &MemDesk, end: &End) -> bool {
    status == end.status && is_said(desk.all_said(), &end.said) && are_left(desk, end.files)
}

fn ends_on(alloc: Global, words: &str, desk: &mut MemDesk, end: &End) -> Result<bool, Fail> {
    let status = call(alloc, words, desk)?;
    Ok(is_end(status, desk, end))
}

/// Whether the words end so over these files, where these calls of the desk fail.
pub fn ends(
    alloc: Global,
    words: &str,
    given: &[Given],
    fail: &[u64],
    end: &End,
) -> Result<bool, Fail> {
    let mut desk = desk_of(alloc, given, fail)?;
    let is = ends_on(alloc, words, &mut desk, end);
    drop(desk);
    is
}

fn left_on(
    alloc: Global,
    words: &str,
    desk: &mut MemDesk,
    end: &End,
    name: &str,
) -> Result<Vec<u8>, Fail> {
    if !ends_on(alloc, words, desk, end)? {
        return Err(Fail::from("another end"));
    }
    match desk.file(name) {
        Some(bytes) => Ok(bytes.to_vec(alloc)?),
        None => Err(Fail::from("no such file")),
    }
}

/// The bytes of a file that the words leave where they end so.
pub fn made_file(
    alloc: Global,
    words: &str,
    given: &[Given],
    fail: &[u64],
    end: &End,
    name: &str,
) -> Result<Vec<u8>, Fail> {
    let mut desk = desk_of(alloc, given, fail)?;
    let bytes = left_on(alloc, words, &mut desk, end, name);
    drop(desk);
    bytes
}
