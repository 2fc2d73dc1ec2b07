ghost use Rattle.std.specs.Prelude.{◌≡◌, ◌≤◌, ℕ, List as Sequence, length, OnErr, OnOk, option_map};
ghost use Rattle.std.specs.BTreeMap.{get_by_text};
ghost use Rattle.cell_io.specs.Desk.{ReadsPart, IsHeld, AppendedIn, CreatedIn, CreatesOne};
ghost use Rattle.cell_io.specs.Mem.{files_of, IsCopied};

use crate::mem::File;
use cell_num::{Bytes, List, Name, NoMemory, copy};
use std::alloc::Global;
use std::collections::BTreeMap;

// Copies as many bytes of the file, from a place on, as there are and fit, but no more than that.
pub(crate) fn copy_part(file: &[u8], from: u64, into: &mut [u8], most: usize) -> usize
    requires { 1 ≤ most }
    ensures part { ReadsPart file.now from into.new result }
    ensures copied { IsCopied from most into.old into.new result file.now }
{
    if from >= file.len() as u64 {
        return 0;
    }
    let rest = &file[from as usize..];
    let count = rest.len().min(into.len()).min(most);
    into[..count].copy_from_slice(&rest[..count]);
    count
}

pub(crate) fn find_file<'a>(files: &'a [File], name: &[u8]) -> Option<&'a [u8]>
    ensures { option_map (λ b. b.now) result ≡ files_of files.now name.now }
{
    files
        .iter()
        .find(|file| file.name.as_slice() == name)
        .map(|file| file.bytes.as_slice())
}

// Puts the first bytes of the part at the end of the file.
pub(crate) fn append_to(
    files: &mut BTreeMap<String, Bytes>,
    name: &str,
    part: &[u8],
    count: usize,
) -> Result<(), NoMemory>
    requires held { IsHeld (get_by_text files.old) name.now }
    requires within { count ≤ length part.now }
    ensures ok { OnOk result
        (AppendedIn name.now part.now count (get_by_text files.old) (get_by_text files.new)) }
    ensures err { OnErr result ((q : Sequence ℕ) → get_by_text files.new q ≡ get_by_text files.old q) }
{
    let Some(bytes) = files.get_mut(name) else {
        unreachable!()
    };
    bytes.extend(&part[..count])?;
    Ok(())
}

// Makes an empty file.
pub(crate) fn create_in(
    alloc: Global,
    files: &mut BTreeMap<String, Bytes>,
    name: &str,
) -> Result<(), NoMemory>
    ensures ok { OnOk result (CreatedIn name.now (get_by_text files.old) (get_by_text files.new)) }
    ensures err { OnErr result ((q : Sequence ℕ) → get_by_text files.new q ≡ get_by_text files.old q) }
{
    let key = String::from_str(alloc, name)?;
    match files.insert(key, List::new(alloc)) {
        Ok(_) => Ok(()),
        Err(_) => Err(NoMemory),
    }
}

// Makes an empty file, and notes its name after those noted before.
pub(crate) fn create_noted(
    alloc: Global,
    files: &mut BTreeMap<String, Bytes>,
    names: &mut Vec<Name>,
    name: &str,
) -> Result<(), NoMemory>
    ensures ok { OnOk result (CreatedIn name.now (get_by_text files.old) (get_by_text files.new)) }
    ensures err { OnErr result ((q : Sequence ℕ) → get_by_text files.new q ≡ get_by_text files.old q) }
    ensures noted { OnOk result (CreatesOne name.now names.old.items names.new.items) }
    ensures unnoted { OnErr result (names.new.items ≡ names.old.items) }
{
    let noted = copy(alloc, name.as_bytes())?;
    names.reserve(1)?;
    create_in(alloc, files, name)?;
    match names.push(noted) {
        Ok(()) => Ok(()),
        Err(_) => unreachable!(),
    }
}
