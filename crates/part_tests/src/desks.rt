// A desk that counts and the desk of the system. Each helper makes one call and has no clause, which keeps what desks
// promise out of the tests.
use cell_io::{
    Desk, DeskAnswer, File, FileList, HostDesk, ReadFault, SteadyDesk, WriteFault, append_all,
    read_all, read_memory, say_all, write_all,
};
use cell_num::{Bytes, List, NoMemory};
use std::alloc::{AllocError, Global};
use std::fs;
use std::test::Fail;

fn bytes_of(alloc: Global, text: &[u8]) -> Result<Bytes, NoMemory> {
    let mut bytes = List::new(alloc);
    bytes.extend(text)?;
    Ok(bytes)
}

// One file `in` with the bytes `abcde`.
fn one_file(alloc: Global) -> Result<FileList, NoMemory> {
    let mut files = List::new(alloc);
    files.push(File {
        name: bytes_of(alloc, b"in")?,
        bytes: bytes_of(alloc, b"abcde")?,
    })?;
    Ok(files)
}

// More bytes than two readings take, each unlike its neighbours.
fn many_bytes(alloc: Global) -> Result<Vec<u8>, AllocError> {
    let mut bytes = Vec::new(alloc);
    for at in 0..150_000u32 {
        bytes.push((at % 251) as u8)?;
    }
    Ok(bytes)
}

fn reads<D: Desk>(alloc: Global, desk: &mut D, name: &str, most: u64, want: &[u8]) -> bool {
    match read_all(alloc, desk, name, most) {
        Ok(bytes) => bytes.as_slice() == want,
        Err(_) => false,
    }
}

fn refuses<D: Desk>(alloc: Global, desk: &mut D, name: &str, want: ReadFault) -> bool {
    read_all(alloc, desk, name, 9) == Err(want)
}

fn writes<D: Desk>(desk: &mut D, name: &str, bytes: &[u8]) -> bool {
    write_all(desk, name, bytes) == Ok(())
}

fn says<D: Desk>(desk: &mut D, bytes: &[u8]) -> bool {
    say_all(desk, bytes) == Ok(())
}

fn has_counted(desk: &mut SteadyDesk) -> bool {
    append_all(desk, "out", b"cd") == Ok(()) && desk.count_written() == 2 && desk.count_said() == 0
}

#[test]
fn counts_what_is_written(rt: HostRuntime) -> Result<(), Fail> {
    let alloc = rt.alloc();
    let mut desk = SteadyDesk::new(one_file(alloc)?);
    assert!(rt; reads(alloc, &mut desk, "in", u64::MAX, b"abcde"));
    assert!(rt; has_counted(&mut desk));
    let mut part = [0u8; 9];
    let bytes = bytes_of(alloc, b"abcde")?.into_vec();
    assert!(rt; read_memory(bytes, 3, &mut part).ok() == Some(2));
    Ok(())
}

type Host<'a> = HostDesk<'a, HostRuntime>;

fn appends(desk: &mut Host, name: &str, part: &[u8]) -> bool {
    desk.append(name, part) == Ok(part.len())
}

fn appends_nothing(desk: &mut Host, name: &str) -> bool {
    append_all(desk, name, b"ab") == Err(WriteFault::Failed)
}

fn creates(desk: &mut Host, name: &str, want: Result<(), DeskAnswer>) -> bool {
    desk.create(name) == want
}

// Whether these are the nine bytes from the place on.
fn reads_part(desk: &mut Host, name: &str, from: u64, want: Option<&[u8]>) -> bool {
    let mut part = [0u8; 9];
    desk.read_part(name, from, &mut part) == Ok(9) && want == Some(part.as_slice())
}

fn says_once(desk: &mut Host, part: &[u8]) -> bool {
    desk.say(part) == Ok(part.len())
}

// What was in the file before is lost.
fn fills(desk: &mut Host, name: &str, bytes: &[u8]) -> bool {
    if !writes(desk, name, b"lost") || !creates(desk, name, Ok(())) {
        return false;
    }
    for part in bytes.chunks(70_000) {
        if !appends(desk, name, part) {
            return false;
        }
    }
    true
}

#[test]
fn tells_faults_of_the_system(rt: HostRuntime) -> Result<(), Fail> {
    let alloc = rt.alloc();
    let mut desk = HostDesk::new(&rt);
    let missing = "cell_io_host_test_missing";
    assert!(rt; refuses(alloc, &mut desk, missing, ReadFault::Missing));
    assert!(rt; refuses(alloc, &mut desk, ".", ReadFault::Failed));
    assert!(rt; appends_nothing(&mut desk, missing));
    assert!(rt; creates(&mut desk, "cell_io_no_folder/a", Err(DeskAnswer::Failed)));
    assert!(rt; says_once(&mut desk, b"said "));
    assert!(rt; says(&mut desk, b"in parts\n"));
    Ok(())
}

// A part from further back is read, and the next one, though another file has the name by then.
#[test]
fn reaches_the_files_of_the_system(rt: HostRuntime) -> Result<(), Fail> {
    let alloc = rt.alloc();
    let (name, other) = ("cell_io_host_test", "cell_io_host_test_other");
    let mut desk = HostDesk::new(&rt);
    let bytes = many_bytes(alloc)?;
    assert!(rt; fills(&mut desk, name, &bytes));
    assert!(rt; reads(alloc, &mut desk, name, 150_000, &bytes));
    assert!(rt; reads_part(&mut desk, name, 100_000, bytes.get(100_000..100_009)));
    assert!(rt; creates(&mut desk, other, Ok(())));
    fs::rename(&rt, other, name)?;
    assert!(rt; reads_part(&mut desk, name, 100_009, bytes.get(100_009..100_018)));
    assert!(rt; reads(alloc, &mut HostDesk::new(&rt), name, 9, b""));
    Ok(fs::remove_file(&rt, name)?)
}
