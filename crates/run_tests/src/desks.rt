ghost use Rattle.std.specs.Prelude.{◌≤◌};

use crate::calls::{End, Given, Said, call, desk_of, ends, made_file};
use crate::setup::INVERTERS;
use cell_io::MemDesk;
use cell_run::Status;
use std::alloc::Global;
use std::test::Fail;

const NAMES: [&str; 4] = ["out.clog", "out.ctrack", "out.gds", "out.lef"];

const LOG: &str = "cellgen-log 1
cell x3
lemma 1 P 1,1,1 1,1,1 - -
gaps 1
column 0 0 0 0 0
column 1 1 0 1 0
column 2 2 1 2 1
end
";

// They need a track.
const TRACKS: &str = "cellgen-tracks 1
cell x3
gaps 1
tracks 1
lemma 1 1,1,1 1,1,1 - - -
end
";

// A technology, three inverters, their log, their certificate of tracks and their drawing.
fn files_with(drawing: &[u8]) -> [Given; 5] {
    [
        ("t.toml", b"budget = 9\n"),
        ("c.sp", INVERTERS.as_bytes()),
        ("l.clog", LOG.as_bytes()),
        ("l.ctrack", TRACKS.as_bytes()),
        ("c.gds", drawing),
    ]
}

const DONE: End = End {
    status: Status::Done,
    said: Said::First("status 0 ok\n"),
    files: &[],
};

// Whether earlier files are whole, one is a front, and no later one is there.
fn are_fronts(desk: &MemDesk, whole: &MemDesk) -> bool {
    let mut is_cut = false;
    for name in NAMES {
        match (desk.file(name), whole.file(name)) {
            (None, None) => (),
            (None, _) => is_cut = true,
            (Some(front), Some(bytes)) if !is_cut && bytes.starts_with(front) => {
                is_cut = front.len() < bytes.len();
            }
            _ => return false,
        }
    }
    true
}

fn are_same(desk: &MemDesk, whole: &MemDesk) -> bool {
    desk.all_said() == whole.all_said()
        && NAMES.iter().all(|name| desk.file(name) == whole.file(name))
}

// What a failed call may leave: nothing where a file was not read, and else the first part of all.
fn is_left_so(status: Status, desk: &MemDesk, whole: &MemDesk) -> bool {
    match status {
        Status::ReadFault => {
            desk.all_said().starts_with(b"status 2 read ") && desk.file(NAMES[0]).is_none()
        }
        Status::WriteFault => {
            whole.all_said().starts_with(desk.all_said()) && are_fronts(desk, whole)
        }
        _ => false,
    }
}

fn is_same(alloc: Global, words: &str, desk: &mut MemDesk, whole: &MemDesk) -> Result<bool, Fail> {
    let status = call(alloc, words, desk)?;
    Ok(status == Status::Done && are_same(desk, whole))
}

// Whether the call ends the same where the desk moves only this number of bytes at a time.
fn is_same_in_pieces(
    alloc: Global,
    words: &str,
    drawing: &[u8],
    whole: &MemDesk,
    most: u32,
) -> Result<bool, Fail>
    requires { 1 ≤ most }
{
    let mut desk = desk_of(alloc, &files_with(drawing), &[])?;
    desk.cut(most);
    let is = is_same(alloc, words, &mut desk, whole);
    drop(desk);
    is
}

fn is_failed(
    alloc: Global,
    words: &str,
    desk: &mut MemDesk,
    whole: &MemDesk,
    is_reading: bool,
) -> Result<bool, Fail> {
    let status = call(alloc, words, desk)?;
    Ok((status == Status::ReadFault) == is_reading && is_left_so(status, desk, whole))
}

// Whether the call of the desk fails so, and leaves what it may.
fn fails_so(
    alloc: Global,
    words: &str,
    drawing: &[u8],
    whole: &MemDesk,
    [failing, reads]: [u64; 2],
) -> Result<bool, Fail> {
    let mut desk = desk_of(alloc, &files_with(drawing), &[failing])?;
    let is = is_failed(alloc, words, &mut desk, whole, failing < reads);
    drop(desk);
    is
}

// Whether each call of the desk up to the last one fails so, and it ends the same with calls that move one and seven
// bytes.
fn ends_beside(
    alloc: Global,
    words: &str,
    drawing: &[u8],
    whole: &MemDesk,
    [reads, calls]: [u64; 2],
) -> Result<bool, Fail> {
    for failing in 0..calls {
        if !fails_so(alloc, words, drawing, whole, [failing, reads])? {
            return Ok(false);
        }
    }
    Ok(
        is_same_in_pieces(alloc, words, drawing, whole, 1)?
            && is_same_in_pieces(alloc, words, drawing, whole, 7)?,
    )
}

fn ends_on(
    alloc: Global,
    words: &str,
    drawing: &[u8],
    whole: &mut MemDesk,
    counts: [u64; 2],
) -> Result<bool, Fail> {
    let status = call(alloc, words, whole)?;
    Ok(status == Status::Done && ends_beside(alloc, words, drawing, whole, counts)?)
}

// Whether the words end so where the calls of the desk fail in turn, and well where the one after the last would fail.
fn ends_so(
    alloc: Global,
    words: &str,
    drawing: &[u8],
    [reads, calls]: [u64; 2],
) -> Result<bool, Fail> {
    let mut whole = desk_of(alloc, &files_with(drawing), &[])?;
    let is = ends_on(alloc, words, drawing, &mut whole, [reads, calls]);
    drop(whole);
    Ok(is? && ends(alloc, words, &files_with(drawing), &[calls], &DONE)?)
}

// Words, how many calls of the desk read, and how many there are. A file is read by two calls, its bytes and its end.
const COMMANDS: [(&str, [u64; 2]); 10] = [
    ("plan t.toml c.sp x3", [4, 5]),
    ("make t.toml c.sp x3 out", [4, 11]),
    ("make t.toml c.sp x3 out --from l.clog", [6, 11]),
    ("make t.toml c.sp x3 out --low", [4, 13]),
    ("check t.toml c.sp X3 l.clog", [6, 7]),
    ("check t.toml c.sp x3 l.ctrack --low", [6, 7]),
    ("extract t.toml c.gds x3", [4, 5]),
    ("row t.toml c.sp out pair x3 x3", [4, 7]),
    ("row t.toml c.sp out pair x3 x3 --low", [4, 7]),
    ("bench 1", [0, 1]),
];

fn are_ended(alloc: Global, drawing: &[u8]) -> Result<(), Fail> {
    for (words, counts) in &COMMANDS {
        if !ends_so(alloc, words, drawing, *counts)? {
            return Err(Fail::from(*words));
        }
    }
    Ok(())
}

#[test]
fn ends_by_each_failed_call(rt: HostRuntime) -> Result<(), Fail> {
    let alloc = rt.alloc();
    let words = "make t.toml c.sp x3 out";
    let drawing = made_file(alloc, words, &files_with(&[]), &[], &DONE, "out.gds")?;
    let are = are_ended(alloc, &drawing);
    drop(drawing);
    are
}
