use crate::calls::{End, Left, Said, ends, made_file};
use crate::setup::{INVERTER, inputs};
use cell_run::Status;
use std::alloc::{AllocError, Global};
use std::test::Fail;

// The first records of an element, up to its points; the path is of poly and 600 nm wide.
const METAL1: [u8; 16] = [0, 4, 8, 0, 0, 6, 13, 2, 0, 49, 0, 6, 14, 2, 0, 0];

const ACTIVE: [u8; 16] = [0, 4, 8, 0, 0, 6, 13, 2, 0, 43, 0, 6, 14, 2, 0, 0];

const N_SELECT: [u8; 16] = [0, 4, 8, 0, 0, 6, 13, 2, 0, 45, 0, 6, 14, 2, 0, 0];

const POLY_PATH: [u8; 24] = [
    0, 4, 9, 0, 0, 6, 13, 2, 0, 46, 0, 6, 14, 2, 0, 0, 0, 8, 15, 3, 0, 0, 2, 88,
];

pub const NETLIST: &str = "status 0 ok
cell inv
nets 4
devices 2
net 0 gnd
net 1 a
net 2 y
net 3 vdd
device 0 n gate a ends gnd y width 10 length 4
device 1 p gate a ends y vdd width 20 length 4
";

const DEVICE: &str = "status 0 ok
cell inv
nets 3
devices 1
net 0 _0
net 1 _1
net 2 _2
device 0 n gate _0 ends _1 _2 width 10 length 4
";

const CUT: &str = "status 9 layout\ngds Cut at 2118\n";

const SPLIT: &str = "status 9 layout\nextract Split name a\n";

const SHORT: &str = "status 9 layout\nextract Short one y other q\n";

const NEAR: &str = "status 7 rejected\nviolation 7.2 at 8 0\n";

const BARS: &str = "status 0 ok\ncell inv\nnets 2\ndevices 0\nnet 0 _0\nnet 1 _1\n";

// The bytes of a made inverter: its library up to the first of 29 rectangles, the label of `y` from 1,996 on, the
// end of the labels at 2,114.
pub fn inverter(alloc: Global) -> Result<Vec<u8>, Fail> {
    let files = [("out.gds", Left::Length(2122))];
    let end = End {
        status: Status::Done,
        said: Said::First("status 0 ok\ncell inv\n"),
        files: &files,
    };
    let given = inputs(["", INVERTER, ""]);
    made_file(alloc, "make - c.sp inv out", &given, &[], &end, "out.gds")
}

// Parts one after another.
fn joined(alloc: Global, parts: &[&[u8]]) -> Result<Vec<u8>, Fail> {
    let mut out = Vec::new(alloc);
    add_parts(&mut out, parts)?;
    Ok(out)
}

fn add_parts(out: &mut Vec<u8>, parts: &[&[u8]]) -> Result<(), AllocError> {
    for part in parts {
        out.extend_from_slice(part)?;
    }
    Ok(())
}

// Adds an element; its points are in nanometres.
fn put_element(out: &mut Vec<u8>, head: &[u8], points: &[[i32; 2]]) -> Result<(), Fail> {
    if points.len() > 100 {
        return Err(Fail::from("many points"));
    }
    let size = 8 * points.len() as u16 + 4;
    out.extend_from_slice(head)?;
    out.extend_from_slice(&size.to_be_bytes())?;
    out.extend_from_slice(&[16, 3])?;
    for point in points {
        out.extend_from_slice(&point[0].to_be_bytes())?;
        out.extend_from_slice(&point[1].to_be_bytes())?;
    }
    Ok(out.extend_from_slice(&[0, 4, 17, 0])?)
}

// A rectangle by its lower left and its upper right corner.
pub fn put_box(out: &mut Vec<u8>, head: &[u8], low: [i32; 2], high: [i32; 2]) -> Result<(), Fail> {
    let corners = [low, [low[0], high[1]], high, [high[0], low[1]]];
    put_element(out, head, &corners)
}

// Two rectangles on metal1 at this distance.
fn put_bars(out: &mut Vec<u8>, second: i32, end: i32) -> Result<(), Fail> {
    put_box(out, &METAL1, [0, 0], [1500, 1500])?;
    put_box(out, &METAL1, [second, 0], [end, 1500])
}

const BENT: [[i32; 2]; 6] = [
    [0, 0],
    [4500, 0],
    [4500, 1500],
    [1500, 1500],
    [1500, 3000],
    [0, 3000],
];

// A bent piece of active, a path of poly over it, and N select around them.
fn put_transistor(out: &mut Vec<u8>) -> Result<(), Fail> {
    put_element(out, &ACTIVE, &BENT)?;
    put_element(out, &POLY_PATH, &[[3000, -600], [3000, 2100]])?;
    put_box(out, &N_SELECT, [-600, -600], [5100, 3600])
}

/// Whether this is said of a GDSII file.
pub fn says(alloc: Global, bytes: &[u8], status: Status, said: &[&str]) -> Result<bool, Fail> {
    says_to(alloc, "extract - f.gds inv", bytes, status, said)
}

/// Whether this is said of the file `f.gds` by these words.
pub fn says_to(
    alloc: Global,
    words: &str,
    bytes: &[u8],
    status: Status,
    said: &[&str],
) -> Result<bool, Fail> {
    let end = End {
        status,
        said: Said::Whole(said),
        files: &[],
    };
    ends(alloc, words, &[("f.gds", bytes)], &[], &end)
}

// Whether this is said of the bytes with others in place of those between two places.
fn says_with(
    alloc: Global,
    bytes: &[u8],
    [from, to]: [usize; 2],
    by: &[u8],
    status: Status,
    said: &str,
) -> Result<bool, Fail> {
    let (Some(front), Some(end)) = (bytes.get(..from), bytes.get(to..)) else {
        return Err(Fail::from("too few bytes"));
    };
    let other = joined(alloc, &[front, by, end])?;
    let is = says(alloc, &other, status, &[said]);
    drop(other);
    is
}

// The label of `y` in the made inverter, with the name `q`, after the labels.
fn is_short(alloc: Global, made: &[u8]) -> Result<bool, Fail> {
    let (Some(front), Some(end)) = (made.get(1996..2028), made.get(2029..2114)) else {
        return Err(Fail::from("no label"));
    };
    let label = joined(alloc, &[front, b"q", end])?;
    let is = says_with(alloc, made, [2114, 2114], &label, Status::Layout, SHORT);
    drop(label);
    is
}

fn is_extracted(alloc: Global, made: &[u8]) -> Result<bool, Fail> {
    Ok(
        says_with(alloc, made, [2122, 2122], &[0; 100], Status::Done, NETLIST)?
            && says_with(alloc, made, [2120, 2122], &[], Status::Layout, CUT)?
            && says_with(alloc, made, [2028, 2029], b"a", Status::Layout, SPLIT)?
            && is_short(alloc, made)?,
    )
}

// Zero bytes after the library are passed over. A cut one, the label of `y` with the name of another net, and one
// more label on that net are not.
#[test]
fn extracts_a_made_cell(rt: HostRuntime) -> Result<(), Fail> {
    let made = inverter(rt.alloc())?;
    let is = is_extracted(rt.alloc(), &made);
    drop(made);
    assert!(rt; is?);
    Ok(())
}

fn is_device(alloc: Global, made: &[u8]) -> Result<bool, Fail> {
    let mut cell = Vec::new(alloc);
    put_transistor(&mut cell)?;
    let is = says_with(alloc, made, [102, 2114], &cell, Status::Done, DEVICE);
    drop(cell);
    is
}

// Whether this is said of two bars at this distance.
fn are_bars(
    alloc: Global,
    made: &[u8],
    second: i32,
    end: i32,
    status: Status,
    said: &str,
) -> Result<bool, Fail> {
    let mut cell = Vec::new(alloc);
    put_bars(&mut cell, second, end)?;
    let are = says_with(alloc, made, [102, 2114], &cell, status, said);
    drop(cell);
    are
}

fn are_foreign(alloc: Global, made: &[u8]) -> Result<bool, Fail> {
    Ok(
        is_device(alloc, made)?
            && are_bars(alloc, made, 2100, 3600, Status::Rejected, NEAR)?
            && are_bars(alloc, made, 2400, 3900, Status::Done, BARS)?,
    )
}

#[test]
fn extracts_foreign_cells(rt: HostRuntime) -> Result<(), Fail> {
    let made = inverter(rt.alloc())?;
    let are = are_foreign(rt.alloc(), &made);
    drop(made);
    assert!(rt; are?);
    Ok(())
}
