use crate::calls::{End, Left, Said, ends, made_file};
use crate::doglegs::length;
use crate::extract::NETLIST;
use crate::make::NAND;
use crate::setup::{INVERTER, INVERTERS, are_usage, inputs, joined};
use cell_run::Status;
use std::alloc::Global;
use std::test::Fail;

// Two nets that are above each other.
const RING: &str = ".SUBCKT r8 x y u v s t a b vdd gnd
M1 x a u vdd p W=3u L=0.6u
M2 y a v gnd n W=1.5u L=0.6u
M3 y b s vdd p W=3u L=0.6u
M4 x b t gnd n W=1.5u L=0.6u
.ENDS
";

/// Whether a row ends so, leaves a library of that length, 0 for none, and makes nothing else.
pub fn ends_so(
    alloc: Global,
    [tech, spice]: [&str; 2],
    words: &str,
    status: Status,
    said: &str,
    len: usize,
) -> Result<bool, Fail> {
    let said = [said];
    let files = [
        ("out.gds", length(len)),
        ("out.clog", Left::Nothing),
        ("out.lef", Left::Nothing),
    ];
    let end = End {
        status,
        said: Said::Whole(&said),
        files: &files,
    };
    ends(alloc, words, &inputs([tech, spice, ""]), &[], &end)
}

// Calls of rows: the technology, the words, the end, and the length of the library. The first cell that is not made
// ends the row, whatever follows it, and no file is made.
const CALLS: [(&str, &str, Status, &str, usize); 10] = [
    (
        "",
        "row - c.sp out pair inv inv",
        Status::Done,
        "status 0 ok\ncell pair\ncells 2\nsize 82 118\n",
        2458,
    ),
    (
        "height = 144",
        "row t.toml c.sp out top inv nand2",
        Status::Done,
        "status 0 ok\ncell top\ncells 2\nsize 101 144\n",
        5438,
    ),
    (
        "height = 144",
        "row t.toml c.sp out Top INV nand2 inv",
        Status::Done,
        "status 0 ok\ncell top\ncells 3\nsize 142 144\n",
        5546,
    ),
    (
        "",
        "row - c.sp out top inv inv inv inv inv inv inv inv inv inv inv inv inv inv inv inv",
        Status::Done,
        "status 0 ok\ncell top\ncells 16\nsize 656 118\n",
        3970,
    ),
    (
        "",
        "row - c.sp out top inv nand2",
        Status::Row,
        "status 12 row\nrow Heights first 118 other 144\n",
        0,
    ),
    (
        "height = 117",
        "row t.toml c.sp out top nand2 inv",
        Status::TooTall,
        "status 11 tall\nneeded 144\ngiven 117\n",
        0,
    ),
    (
        "",
        "row - c.sp out top r8 none",
        Status::Cycle,
        "status 5 cycle\nx above y at line 0\ny above x at line 4\n",
        0,
    ),
    (
        "",
        "row - c.sp out top none r8",
        Status::Input,
        "status 4 input\nspice NoCell\n",
        0,
    ),
    (
        "budget = 1",
        "row t.toml c.sp out top inv x3",
        Status::Unfinished,
        "status 6 unfinished\nproved 0\nlemmas 0\ncellgen-log 2\ncell inv\nopen\nend\n",
        0,
    ),
    (
        "",
        "row - d.sp out top inv inv",
        Status::ReadFault,
        "status 2 read d.sp\n",
        0,
    ),
];

fn are_ended(alloc: Global, spice: &str) -> Result<bool, Fail> {
    for (tech, words, status, said, len) in &CALLS {
        if !ends_so(alloc, [tech, spice], words, *status, said, *len)? {
            return Ok(false);
        }
    }
    Ok(true)
}

#[test]
fn makes_rows(rt: HostRuntime) -> Result<(), Fail> {
    let spice = joined(rt.alloc(), &[INVERTER, NAND, RING, INVERTERS])?;
    let are = are_ended(rt.alloc(), &spice);
    drop(spice);
    assert!(rt; are?);
    Ok(())
}

// One cell, seventeen cells, and a name of the row that is one of theirs or no cell's.
#[test]
fn takes_two_to_sixteen_cells(rt: HostRuntime) -> Result<(), Fail> {
    let words = [
        "row - c.sp out top inv",
        "row - c.sp out top inv inv inv inv inv inv inv inv inv inv inv inv inv inv inv inv inv",
        "row - c.sp out inv inv nand2",
        "row - c.sp out INV nand2 inv",
        "row - c.sp out t# inv inv",
        "row - c.sp out top inv in-v",
        "row - c.sp out",
    ];
    assert!(rt; are_usage(rt.alloc(), &words, "out.gds")?);
    Ok(())
}

// What `extract` reports of a row of two inverters, and of one of them.
const CIRCUITS: [(&str, &str); 2] = [
    (
        "extract - out.gds pair",
        "status 0 ok
cell pair
nets 6
devices 4
net 0 gnd
net 1 0#a
net 2 1#a
net 3 0#y
net 4 1#y
net 5 vdd
device 0 n gate 0#a ends gnd 0#y width 10 length 4
device 1 n gate 1#a ends gnd 1#y width 10 length 4
device 2 p gate 0#a ends 0#y vdd width 20 length 4
device 3 p gate 1#a ends 1#y vdd width 20 length 4
",
    ),
    ("extract - out.gds inv", NETLIST),
];

fn are_told(alloc: Global, library: &[u8]) -> Result<bool, Fail> {
    for (words, said) in &CIRCUITS {
        let said = [*said];
        let end = End {
            status: Status::Done,
            said: Said::Whole(&said),
            files: &[],
        };
        if !ends(alloc, words, &[("out.gds", library)], &[], &end)? {
            return Ok(false);
        }
    }
    Ok(true)
}

fn pair(alloc: Global) -> Result<Vec<u8>, Fail> {
    let end = End {
        status: Status::Done,
        said: Said::First("status 0 ok\ncell pair\n"),
        files: &[],
    };
    let words = "row - c.sp out pair inv inv";
    made_file(
        alloc,
        words,
        &inputs(["", INVERTER, ""]),
        &[],
        &end,
        "out.gds",
    )
}

// The circuit of the row, and that of one of its cells, as `extract` reads them from the library.
#[test]
fn tells_both_circuits(rt: HostRuntime) -> Result<(), Fail> {
    let library = pair(rt.alloc())?;
    let are = are_told(rt.alloc(), &library);
    drop(library);
    assert!(rt; are?);
    Ok(())
}
