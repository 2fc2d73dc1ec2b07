use crate::calls::{End, Left, Said, ends};
use crate::setup::{INVERTER, are_usage, inputs};
use cell_run::Status;
use std::alloc::Global;
use std::test::Fail;

pub const DOG: &str = ".SUBCKT dog y x u s t a b vdd gnd
M1 x a u vdd p W=3u L=0.6u
M2 y a x gnd n W=1.5u L=0.6u
M3 y b s vdd p W=3u L=0.6u
M4 x b t gnd n W=1.5u L=0.6u
.ENDS
";

const CROSS: &str = ".SUBCKT cross x y u v s t a b vdd gnd
M1 x a u vdd p W=3u L=0.6u
M2 y a v gnd n W=1.5u L=0.6u
M3 y b s vdd p W=3u L=0.6u
M4 x b t gnd n W=1.5u L=0.6u
.ENDS
";

pub const OR: &str = ".SUBCKT or2 a b y vdd gnd
MPA p1 a vdd vdd p W=6u L=0.6u
MPB n b p1 vdd p W=6u L=0.6u
MNA n a gnd gnd n W=1.5u L=0.6u
MNB n b gnd gnd n W=1.5u L=0.6u
MPY y n vdd vdd p W=3u L=0.6u
MNY y n gnd gnd n W=1.5u L=0.6u
.ENDS
";

pub const MADE_DOG: &str = "tracks 4\nsize 85 166\nlemmas 1\n";

/// A file of that length, none where it is 0.
pub fn length(length: usize) -> Left<'static> {
    if length == 0 {
        Left::Nothing
    } else {
        Left::Length(length)
    }
}

// Whether a call over these files ends so, with this end of its report, a log, and a drawing and an abstract of these
// lengths, none being 0.
pub fn ends_so(
    alloc: Global,
    words: &str,
    [tech, spice]: [&str; 2],
    status: Status,
    said: &str,
    [gds, lef]: [usize; 2],
) -> Result<bool, Fail> {
    let files = [
        ("out.clog", Left::Something),
        ("out.gds", length(gds)),
        ("out.lef", length(lef)),
    ];
    let end = End {
        status,
        said: Said::Last(said),
        files: &files,
    };
    ends(alloc, words, &inputs([tech, spice, ""]), &[], &end)
}

// Whether an inverter is made so, with a drawing of that name and length.
pub fn makes(alloc: Global, words: &str, name: &str, len: usize) -> Result<bool, Fail> {
    let files = [(name, Left::Length(len))];
    let end = End {
        status: Status::Done,
        said: Said::First("status 0 ok\n"),
        files: &files,
    };
    ends(alloc, words, &inputs(["", INVERTER, ""]), &[], &end)
}

const RINGS: [(&str, &str, Status, &str, [usize; 2]); 4] = [
    (
        "",
        "make - c.sp dog out",
        Status::Cycle,
        "status 5 cycle\ny above x at line 4\nx above y at line 0\n",
        [0, 0],
    ),
    (
        "",
        "make - c.sp dog out --dogleg",
        Status::Done,
        MADE_DOG,
        [5064, 2067],
    ),
    (
        "height = 166",
        "make t.toml c.sp dog out --dogleg",
        Status::Done,
        MADE_DOG,
        [5064, 2067],
    ),
    (
        "height = 165",
        "make t.toml c.sp dog out --dogleg",
        Status::TooTall,
        "status 11 tall\nneeded 166\ngiven 165\n",
        [0, 0],
    ),
];

// A cycle of whole nets is none of their pieces; the height that the cell needs is reported as without the word.
#[test]
fn makes_a_ring_of_nets_with_doglegs(rt: HostRuntime) -> Result<(), Fail> {
    for (tech, words, status, said, lengths) in &RINGS {
        assert!(rt;
            ends_so(rt.alloc(), words, [tech, DOG], *status, said, *lengths)?,
            "{said}"
        );
    }
    Ok(())
}

const CELLS: [(&str, &str, Status, &str, [usize; 2]); 3] = [
    (
        CROSS,
        "make - c.sp cross out --dogleg",
        Status::Cycle,
        "status 5 cycle\nx from line 0 above y from line 0 at line 0\ny from line 0 above x from line 0 at line 4\n",
        [0, 0],
    ),
    (
        INVERTER,
        "make - c.sp inv out --dogleg",
        Status::Done,
        "column 0 gate a p y vdd 20 n y gnd 10\ntracks 1\nsize 41 118\nlemmas 0\n",
        [2122, 997],
    ),
    (
        OR,
        "make - c.sp or2 out --dogleg",
        Status::Done,
        "tracks 2\nsize 85 154\nlemmas 6\n",
        [4028, 1391],
    ),
];

// A cycle of pieces stays one, and cells whose nets need no dogleg are made too.
#[test]
fn ends_with_doglegs(rt: HostRuntime) -> Result<(), Fail> {
    for (spice, words, status, said, lengths) in &CELLS {
        assert!(rt;
            ends_so(rt.alloc(), words, ["", spice], *status, said, *lengths)?,
            "{said}"
        );
    }
    Ok(())
}

// The word asks for doglegs only after OUT, and in the place of OUT it is OUT.
#[test]
fn takes_the_word_after_out(rt: HostRuntime) -> Result<(), Fail> {
    let words = [
        "make - c.sp inv o --Dogleg",
        "make - c.sp inv o --dogle",
        "make - c.sp inv o --dogleg --dogleg",
        "make --dogleg - c.sp inv o",
        "plan - c.sp inv --dogleg",
    ];
    assert!(rt; are_usage(rt.alloc(), &words, "o.clog")?);
    assert!(rt; makes(rt.alloc(), "make - c.sp inv --dogleg", "--dogleg.gds", 2122)?);
    Ok(())
}
