use crate::calls::{End, Left, Said, ends};
use crate::doglegs::length;
use crate::setup::{INVERTER, INVERTERS, inputs};
use cell_run::Status;
use std::alloc::Global;
use std::test::Fail;

pub const NAND: &str = ".SUBCKT nand2 a b y vdd gnd
M1 y a vdd vdd p W=3u L=0.6u
M2 y b vdd vdd p W=3u L=0.6u
M3 y a n1 gnd n W=3u L=0.6u
M4 n1 b gnd gnd n W=3u L=0.6u
.ENDS
";

pub const GATE: &str = ".SUBCKT tg a b c cn vdd gnd
M1 a c b gnd n W=1.5u L=0.6u
M2 a cn b vdd p W=3u L=0.6u
.ENDS
";

pub const CROSS: &str = ".SUBCKT cross x y u v s t a b vdd gnd
M1 x a u vdd p W=3u L=0.6u
M2 y a v gnd n W=1.5u L=0.6u
M3 y b s vdd p W=3u L=0.6u
M4 x b t gnd n W=1.5u L=0.6u
.ENDS
";

pub const LATCH: &str = ".GLOBAL vdd
.SUBCKT latch e d q gnd
M1 vdd e en vdd pmos W=3u L=0.6u AD=2p PD=1u
M2 gnd e en gnd nmos W=1.5u L=0.6u
M3 vdd d p1 vdd pmos W=3u L=0.6u
M4 p1 en m vdd pmos W=3u L=0.6u
M5 gnd d n1 gnd nmos W=1.5u L=0.6u
M6 n1 e m gnd nmos W=1.5u L=0.6u
M7 vdd m q vdd pmos W=3u L=0.6u
M8 gnd m q gnd nmos W=1.5u L=0.6u
M9 vdd q m vdd pmos W=0.9u L=0.6u
M10 gnd q m gnd nmos W=0.9u L=0.6u
.ENDS
";

const INVERTER_LOG: &str = "cellgen-log 2\ncell inv\ngaps 0\ncolumn 0 0 0 0 0\nend\n";

// A call that makes a cell: the report's end, the log, and the lengths of the drawing's and of the abstract's file.
struct Made {
    tech: &'static str,
    spice: &'static str,
    words: &'static str,
    status: Status,
    said: &'static str,
    log: &'static str,
    gds: usize,
    lef: usize,
}

const CELLS: [Made; 9] = [
    Made {
        tech: "",
        spice: INVERTER,
        words: "make - c.sp INV out",
        status: Status::Done,
        said: "column 0 gate a p y vdd 20 n y gnd 10\ntracks 1\nsize 41 118\nlemmas 0\n",
        log: INVERTER_LOG,
        gds: 2122,
        lef: 997,
    },
    Made {
        tech: "height = 118",
        spice: INVERTER,
        words: "make t.toml c.sp inv out",
        status: Status::Done,
        said: "tracks 1\nsize 41 118\nlemmas 0\n",
        log: INVERTER_LOG,
        gds: 2122,
        lef: 997,
    },
    Made {
        tech: "height = 130",
        spice: INVERTER,
        words: "make t.toml c.sp inv out",
        status: Status::Done,
        said: "tracks 1\nsize 41 130\nlemmas 0\n",
        log: INVERTER_LOG,
        gds: 2122,
        lef: 998,
    },
    Made {
        tech: "height = 117",
        spice: INVERTER,
        words: "make t.toml c.sp inv out",
        status: Status::TooTall,
        said: "status 11 tall\nneeded 118\ngiven 117\n",
        log: INVERTER_LOG,
        gds: 0,
        lef: 0,
    },
    Made {
        tech: "",
        spice: NAND,
        words: "make - c.sp nand2 out",
        status: Status::Done,
        said: "column 1 gate b p vdd y 20 n n1 gnd 20\ntracks 2\nsize 60 144\nlemmas 0\n",
        log: "cellgen-log 2\ncell nand2\ngaps 0\ncolumn 0 0 0 0 0\ncolumn 1 1 1 1 1\nend\n",
        gds: 2968,
        lef: 1210,
    },
    Made {
        tech: "",
        spice: GATE,
        words: "make - c.sp tg out",
        status: Status::Done,
        said: "column 1 gate cn p a b 20 n - - 0\ntracks 2\nsize 66 134\nlemmas 0\n",
        log: "cellgen-log 2\ncell tg\ngaps 0\ncolumn 2 - 0 0 0\ncolumn 3 0 0 - 0\nend\n",
        gds: 2964,
        lef: 1331,
    },
    Made {
        tech: "",
        spice: CROSS,
        words: "make - c.sp cross out",
        status: Status::Cycle,
        said: "status 5 cycle\nx above y at line 0\ny above x at line 4\n",
        log: "cellgen-log 2\ncell cross\nlemma 1 P 1,1 1,1 - -\ngaps 1\ncolumn 6 0 0 0 0\ncolumn 7 1 0 1 0\nend\n",
        gds: 0,
        lef: 0,
    },
    Made {
        tech: "budget = 1",
        spice: INVERTERS,
        words: "make t.toml c.sp x3 out",
        status: Status::Unfinished,
        said: "status 6 unfinished\nproved 1\nlemmas 1\n",
        log: "cellgen-log 2\ncell x3\nlemma 1 P 1,1,1 1,1,1 - -\nopen\nend\n",
        gds: 0,
        lef: 0,
    },
    Made {
        tech: "",
        spice: LATCH,
        words: "make - c.sp latch out",
        status: Status::Done,
        said: "column 5 gate m p vdd q 20 n gnd q 10\ntracks 3\nsize 154 150\nlemmas 8\n",
        log: "cellgen-log 2\ncell latch\nlemma 1 B 0,1,1,1,1 0,1,1,1,1 5 5\nlemma 1 B 0,1,1,1,1 0,1,1,1,1 5 3\n\
          lemma 1 B 0,1,1,1,1 1,0,1,1,1 5 8\nlemma 1 B 0,1,1,1,1 1,0,1,1,1 5 7\nlemma 1 B 0,1,1,1,1 0,1,1,1,1 4 5\n\
          lemma 1 P 0,0,0,1,1 0,0,0,0,1 7 3\nlemma 1 P 0,0,0,1,1 0,0,0,0,1 4 3\nlemma 1 N 0,0,0,0,1 0,0,0,0,1 4 7\n\
          gaps 0\ncolumn 0 0 1 0 1\ncolumn 1 1 0 2 0\ncolumn 0 - 0 1 1\ncolumn 5 3 0 - 0\ncolumn 2 2 1 3 1\n\
          column 7 4 1 4 1\nend\n",
        gds: 6986,
        lef: 1858,
    },
];

// Whether the call ends and leaves files so.
fn is_made(alloc: Global, cell: &Made) -> Result<bool, Fail> {
    let files = [
        ("out.clog", Left::Bytes(cell.log.as_bytes())),
        ("out.gds", length(cell.gds)),
        ("out.lef", length(cell.lef)),
    ];
    let end = End {
        status: cell.status,
        said: Said::Last(cell.said),
        files: &files,
    };
    ends(
        alloc,
        cell.words,
        &inputs([cell.tech, cell.spice, ""]),
        &[],
        &end,
    )
}

#[test]
fn makes_a_cell(rt: HostRuntime) -> Result<(), Fail> {
    for cell in &CELLS {
        let said = cell.said;
        assert!(rt; is_made(rt.alloc(), cell)?, "{said}");
    }
    Ok(())
}

// The call that fails, and what the drawing and the abstract are then.
const STEPS: [(u64, Left, Left); 7] = [
    (2, Left::Nothing, Left::Nothing),
    (3, Left::Nothing, Left::Nothing),
    (4, Left::Nothing, Left::Nothing),
    (5, Left::Length(0), Left::Nothing),
    (6, Left::Length(2122), Left::Nothing),
    (7, Left::Length(2122), Left::Length(0)),
    (8, Left::Length(2122), Left::Length(997)),
];

fn evidence_at(failing: u64, evidence: &[u8]) -> Left {
    match failing {
        2 => Left::Nothing,
        3 => Left::Length(0),
        _ => Left::Bytes(evidence),
    }
}

fn leaves<'a>(
    alloc: Global,
    words: &str,
    failing: u64,
    files: &'a [(&'a str, Left<'a>)],
) -> Result<bool, Fail> {
    let end = End {
        status: Status::WriteFault,
        said: Said::Whole(&[]),
        files: &*files,
    };
    ends(alloc, words, &inputs(["", INVERTER, ""]), &[failing], &end)
}

/// Whether the words make an inverter's files in order, the evidence first. The subcircuit's file is read by two calls;
/// each file is then made by one and filled by one, and the report said.
pub fn makes_in_order(
    alloc: Global,
    words: &str,
    name: &str,
    evidence: &str,
) -> Result<bool, Fail> {
    for (failing, gds, lef) in &STEPS {
        let first = evidence_at(*failing, evidence.as_bytes());
        let files = [(name, first), ("out.gds", *gds), ("out.lef", *lef)];
        if !leaves(alloc, words, *failing, &files)? {
            return Ok(false);
        }
    }
    Ok(true)
}

#[test]
fn makes_files_in_order(rt: HostRuntime) -> Result<(), Fail> {
    let words = "make - c.sp inv out";
    assert!(rt; makes_in_order(rt.alloc(), words, "out.clog", INVERTER_LOG)?);
    Ok(())
}
