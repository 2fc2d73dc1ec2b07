// Cells that are made from their lowest row, which is a least one.
use crate::calls::{Left, Said};
use crate::low_calls::{CELL, Case, EVIDENCE, TRAIL_CELL, all_end};
use crate::make::CROSS;
use crate::setup::INVERTER;
use cell_run::Status;
use std::test::Fail;

// The first least row of this multiplexer needs six tracks, the forty-first four.
pub const MUX: &str = ".SUBCKT mux2 a b s y vdd gnd
MPS sn s vdd vdd p W=3u L=0.6u
MNS sn s gnd gnd n W=1.5u L=0.6u
MPA p1 a vdd vdd p W=6u L=0.6u
MP1 y s p1 vdd p W=6u L=0.6u
MPB p2 b vdd vdd p W=6u L=0.6u
MP2 y sn p2 vdd p W=6u L=0.6u
MNA n1 a gnd gnd n W=3u L=0.6u
MN1 y sn n1 gnd n W=3u L=0.6u
MNB n2 b gnd gnd n W=3u L=0.6u
MN2 y s n2 gnd n W=3u L=0.6u
.ENDS
";

pub const MUX_MADE: &str = "status 0 ok
cell mux2
columns 5
gaps 2
width 7
column 0 gate a p p1 vdd 40 n n1 gnd 20
column 1 gate b p vdd p2 40 n gnd n2 20
column 2 gate s p p1 y 40 n n2 y 20
column 3 gate sn p y p2 40 n y n1 20
column 4 gate s p vdd sn 20 n gnd sn 10
tracks 4
fewest 4
size 167 196
lemmas ";

// The first least row has a cycle, the second is wired.
pub const CROSS_MADE: &str = "status 0 ok
cell cross
columns 2
gaps 1
width 3
column 0 gate a p x u 20 n y v 10
column 1 gate b p y s 20 n t x 10
tracks 4
fewest 4
size 82 166
lemmas ";

// Both ends of each finger have one net, so that each row has a cycle.
pub const RING: &str = ".SUBCKT ring x y a b vdd gnd
M1 x a x vdd p W=3u L=0.6u
M2 y a y gnd n W=1.5u L=0.6u
M3 y b y vdd p W=3u L=0.6u
M4 x b x gnd n W=1.5u L=0.6u
.ENDS
";

pub const INVERTER_ROW: &str = "status 0 ok
cell inv
columns 1
gaps 0
width 1
column 0 gate a p y vdd 20 n y gnd 10
tracks 1
fewest 1
size 41 118
lemmas 0
";

pub const INVERTER_LOG: &[u8] = b"cellgen-log 2\ncell inv\ngaps 0\ncolumn 0 0 0 0 0\nend\n";

pub const INVERTER_TRAILS: &[u8] =
    b"cellgen-trails 1\ncell inv\nfill -\norder 0\ngaps 0\ncolumn 0 0 0 0 0\nend\n";

const TRACKS: &[u8] = b"cellgen-tracks 1\ncell inv\ngaps 0\ntracks 1\nlemma 0 1 1 - - -\nend\n";

const CASES: [Case; 8] = [
    Case {
        tech: "",
        spice: &[INVERTER],
        words: "make - c.sp inv out --low",
        status: Status::Done,
        said: Said::Whole(&[INVERTER_ROW]),
        left: [
            Left::Bytes(INVERTER_LOG),
            Left::Nothing,
            Left::Bytes(TRACKS),
            Left::Length(2122),
            Left::Length(997),
        ],
    },
    Case {
        tech: "",
        spice: &[INVERTER],
        words: "make - c.sp inv out --low --trails",
        status: Status::Done,
        said: Said::Whole(&[INVERTER_ROW, "filled 0\n"]),
        left: [
            Left::Nothing,
            Left::Bytes(INVERTER_TRAILS),
            Left::Bytes(TRACKS),
            Left::Length(2122),
            Left::Length(997),
        ],
    },
    Case {
        tech: "",
        spice: &[MUX],
        words: "make - c.sp mux2 out --low",
        status: Status::Done,
        said: Said::First(MUX_MADE),
        left: CELL,
    },
    Case {
        tech: "",
        spice: &[MUX],
        words: "make - c.sp mux2 out --taps --low --trails",
        status: Status::Done,
        said: Said::First(MUX_MADE),
        left: TRAIL_CELL,
    },
    Case {
        tech: "",
        spice: &[CROSS],
        words: "make - c.sp cross out --low",
        status: Status::Done,
        said: Said::First(CROSS_MADE),
        left: CELL,
    },
    Case {
        tech: "",
        spice: &[RING],
        words: "make - c.sp ring out --low",
        status: Status::Cycle,
        said: Said::Whole(&["status 5 cycle\nx above y at line 0\ny above x at line 4\n"]),
        left: EVIDENCE,
    },
    Case {
        tech: "height = 117",
        spice: &[INVERTER],
        words: "make t.toml c.sp inv out --low",
        status: Status::TooTall,
        said: Said::Whole(&["status 11 tall\nfewest 1\nneeded 118\ngiven 117\n"]),
        left: [
            Left::Bytes(INVERTER_LOG),
            Left::Nothing,
            Left::Bytes(TRACKS),
            Left::Nothing,
            Left::Nothing,
        ],
    },
    Case {
        tech: "budget = 1",
        spice: &[INVERTER],
        words: "make t.toml c.sp inv out --low --trails",
        status: Status::Unfinished,
        said: Said::Whole(&["status 6 unfinished\nproved 0\nlemmas 0\n"]),
        left: [
            Left::Nothing,
            Left::Something,
            Left::Nothing,
            Left::Nothing,
            Left::Nothing,
        ],
    },
];

#[test]
fn makes_the_lowest_row(rt: HostRuntime) -> Result<(), Fail> {
    all_end(rt.alloc(), &CASES)
}
