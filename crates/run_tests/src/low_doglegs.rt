// Cells that are made from their lowest row where nets may change their tracks.
use crate::calls::{Left, Said};
use crate::doglegs::DOG;
use crate::low_calls::{CELL, Case, EVIDENCE, LOG, TRAIL_CELL, all_end};
use crate::low_rows::{
    CROSS_MADE, INVERTER_LOG, INVERTER_ROW, INVERTER_TRAILS, MUX, MUX_MADE, RING,
};
use crate::make::CROSS;
use crate::setup::INVERTER;
use cell_run::Status;
use std::test::Fail;

// The first least row needs three tracks, also where nets may change theirs. Another row needs two then.
pub const TURN: &str = ".SUBCKT turn m vdd gnd
M1 m a m vdd p W=3u L=0.6u
M2 k a gnd gnd n W=1.5u L=0.6u
M3 m b k vdd p W=3u L=0.6u
M4 gnd b k gnd n W=1.5u L=0.6u
M5 y c y vdd p W=3u L=0.6u
M6 m c gnd gnd n W=1.5u L=0.6u
.ENDS
";

const TURN_STRAIGHT: &str = "status 0 ok
cell turn
columns 3
gaps 1
width 4
column 0 gate a p m m 20 n gnd k 10
column 1 gate b p m k 20 n k gnd 10
column 2 gate c p y y 20 n m gnd 10
tracks 3
fewest 3
size 98 150
lemmas ";

const TURN_MADE: &str = "status 0 ok
cell turn
columns 3
gaps 1
width 4
column 0 gate b p k m 20 n gnd k 10
column 1 gate a p m m 20 n k gnd 10
column 2 gate c p y y 20 n m gnd 10
tracks 2
fewest 2
size 98 134
lemmas ";

// The first least row, on the tracks that `make` gives it with doglegs alone.
const TURN_OPEN: &str = "status 0 ok
cell turn
columns 3
gaps 1
width 4
column 0 gate a p m m 20 n gnd k 10
column 1 gate b p m k 20 n k gnd 10
column 2 gate c p y y 20 n m gnd 10
tracks 3
fewest 2
size 98 150
lemmas ";

// `make` with doglegs alone takes four tracks.
const DOG_MADE: &str = "status 0 ok
cell dog
columns 2
gaps 1
width 3
column 0 gate a p x u 20 n x y 10
column 1 gate b p y s 20 n x t 10
tracks 3
fewest 3
size 85 150
lemmas ";

// In each row of its cell these pieces are above each other. It has six nets.
const RING_OPEN: &str =
    "\nx from line 2 above y from line 2 at line 2\ny from line 2 above x from line 2 at line 4\n";

const TRACKS: &[u8] = b"cellgen-tracks 2\ncell inv\ngaps 0\ntracks 1\nlemma 0 1 1 - - -\nend\n";

const CASES: [Case; 13] = [
    Case {
        tech: "",
        spice: &[TURN],
        words: "make - c.sp turn out --low",
        status: Status::Done,
        said: Said::First(TURN_STRAIGHT),
        left: CELL,
    },
    Case {
        tech: "",
        spice: &[TURN],
        words: "make - c.sp turn out --dogleg --low",
        status: Status::Done,
        said: Said::First(TURN_MADE),
        left: CELL,
    },
    Case {
        tech: "height = 134",
        spice: &[TURN],
        words: "make t.toml c.sp turn out --dogleg --taps --low --trails",
        status: Status::Done,
        said: Said::First(TURN_MADE),
        left: TRAIL_CELL,
    },
    Case {
        tech: "height = 133",
        spice: &[TURN],
        words: "make t.toml c.sp turn out --dogleg --low",
        status: Status::TooTall,
        said: Said::Whole(&["status 11 tall\nfewest 2\nneeded 134\ngiven 133\n"]),
        left: EVIDENCE,
    },
    Case {
        tech: "budget = 8",
        spice: &[TURN],
        words: "make t.toml c.sp turn out --dogleg --low",
        status: Status::Done,
        said: Said::First(TURN_OPEN),
        left: CELL,
    },
    Case {
        tech: "",
        spice: &[DOG],
        words: "make - c.sp dog out --dogleg --low",
        status: Status::Done,
        said: Said::First(DOG_MADE),
        left: CELL,
    },
    Case {
        tech: "",
        spice: &[MUX],
        words: "make - c.sp mux2 out --dogleg --low --trails",
        status: Status::Done,
        said: Said::First(MUX_MADE),
        left: TRAIL_CELL,
    },
    // The first least row has a cycle of pieces, the second none.
    Case {
        tech: "",
        spice: &[CROSS],
        words: "make - c.sp cross out --dogleg --low",
        status: Status::Done,
        said: Said::First(CROSS_MADE),
        left: CELL,
    },
    Case {
        tech: "",
        spice: &[RING],
        words: "make - c.sp ring out --dogleg --low",
        status: Status::Unfinished,
        said: Said::Whole(&["status 6 unfinished\nfewest 6", RING_OPEN]),
        left: EVIDENCE,
    },
    Case {
        tech: "budget = 20",
        spice: &[RING],
        words: "make t.toml c.sp ring out --dogleg --low",
        status: Status::Unfinished,
        said: Said::Last(RING_OPEN),
        left: EVIDENCE,
    },
    Case {
        tech: "",
        spice: &[INVERTER],
        words: "make - c.sp inv out --dogleg --low",
        status: Status::Done,
        said: Said::Whole(&[INVERTER_ROW]),
        left: [
            Left::Bytes(INVERTER_LOG),
            Left::Nothing,
            Left::Bytes(TRACKS),
            Left::Length(2122),
            Left::Length(997),
        ],
    },
    Case {
        tech: "",
        spice: &[INVERTER],
        words: "make - c.sp inv out --dogleg --low --trails",
        status: Status::Done,
        said: Said::Whole(&[INVERTER_ROW, "filled 0\n"]),
        left: [
            Left::Nothing,
            Left::Bytes(INVERTER_TRAILS),
            Left::Bytes(TRACKS),
            Left::Length(2122),
            Left::Length(997),
        ],
    },
    Case {
        tech: "budget = 1",
        spice: &[INVERTER],
        words: "make t.toml c.sp inv out --dogleg --low",
        status: Status::Unfinished,
        said: Said::First("status 6 unfinished\nproved 0\n"),
        left: LOG,
    },
];

#[test]
fn makes_the_lowest_row_with_doglegs(rt: HostRuntime) -> Result<(), Fail> {
    all_end(rt.alloc(), &CASES)
}
