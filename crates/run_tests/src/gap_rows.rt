// Cells each of whose least rows has a cycle: they are made with more gaps, or each of their rows has one.
use crate::calls::Said;
use crate::low_calls::{CELL, Case, EVIDENCE, LIBRARY, LOG, NO_FILE, TRAIL_CELL, all_end};
use crate::track_checks::is_checked;
use cell_run::Status;
use std::test::Fail;

// A multiplexer of two transmission gates and an inverter. A row with one gap has a cycle, and some with two have none.
const GATES: &str = ".SUBCKT gates a b s y vdd gnd
MPS sn s vdd vdd p W=3u L=0.6u
MNS sn s gnd gnd n W=1.5u L=0.6u
MP1 a s y vdd p W=3u L=0.6u
MN1 a sn y gnd n W=1.5u L=0.6u
MP2 b sn y vdd p W=3u L=0.6u
MN2 b s y gnd n W=1.5u L=0.6u
.ENDS
";

const GATES_MADE: &str = "status 0 ok
cell gates
columns 3
gaps 2
width 5
column 0 gate s p a y 20 n gnd sn 10
column 1 gate s p vdd sn 20 n y b 10
column 2 gate sn p b y 20 n a y 10
tracks 4
fewest 4
size 117 166
lemmas ";

// The same with an inverter behind it. None of its 8 rows with one gap and its 376 rows with two is wired, and 1,536 of
// its 12,288 rows with three are.
const MUXZ: &str = ".SUBCKT muxz a b s z vdd gnd
MPS sn s vdd vdd p W=3u L=0.6u
MNS sn s gnd gnd n W=1.5u L=0.6u
MP1 a s y vdd p W=3u L=0.6u
MN1 a sn y gnd n W=1.5u L=0.6u
MP2 b sn y vdd p W=3u L=0.6u
MN2 b s y gnd n W=1.5u L=0.6u
MPZ z y vdd vdd p W=3u L=0.6u
MNZ z y gnd gnd n W=1.5u L=0.6u
.ENDS
";

const MUXZ_MADE: &str = "status 0 ok
cell muxz
columns 4
gaps 3
width 7
column 0 gate s p a y 20 n gnd sn 10
column 1 gate s p vdd sn 20 n y b 10
column 2 gate sn p b y 20 n a y 10
column 3 gate y p z vdd 20 n z gnd 10
tracks 4
fewest 4
size 155 166
lemmas ";

// The two gates alone: each row has a cycle, without a gap and with one.
const PAIR: &str = ".SUBCKT pair a b s sn y vdd gnd
MP1 a sn y vdd p W=3u L=0.6u
MN1 a s y gnd n W=1.5u L=0.6u
MP2 b s y vdd p W=3u L=0.6u
MN2 b sn y gnd n W=1.5u L=0.6u
.ENDS
";

const PAIR_CYCLE: &str = "status 5 cycle\na above b at line 4\nb above a at line 0\n";

const PAIR_OPEN: &str = "status 6 unfinished\nfewest 0\na above b at line 4\nb above a at line 0\n";

const CASES: [Case; 10] = [
    Case {
        tech: "",
        spice: &[GATES],
        words: "make - c.sp gates out --low",
        status: Status::Done,
        said: Said::First(GATES_MADE),
        left: CELL,
    },
    Case {
        tech: "",
        spice: &[GATES],
        words: "make - c.sp gates out --taps --low --trails",
        status: Status::Done,
        said: Said::First(GATES_MADE),
        left: TRAIL_CELL,
    },
    Case {
        tech: "height = 165",
        spice: &[GATES],
        words: "make t.toml c.sp gates out --low",
        status: Status::TooTall,
        said: Said::First("status 11 tall\nfewest 4\nneeded 166\ngiven 165\n"),
        left: EVIDENCE,
    },
    Case {
        tech: "",
        spice: &[MUXZ],
        words: "make - c.sp muxz out --low",
        status: Status::Done,
        said: Said::First(MUXZ_MADE),
        left: CELL,
    },
    Case {
        tech: "",
        spice: &[PAIR],
        words: "make - c.sp pair out --low",
        status: Status::Cycle,
        said: Said::First(PAIR_CYCLE),
        left: EVIDENCE,
    },
    // The budget is enough for the lemmas on rows without a gap, and not for those on all rows.
    Case {
        tech: "budget = 5",
        spice: &[PAIR],
        words: "make t.toml c.sp pair out --low",
        status: Status::Unfinished,
        said: Said::First(PAIR_OPEN),
        left: EVIDENCE,
    },
    Case {
        tech: "budget = 4",
        spice: &[PAIR],
        words: "make t.toml c.sp pair out --low",
        status: Status::Unfinished,
        said: Said::First(PAIR_OPEN),
        left: LOG,
    },
    Case {
        tech: "",
        spice: &[GATES],
        words: "row - c.sp out two gates gates --low",
        status: Status::Done,
        said: Said::First("status 0 ok\ncell two\ncells 2\nsize 234 166\n"),
        left: LIBRARY,
    },
    Case {
        tech: "",
        spice: &[PAIR],
        words: "row - c.sp out two pair pair --low",
        status: Status::Cycle,
        said: Said::First(PAIR_CYCLE),
        left: NO_FILE,
    },
    Case {
        tech: "budget = 5",
        spice: &[PAIR],
        words: "row t.toml c.sp out two pair pair --low",
        status: Status::Unfinished,
        said: Said::First(PAIR_OPEN),
        left: NO_FILE,
    },
];

#[test]
fn makes_rows_with_more_gaps(rt: HostRuntime) -> Result<(), Fail> {
    all_end(rt.alloc(), &CASES)
}

// A call that leaves evidence, the file of it, a call that checks this file, and its report. The log proves how few
// gaps the least rows have, the certificate of tracks is about those that can be wired.
const CHECKED: [(&str, &str, &str, Status, &str, &str, &str); 5] = [
    (
        "",
        GATES,
        "make - c.sp gates out --low",
        Status::Done,
        "out.clog",
        "check - c.sp gates l.clog",
        "status 0 ok\ncell gates\ncolumns 3\ngaps 1\nwidth 4\nlemmas 8\n",
    ),
    (
        "",
        GATES,
        "make - c.sp gates out --low",
        Status::Done,
        "out.ctrack",
        "check - c.sp gates l.clog --low",
        "status 0 ok\ncell gates\ngaps 2\nfewest 4\n",
    ),
    (
        "",
        MUXZ,
        "make - c.sp muxz out --low",
        Status::Done,
        "out.ctrack",
        "check - c.sp muxz l.clog --low",
        "status 0 ok\ncell muxz\ngaps 3\nfewest 4\n",
    ),
    (
        "",
        PAIR,
        "make - c.sp pair out --low",
        Status::Cycle,
        "out.ctrack",
        "check - c.sp pair l.clog --low",
        "status 0 ok\ncell pair\ngaps 1\nfewest 7\n",
    ),
    (
        "budget = 5",
        PAIR,
        "make t.toml c.sp pair out --low",
        Status::Unfinished,
        "out.ctrack",
        "check - c.sp pair l.clog --low",
        "status 0 ok\ncell pair\ngaps 0\nfewest 7\n",
    ),
];

#[test]
fn certifies_rows_with_more_gaps(rt: HostRuntime) -> Result<(), Fail> {
    for (tech, spice, make, status, name, check, said) in &CHECKED {
        assert!(rt;
            is_checked(
                rt.alloc(),
                [tech, spice],
                [make, name, check, said],
                *status
            )?,
            "{check}"
        );
    }
    Ok(())
}
