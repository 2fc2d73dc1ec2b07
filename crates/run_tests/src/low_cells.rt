// Rows of cells that are made from their lowest rows. The size of each cell is the one that `make` with
// `--low` reports, which another program, written after the definitions, found too.
use crate::calls::Said;
use crate::low_calls::{Case, LIBRARY, NO_FILE, all_end};
use crate::low_rows::{MUX, RING};
use crate::make::CROSS;
use crate::setup::{INVERTER, INVERTERS, are_usage};
use cell_run::Status;
use std::test::Fail;

const CELLS: [&str; 5] = [INVERTER, MUX, CROSS, RING, INVERTERS];

const CASES: [Case; 9] = [
    Case {
        tech: "",
        spice: &CELLS,
        words: "row - c.sp out pair inv inv --low",
        status: Status::Done,
        said: Said::Whole(&["status 0 ok\ncell pair\ncells 2\nsize 82 118\n"]),
        left: LIBRARY,
    },
    Case {
        tech: "",
        spice: &CELLS,
        words: "row - c.sp out pair mux2 MUX2 --low",
        status: Status::Done,
        said: Said::Whole(&["status 0 ok\ncell pair\ncells 2\nsize 334 196\n"]),
        left: LIBRARY,
    },
    // The first least row has a cycle, the second is wired.
    Case {
        tech: "",
        spice: &CELLS,
        words: "row - c.sp out pair cross cross",
        status: Status::Cycle,
        said: Said::Whole(&["status 5 cycle\nx above y at line 0\ny above x at line 4\n"]),
        left: NO_FILE,
    },
    Case {
        tech: "",
        spice: &CELLS,
        words: "row - c.sp out pair cross cross --low",
        status: Status::Done,
        said: Said::Whole(&["status 0 ok\ncell pair\ncells 2\nsize 164 166\n"]),
        left: LIBRARY,
    },
    Case {
        tech: "height = 196",
        spice: &CELLS,
        words: "row t.toml c.sp out top cross mux2 inv --low",
        status: Status::Done,
        said: Said::Whole(&["status 0 ok\ncell top\ncells 3\nsize 290 196\n"]),
        left: LIBRARY,
    },
    // No row is wired.
    Case {
        tech: "",
        spice: &CELLS,
        words: "row - c.sp out top ring none --low",
        status: Status::Cycle,
        said: Said::Whole(&["status 5 cycle\nx above y at line 0\ny above x at line 4\n"]),
        left: NO_FILE,
    },
    Case {
        tech: "height = 117",
        spice: &CELLS,
        words: "row t.toml c.sp out top inv inv --low",
        status: Status::TooTall,
        said: Said::Whole(&["status 11 tall\nneeded 118\ngiven 117\n"]),
        left: NO_FILE,
    },
    Case {
        tech: "budget = 1",
        spice: &CELLS,
        words: "row t.toml c.sp out top inv x3 --low",
        status: Status::Unfinished,
        said: Said::Whole(&[
            "status 6 unfinished\nproved 0\nlemmas 0\ncellgen-log 2\ncell inv\nopen\nend\n",
        ]),
        left: NO_FILE,
    },
    Case {
        tech: "",
        spice: &CELLS,
        words: "row - c.sp out top inv none --low",
        status: Status::Input,
        said: Said::Whole(&["status 4 input\nspice NoCell\n"]),
        left: NO_FILE,
    },
];

#[test]
fn makes_rows_of_lowest_cells(rt: HostRuntime) -> Result<(), Fail> {
    all_end(rt.alloc(), &CASES)
}

// The word is the last one, once, and alone; it is no cell.
#[test]
fn takes_low_as_the_last_word(rt: HostRuntime) -> Result<(), Fail> {
    let words = [
        "row - c.sp out top inv --low",
        "row - c.sp out top --low inv inv",
        "row - c.sp out top inv --low inv",
        "row - c.sp out top inv inv --low --low",
        "row - c.sp out top inv inv --taps --low",
        "row - c.sp out --low",
    ];
    assert!(rt; are_usage(rt.alloc(), &words, "out.gds")?);
    Ok(())
}
