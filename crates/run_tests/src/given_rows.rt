// Cells that are drawn from the row of a file.
use crate::calls::{End, Left, Said, ends};
use crate::setup::{HEAD, INVERTERS, LEMMA, inputs, joined};
use crate::trails;
use cell_run::Status;
use std::alloc::Global;
use std::test::Fail;

// The first least row, turned round: it has as few gaps.
const TURNED: &str = "gaps 1\ncolumn 2 2 0 2 0\ncolumn 1 1 1 1 1\ncolumn 0 0 1 0 1\nend\n";

const DRAWN: &str = "status 0 ok
cell x3
columns 3
gaps 1
width 4
column 0 gate c p z vdd 20 n z gnd 10
column 1 gate b p vdd y 20 n gnd y 10
column 2 gate a p vdd x 20 n gnd x 10
tracks 1
size 107 118
";

// A call over a file of these parts: its status, its report, and the lengths of the drawing's and of the abstract's
// file.
struct Case {
    words: &'static str,
    parts: &'static [&'static str],
    status: Status,
    said: &'static [&'static str],
    made: [Left<'static>; 2],
}

const CASES: [Case; 4] = [
    Case {
        words: "make - c.sp x3 out --from l.clog",
        parts: &[HEAD, LEMMA, TURNED],
        status: Status::Done,
        said: &[DRAWN, "lemmas 1\n"],
        made: [Left::Length(4960), Left::Length(1889)],
    },
    Case {
        words: "make - c.sp x3 out --trails --from l.clog",
        parts: &[trails::HEAD, trails::ORDER, trails::LEMMAS, TURNED],
        status: Status::Done,
        said: &[DRAWN, "lemmas 4\nfilled 0\n"],
        made: [Left::Length(4960), Left::Length(1889)],
    },
    Case {
        words: "make - c.sp x3 out --from l.clog",
        parts: &[HEAD, TURNED],
        status: Status::Rejected,
        said: &["status 7 rejected\nlog NotLeast best 0 said 1\n"],
        made: [Left::Nothing, Left::Nothing],
    },
    Case {
        words: "make - c.sp x3 out --from l.clog",
        parts: &[HEAD, LEMMA, "open\nend\n"],
        status: Status::Rejected,
        said: &["status 7 rejected\nlog NoRow best 1\n"],
        made: [Left::Nothing, Left::Nothing],
    },
];

fn is_so(alloc: Global, case: &Case) -> Result<bool, Fail> {
    let text = joined(alloc, case.parts)?;
    let [gds, lef] = case.made;
    let files = [
        ("out.clog", Left::Nothing),
        ("out.ctrail", Left::Nothing),
        ("out.gds", gds),
        ("out.lef", lef),
    ];
    let end = End {
        status: case.status,
        said: Said::Whole(case.said),
        files: &files,
    };
    let is = ends(
        alloc,
        case.words,
        &inputs(["", INVERTERS, text.as_str()]),
        &[],
        &end,
    );
    drop(text);
    is
}

#[test]
fn draws_the_row_of_a_file(rt: HostRuntime) -> Result<(), Fail> {
    for case in &CASES {
        let words = case.words;
        assert!(rt; is_so(rt.alloc(), case)?, "{words}");
    }
    Ok(())
}
