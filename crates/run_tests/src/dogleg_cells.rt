use crate::calls::{End, Left, Said, ends};
use crate::make::LATCH;
use crate::setup::{INVERTERS, inputs};
use cell_run::Status;
use std::test::Fail;

const LATCHED: End = End {
    status: Status::Done,
    said: Said::Last("tracks 3\nsize 160 150\nlemmas 8\n"),
    files: &[
        ("out.clog", Left::Length(410)),
        ("out.gds", Left::Length(7114)),
        ("out.lef", Left::Length(1897)),
    ],
};

// It is wider than with trunks, and no lower.
#[test]
fn makes_the_latch_with_doglegs(rt: HostRuntime) -> Result<(), Fail> {
    let words = "make - c.sp latch out --dogleg";
    assert!(rt; ends(rt.alloc(), words, &inputs(["", LATCH, ""]), &[], &LATCHED)?);
    Ok(())
}

const OPEN: End = End {
    status: Status::Unfinished,
    said: Said::Whole(&["status 6 unfinished\nproved 1\nlemmas 1\n"]),
    files: &[
        (
            "out.clog",
            Left::Bytes(b"cellgen-log 2\ncell x3\nlemma 1 P 1,1,1 1,1,1 - -\nopen\nend\n"),
        ),
        ("out.gds", Left::Nothing),
        ("out.lef", Left::Nothing),
    ],
};

// The search comes before the channel: the word changes nothing where it spends its budget.
#[test]
fn spends_its_budget_with_doglegs(rt: HostRuntime) -> Result<(), Fail> {
    let words = "make t.toml c.sp x3 out --dogleg";
    let given = inputs(["budget = 1", INVERTERS, ""]);
    assert!(rt; ends(rt.alloc(), words, &given, &[], &OPEN)?);
    Ok(())
}
