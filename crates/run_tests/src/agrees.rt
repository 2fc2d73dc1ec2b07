use crate::calls::{End, Said, ends, made_file};
use crate::setup::{INVERTER, inputs};
use cell_run::Status;
use std::alloc::Global;
use std::test::Fail;

// A file of a made inverter.
fn made(alloc: Global, name: &str) -> Result<Vec<u8>, Fail> {
    let end = End {
        status: Status::Done,
        said: Said::First("status 0 ok\ncell inv\n"),
        files: &[],
    };
    made_file(
        alloc,
        "make - c.sp inv out",
        &inputs(["", INVERTER, ""]),
        &[],
        &end,
        name,
    )
}

// Whether the words end so over a library and an abstract.
fn ends_so(
    alloc: Global,
    words: &str,
    [gds, lef]: [&[u8]; 2],
    status: Status,
    said: &[&str],
) -> Result<bool, Fail> {
    let end = End {
        status,
        said: Said::Whole(said),
        files: &[],
    };
    ends(alloc, words, &[("c.gds", gds), ("c.lef", lef)], &[], &end)
}

const CALLS: [(&str, Status, &str); 4] = [
    (
        "agree - c.gds c.lef inv",
        Status::Done,
        "status 0 ok\ncell inv\npins 4\nports 4\nobstructions 6\n",
    ),
    (
        "agree - c.gds c.lef INV",
        Status::Layout,
        "status 9 layout\ngds NoCell\n",
    ),
    (
        "agree - c.gds d.lef inv",
        Status::ReadFault,
        "status 2 read d.lef\n",
    ),
    (
        "agree - d.gds d.lef inv",
        Status::ReadFault,
        "status 2 read d.gds\n",
    ),
];

const DIFFERENT: [(&str, &str); 9] = [
    ("", "lef NoMacro\n"),
    ("MACRO inv\nPIN a\n", "lef Cut\n"),
    ("MACRO inv\nDENSITY\n", "lef Statement line 2\n"),
    (
        "MACRO inv\nPIN b\nEND b\nEND inv\n",
        "agree NoLabel name b\n",
    ),
    (
        "MACRO inv\nPIN a\nPORT\nLAYER metal1 ;\nRECT 0 0 1.5 1.5 ;\nEND\nEND a\nEND inv\n",
        "agree Port name a x 0 y 0\n",
    ),
    ("MACRO inv\nEND inv\n", "agree Bare layer metal1 x 0 y 0\n"),
    ("MACRO inv PIN _1 END _1 END inv", "agree NoLabel name _1\n"),
    (
        "MACRO inv PIN a PORT LAYER metal1 ; RECT 2.55 7.5 3.9 8.7 ; END END a END inv",
        "agree Port name a x 17 y 50\n",
    ),
    (
        "MACRO inv PIN a PORT LAYER metal2 ; RECT 2.7 7.5 3.9 8.7 ; END END a END inv",
        "agree Port name a x 18 y 50\n",
    ),
];

fn are_agreed(alloc: Global, gds: &[u8], lef: &[u8]) -> Result<bool, Fail> {
    for (words, status, said) in &CALLS {
        if !ends_so(alloc, words, [gds, lef], *status, &[said])? {
            return Ok(false);
        }
    }
    Ok(true)
}

fn are_different(alloc: Global, gds: &[u8]) -> Result<bool, Fail> {
    for (lef, said) in &DIFFERENT {
        let files = [gds, lef.as_bytes()];
        if !ends_so(
            alloc,
            "agree - c.gds c.lef inv",
            files,
            Status::Disagree,
            &["status 13 disagree\n", said],
        )? {
            return Ok(false);
        }
    }
    Ok(true)
}

fn agrees_with(alloc: Global, gds: &[u8]) -> Result<bool, Fail> {
    let lef = made(alloc, "out.lef")?;
    let are = are_agreed(alloc, gds, &lef);
    drop(lef);
    Ok(are? && are_different(alloc, gds)?)
}

// The abstract that was made with the drawing agrees with it, except under another cell's name; of others the
// first difference is reported. A net without a label is named by its number, and no pin has that name.
#[test]
fn agrees_with_a_made_cell(rt: HostRuntime) -> Result<(), Fail> {
    let alloc = rt.alloc();
    let gds = made(alloc, "out.gds")?;
    let agrees = agrees_with(alloc, &gds);
    drop(gds);
    assert!(rt; agrees?);
    Ok(())
}
