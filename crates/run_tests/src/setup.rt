// The files that the tests run over.
use crate::calls::{End, Given, Left, Said, ends};
use cell_run::Status;
use std::alloc::{AllocError, Global};
use std::test::Fail;

pub const INVERTER: &str = ".SUBCKT inv a y vdd gnd
*.PININFO a:I y:O vdd:B gnd:B
MP y a vdd vdd p W=3u L=0.6u
MN y a gnd gnd n W=1.5u L=0.6u
.ENDS
";

pub const INVERTERS: &str = ".SUBCKT x3 a b c x y z vdd gnd
M1 x a vdd vdd p W=3u L=0.6u
M2 x a gnd gnd n W=1.5u L=0.6u
M3 y b vdd vdd p W=3u L=0.6u
M4 y b gnd gnd n W=1.5u L=0.6u
M5 z c vdd vdd p W=3u L=0.6u
M6 z c gnd gnd n W=1.5u L=0.6u
.ENDS
";

// The parts of the log of the three inverters.
pub const HEAD: &str = "cellgen-log 1\ncell x3\n";

pub const LEMMA: &str = "lemma 1 P 1,1,1 1,1,1 - -\n";

pub const LISTED: &str = "gaps 1\ncolumn 0 0 0 0 0\ncolumn 1 1 0 1 0\ncolumn 2 2 1 2 1\nend\n";

/// Parts one after another.
pub fn joined(alloc: Global, parts: &[&str]) -> Result<String, AllocError> {
    let mut text = String::new(alloc);
    add_parts(&mut text, parts)?;
    Ok(text)
}

fn add_parts(text: &mut String, parts: &[&str]) -> Result<(), AllocError> {
    for part in parts {
        text.push_str(part)?;
    }
    Ok(())
}

/// A technology, subcircuits and a log.
pub fn inputs<'a>([tech, spice, log]: [&'a str; 3]) -> [Given<'a>; 3] {
    [
        ("t.toml", tech.as_bytes()),
        ("c.sp", spice.as_bytes()),
        ("l.clog", log.as_bytes()),
    ]
}

/// Whether the words end so over these files, with this whole report.
pub fn tells(
    alloc: Global,
    words: &str,
    files: [&str; 3],
    status: Status,
    said: &[&str],
) -> Result<bool, Fail> {
    let end = End {
        status,
        said: Said::Whole(said),
        files: &[],
    };
    ends(alloc, words, &inputs(files), &[], &end)
}

/// Whether none of the words are a call, and none make a file of that name.
pub fn are_usage(alloc: Global, all: &[&str], name: &str) -> Result<bool, Fail> {
    let files = [(name, Left::Nothing)];
    let end = End {
        status: Status::Usage,
        said: Said::First("status 1 usage\n"),
        files: &files,
    };
    for words in all {
        if !ends(alloc, words, &inputs(["", INVERTER, ""]), &[], &end)? {
            return Ok(false);
        }
    }
    Ok(true)
}
