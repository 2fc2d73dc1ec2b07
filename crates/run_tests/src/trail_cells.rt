// Cells that are made with certificates by trails. Another program, written after the definitions, listed their lemmas.
use crate::calls::{End, Left, Said, ends, made_file};
use crate::make::{CROSS, makes_in_order};
use crate::setup::{INVERTER, INVERTERS, inputs, joined};
use crate::trails::{HEAD, LEMMAS, ORDER, ROW, X3};
use cell_run::Status;
use std::alloc::Global;
use std::test::Fail;

const INVERTER_TRAILS: &str =
    "cellgen-trails 1\ncell inv\nfill -\norder 0\ngaps 0\ncolumn 0 0 0 0 0\nend\n";

const BY_LOG: End = End {
    status: Status::Done,
    said: Said::First("status 0 ok\ncell x3\n"),
    files: &[],
};

// A file that is made with a log.
fn by_log(alloc: Global, name: &str) -> Result<Vec<u8>, Fail> {
    let given = inputs(["", INVERTERS, ""]);
    made_file(alloc, "make - c.sp x3 out", &given, &[], &BY_LOG, name)
}

// Whether the certificate is this one, and the files after it are these.
fn is_made<'a>(alloc: Global, trails: &'a str, gds: &'a [u8], lef: &'a [u8]) -> Result<bool, Fail> {
    let said = [X3, "tracks 1\nsize 107 118\nlemmas 4\nfilled 0\n"];
    let files = [
        ("out.ctrail", Left::Bytes(trails.as_bytes())),
        ("out.clog", Left::Nothing),
        ("out.gds", Left::Bytes(gds)),
        ("out.lef", Left::Bytes(lef)),
    ];
    let end = End {
        status: Status::Done,
        said: Said::Whole(&said),
        files: &files,
    };
    let given = inputs(["", INVERTERS, ""]);
    ends(alloc, "make - c.sp x3 out --trails", &given, &[], &end)
}

fn is_made_with(alloc: Global, trails: &str, gds: &[u8]) -> Result<bool, Fail> {
    let lef = by_log(alloc, "out.lef")?;
    let is = is_made(alloc, trails, gds, &lef);
    drop(lef);
    is
}

fn is_certified(alloc: Global, trails: &str) -> Result<bool, Fail> {
    let gds = by_log(alloc, "out.gds")?;
    let is = is_made_with(alloc, trails, &gds);
    drop(gds);
    is
}

// The certificate is the one that `check` accepts, and the files after it are those of a cell with a log.
#[test]
fn makes_a_cell_by_trails(rt: HostRuntime) -> Result<(), Fail> {
    let trails = joined(rt.alloc(), &[HEAD, ORDER, LEMMAS, ROW])?;
    let is = is_certified(rt.alloc(), &trails);
    drop(trails);
    assert!(rt; is?);
    Ok(())
}

#[test]
fn makes_the_certificate_first(rt: HostRuntime) -> Result<(), Fail> {
    let words = "make - c.sp inv out --trails";
    assert!(rt; makes_in_order(rt.alloc(), words, "out.ctrail", INVERTER_TRAILS)?);
    Ok(())
}

// A call that draws nothing: the technology, the cell, the words, the end, and the certificate.
const UNDRAWN: [(&str, &str, &str, Status, &str, &str); 3] = [
    (
        "height = 117",
        INVERTER,
        "make t.toml c.sp inv out --trails",
        Status::TooTall,
        "status 11 tall\nneeded 118\ngiven 117\n",
        INVERTER_TRAILS,
    ),
    (
        "",
        CROSS,
        "make - c.sp cross out --taps --trails",
        Status::Cycle,
        "status 5 cycle\nx above y at line 0\ny above x at line 4\n",
        "cellgen-trails 1\ncell cross\nfill -\norder 6,7\nlemma 1 1 - - -\nlemma 3 0 - - -\ngaps 1\ncolumn 6 0 0 0 0\n\
          column 7 1 0 1 0\nend\n",
    ),
    (
        "budget = 1",
        INVERTER,
        "make t.toml c.sp inv out --trails",
        Status::Unfinished,
        "status 6 unfinished\nproved 0\nlemmas 0\n",
        "cellgen-trails 1\ncell inv\nfill -\norder 0\nopen\nend\n",
    ),
];

// Whether a call ends so, and makes this certificate and nothing else.
fn ends_so(
    alloc: Global,
    words: &str,
    [tech, spice]: [&str; 2],
    status: Status,
    said: &str,
    trails: &'static str,
) -> Result<bool, Fail> {
    let files = [
        ("out.ctrail", Left::Bytes(trails.as_bytes())),
        ("out.clog", Left::Nothing),
        ("out.gds", Left::Nothing),
        ("out.lef", Left::Nothing),
    ];
    let end = End {
        status,
        said: Said::Whole(&[said]),
        files: &files,
    };
    ends(alloc, words, &inputs([tech, spice, ""]), &[], &end)
}

#[test]
fn makes_the_certificate_alone(rt: HostRuntime) -> Result<(), Fail> {
    for (tech, spice, words, status, said, trails) in &UNDRAWN {
        assert!(rt;
            ends_so(rt.alloc(), words, [tech, spice], *status, said, trails)?,
            "{said}"
        );
    }
    Ok(())
}

// Gate g has two P fingers over one N finger, so that one of its columns is a half column.
const HALF: &str = ".SUBCKT half g h x y z vdd gnd
MP1 x g vdd vdd p W=3u L=0.6u
MP2 x g z vdd p W=3u L=0.6u
MN1 gnd g x gnd n W=3u L=0.6u
MP3 y h x vdd p W=3u L=0.6u
MN2 y h gnd gnd n W=3u L=0.6u
.ENDS
";

const HALF_TRAILS: &str = "cellgen-trails 1
cell half
fill -
order 0,1
lemma 2 1 - - 2.0!
lemma 4 0 - - -
gaps 1
column 0 1 1 0 0
column 1 2 0 1 1
column 0 0 0 - 0
end
";

const HALF_ACCEPTED: End = End {
    status: Status::Done,
    said: Said::Whole(&[
        "status 0 ok\ncell half\ncolumns 3\ngaps 1\nwidth 4\nlemmas 2\nfilled 0\n",
    ]),
    files: &[],
};

// The half column is left open, and not filled: the lemmas prove one gap all the same.
#[test]
fn accepts_an_open_gate(rt: HostRuntime) -> Result<(), Fail> {
    let words = "check - c.sp half l.clog --trails";
    let given = inputs(["", HALF, HALF_TRAILS]);
    assert!(rt; ends(rt.alloc(), words, &given, &[], &HALF_ACCEPTED)?);
    Ok(())
}
