use crate::calls::{End, Left, Said, ends};
use crate::setup::{inputs, joined, tells};
use cell_run::Status;
use std::alloc::{AllocError, Global};
use std::test::Fail;

// Gates a and b switch between x and y, gates c and d between u and v: no net has an odd number of ends.
const RING: &str = ".subckt ring a b c d x y u v vdd gnd
mp1 x a y vdd p w=3u l=0.6u
mn1 x a y gnd n w=1.5u l=0.6u
mp2 x b y vdd p w=3u l=0.6u
mn2 x b y gnd n w=1.5u l=0.6u
mp3 u c v vdd p w=3u l=0.6u
mn3 u c v gnd n w=1.5u l=0.6u
mp4 u d v vdd p w=3u l=0.6u
mn4 u d v gnd n w=1.5u l=0.6u
.ends
";

const RING_LOG: &str = "cell ring
lemma 1 P 1,1,1,1 1,1,1,1 - -
lemma 1 P 0,0,1,1 0,0,1,1 5 5
lemma 1 P 0,0,1,1 0,0,1,1 5 4
lemma 1 P 0,0,1,1 0,0,1,1 4 5
gaps 1
column 0 0 0 0 0
column 1 1 1 1 1
column 2 2 0 2 0
column 3 3 1 3 1
end
";

fn log_of(alloc: Global, version: &str) -> Result<String, AllocError> {
    joined(alloc, &["cellgen-log ", version, "\n", RING_LOG])
}

// Whether the cell `ring` is made with this log.
fn leaves_log(alloc: Global, log: &str) -> Result<bool, Fail> {
    let files = [("out.clog", Left::Bytes(log.as_bytes()))];
    let end = End {
        status: Status::Done,
        said: Said::First("status 0 ok\n"),
        files: &files,
    };
    ends(
        alloc,
        "make - c.sp ring out",
        &inputs(["", RING, ""]),
        &[],
        &end,
    )
}

#[test]
fn certifies_by_components(rt: HostRuntime) -> Result<(), Fail> {
    let log = log_of(rt.alloc(), "2")?;
    let is = leaves_log(rt.alloc(), &log);
    drop(log);
    assert!(rt; is?);
    Ok(())
}

fn is_checked(alloc: Global, version: &str, status: Status, said: &str) -> Result<bool, Fail> {
    let log = log_of(alloc, version)?;
    let is = tells(
        alloc,
        "check - c.sp ring l.clog",
        ["", RING, &log],
        status,
        &[said],
    );
    drop(log);
    is
}

const VERSIONS: [(&str, Status, &str); 3] = [
    (
        "2",
        Status::Done,
        "status 0 ok\ncell ring\ncolumns 4\ngaps 1\nwidth 5\nlemmas 4\n",
    ),
    (
        "1",
        Status::Rejected,
        "status 7 rejected\nlog Unproved line 3\n",
    ),
    ("3", Status::Rejected, "status 7 rejected\nlog Version\n"),
];

// Each version of a log has a bound of its own.
#[test]
fn checks_by_the_version(rt: HostRuntime) -> Result<(), Fail> {
    for (version, status, said) in &VERSIONS {
        assert!(rt; is_checked(rt.alloc(), version, *status, said)?, "{said}");
    }
    Ok(())
}
