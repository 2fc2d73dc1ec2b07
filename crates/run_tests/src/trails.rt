use crate::setup::{INVERTER, INVERTERS, joined, tells};
use cell_run::Status;
use std::alloc::Global;
use std::test::Fail;

const PLANNED: &str = "status 0 ok
cell inv
columns 1
gaps 0
width 1
column 0 gate a p y vdd 20 n y gnd 10
";

pub const X3: &str = "status 0 ok
cell x3
columns 3
gaps 1
width 4
column 0 gate a p x vdd 20 n x gnd 10
column 1 gate b p y vdd 20 n y gnd 10
column 2 gate c p vdd z 20 n gnd z 10
";

// A gate of eight equal fingers over eight: 10,321,920 pairings, and nine choices of how many are turned alike.
const EIGHT: &str = ".SUBCKT eight a y vdd gnd
MP y a vdd vdd p W=3u L=0.6u m=8
MN y a gnd gnd n W=1.5u L=0.6u m=8
.ENDS
";

const EIGHT_PLANNED: &str = "status 0 ok
cell eight
columns 8
gaps 0
width 8
column 0 gate a p y vdd 20 n y gnd 10
column 1 gate a p vdd y 20 n gnd y 10
column 2 gate a p y vdd 20 n y gnd 10
column 3 gate a p vdd y 20 n gnd y 10
column 4 gate a p y vdd 20 n y gnd 10
column 5 gate a p vdd y 20 n gnd y 10
column 6 gate a p y vdd 20 n y gnd 10
column 7 gate a p vdd y 20 n gnd y 10
";

const UNFINISHED: &str = "status 6 unfinished
proved 0
lemmas 0
cellgen-trails 1
cell inv
fill -
order 0
open
end
";

const PLANS: [(&str, &str, &str, Status, &str, &str); 4] = [
    (
        "",
        INVERTER,
        "plan t.toml c.sp inv --trails",
        Status::Done,
        PLANNED,
        "lemmas 0\nfilled 0\n",
    ),
    (
        "",
        INVERTERS,
        "plan t.toml c.sp x3 --trails",
        Status::Done,
        X3,
        "lemmas 4\nfilled 0\n",
    ),
    (
        "",
        EIGHT,
        "plan t.toml c.sp eight --trails",
        Status::Done,
        EIGHT_PLANNED,
        "lemmas 0\nfilled 0\n",
    ),
    (
        "budget = 1",
        INVERTER,
        "plan t.toml c.sp inv --trails",
        Status::Unfinished,
        UNFINISHED,
        "",
    ),
];

#[test]
fn plans_by_trails(rt: HostRuntime) -> Result<(), Fail> {
    for (tech, spice, words, status, row, more) in &PLANS {
        let files = [*tech, *spice, ""];
        assert!(rt;
            tells(rt.alloc(), words, files, *status, &[row, more])?,
            "{words}"
        );
    }
    Ok(())
}

const ACCEPTED: &str = "status 0 ok\ncell x3\ncolumns 3\ngaps 1\nwidth 4\nlemmas 4\nfilled 0\n";

pub const HEAD: &str = "cellgen-trails 1\ncell x3\nfill -\n";

pub const ORDER: &str = "order 0,1,2\n";

// With one gate left, after both ways in which the columns of the first two gates may meet; with two left; with all.
// Another program, written after the definitions, listed them.
pub const LEMMAS: &str =
    "lemma 1 2 - - 6.7!\nlemma 2 1 6.7 - 6.7!\nlemma 1 1 - - -\nlemma 3 0 - - -\n";

pub const ROW: &str = "gaps 1\ncolumn 0 0 0 0 0\ncolumn 1 1 0 1 0\ncolumn 2 2 1 2 1\nend\n";

// The same columns, none of them turned.
const UNTURNED: &str = "gaps 2\ncolumn 0 0 0 0 0\ncolumn 1 1 0 1 0\ncolumn 2 2 0 2 0\nend\n";

// Whether a certificate of these parts is judged so.
fn is_judged(alloc: Global, parts: &[&str], status: Status, said: &[&str]) -> Result<bool, Fail> {
    let text = joined(alloc, parts)?;
    let files = ["", INVERTERS, text.as_str()];
    let is = tells(
        alloc,
        "check - c.sp x3 l.clog --trails",
        files,
        status,
        said,
    );
    drop(text);
    is
}

fn is_refused(alloc: Global, parts: &[&str], why: &str) -> Result<bool, Fail> {
    let said = ["status 7 rejected\ntrails ", why, "\n"];
    is_judged(alloc, parts, Status::Rejected, &said)
}

// The parts of a certificate, and why it is refused.
const REFUSED: [(&str, &str, &str, &str, &str); 10] = [
    ("cellgen-log 1\n", ORDER, LEMMAS, ROW, "Version"),
    ("cellgen-trails 1\ncell inv\n", ORDER, LEMMAS, ROW, "Cell"),
    (HEAD, "order 0 1 2\n", LEMMAS, ROW, "Line line 4"),
    (HEAD, ORDER, LEMMAS, "", "Cut"),
    (HEAD, "order 0,1\n", LEMMAS, ROW, "Gates"),
    (HEAD, ORDER, "lemma 3 2 - - 6.7!\n", ROW, "Unproved line 5"),
    (HEAD, ORDER, LEMMAS, "open\nend\n", "NoRow best 1"),
    (HEAD, ORDER, LEMMAS, "gaps 0\nend\n", "NotArrangement"),
    (HEAD, ORDER, LEMMAS, UNTURNED, "NotLeast best 1 said 2"),
    (HEAD, ORDER, "", ROW, "NotLeast best 0 said 1"),
];

#[test]
fn checks_certificates_by_trails(rt: HostRuntime) -> Result<(), Fail> {
    let alloc = rt.alloc();
    assert!(rt;
        is_judged(
            alloc,
            &[HEAD, ORDER, LEMMAS, ROW],
            Status::Done,
            &[ACCEPTED]
        )?
    );
    for (head, order, lemmas, row, why) in &REFUSED {
        assert!(rt;
            is_refused(alloc, &[head, order, lemmas, row], why)?,
            "{why}"
        );
    }
    Ok(())
}
