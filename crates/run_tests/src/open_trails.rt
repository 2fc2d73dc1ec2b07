// Certificates by trails of version 2, where half columns stay open, and of version 3, where fingers are left out.
// Another program, written after the description of the text, accepts these.
use crate::setup::{joined, tells};
use cell_run::Status;
use std::alloc::Global;
use std::test::Fail;

// Gate a has two P fingers over one N finger, gate b two N fingers over one P finger.
const UNEVEN: &str = ".SUBCKT half a b x y z vdd gnd
MPA z a vdd vdd p W=3u L=0.6u
MPC z a vdd vdd p W=3u L=0.6u
MPB x b y vdd p W=3u L=0.6u
MNA x a z gnd n W=1.5u L=0.6u
MNB y b gnd gnd n W=1.5u L=0.6u
MNC x b z gnd n W=1.5u L=0.6u
.ENDS
";

const HEAD: &str = "cellgen-trails 2\ncell half\nfill 1\norder 0,1\n";

// Here gates of both rows would stay open, where no fingers are left out.
const UNLIKE: &str = "cellgen-trails 2\ncell half\nfill -\norder 0,1\n";

const FIRST: &str = "lemma 3 1 4.2,5.4 4-1,5-1 4.*+5.*\n";

const OTHERS: &str = "lemma 3 1 4.4,5.2 4-1,5-1 4.*+5.*\nlemma 3 0 - - -\n";

const ROW: &str =
    "gaps 1\ncolumn 0 0 0 0 0\ncolumn 0 0 1 - 0\ncolumn 1 - 0 2 0\ncolumn 1 1 0 1 0\nend\n";

const ACCEPTED: &str = "status 0 ok\ncell half\ncolumns 4\ngaps 1\nwidth 5\nlemmas 3\nfilled 1\n";

// Whether a certificate of these parts is judged so, for this cell.
fn is_judged_of(
    alloc: Global,
    words: &str,
    cell: &str,
    parts: &[&str],
    status: Status,
    said: &[&str],
) -> Result<bool, Fail> {
    let text = joined(alloc, parts)?;
    let files = ["", cell, text.as_str()];
    let is = tells(alloc, words, files, status, said);
    drop(text);
    is
}

fn is_judged(alloc: Global, parts: &[&str], status: Status, said: &[&str]) -> Result<bool, Fail> {
    let words = "check - c.sp half l.clog --trails";
    is_judged_of(alloc, words, UNEVEN, parts, status, said)
}

// The parts of a damaged certificate, and why it is refused. The text of version 1 has no balances. Net 4 is no gate.
const REFUSED: [([&str; 4], &str); 10] = [
    (["cellgen-trails 4\n", FIRST, OTHERS, ROW], "Version"),
    (
        [
            "cellgen-trails 1\ncell half\nfill 1\norder 0,1\n",
            FIRST,
            OTHERS,
            ROW,
        ],
        "Line line 5",
    ),
    ([UNLIKE, FIRST, OTHERS, ROW], "Gates"),
    (
        [
            "cellgen-trails 2\ncell half\nfill 1,4\norder 0,1\n",
            FIRST,
            OTHERS,
            ROW,
        ],
        "Gates",
    ),
    (
        [HEAD, "lemma 3 1 4.2,5.4 4-0,5-1 4.*+5.*\n", OTHERS, ROW],
        "Line line 5",
    ),
    (
        [HEAD, "lemma 3 1 4.2,5.4 4+1,5-1 4.*+5.*\n", OTHERS, ROW],
        "Unproved line 7",
    ),
    (
        [HEAD, "lemma 3 1 4.2,5.4 4-1,5-1 4.*+5.*,6.6\n", OTHERS, ROW],
        "Line line 5",
    ),
    (
        [HEAD, "lemma 5 1 4.2,5.4 4-1,5-1 4.*+5.*\n", OTHERS, ROW],
        "Unproved line 5",
    ),
    ([HEAD, "", OTHERS, ROW], "Unproved line 6"),
    ([HEAD, FIRST, OTHERS, "open\nend\n"], "NoRow best 1"),
];

#[test]
fn checks_certificates_with_open_columns(rt: HostRuntime) -> Result<(), Fail> {
    let alloc = rt.alloc();
    assert!(rt;
        is_judged(
            alloc,
            &[HEAD, FIRST, OTHERS, ROW],
            Status::Done,
            &[ACCEPTED]
        )?
    );
    for (parts, why) in &REFUSED {
        let said = ["status 7 rejected\ntrails ", *why, "\n"];
        assert!(rt; is_judged(alloc, parts, Status::Rejected, &said)?, "{why}");
    }
    Ok(())
}

// Four inverters of three fingers each on net b, and the inverter before them. Gate b has too many ways to pair.
const MANY: &str = ".SUBCKT many a y0 y1 y2 y3 vdd gnd
MPA b a vdd vdd p W=3u L=0.6u
MNA b a gnd gnd n W=1.5u L=0.6u
MP0 y0 b vdd vdd p W=3u L=0.6u M=3
MN0 y0 b gnd gnd n W=1.5u L=0.6u M=3
MP1 y1 b vdd vdd p W=3u L=0.6u M=3
MN1 y1 b gnd gnd n W=1.5u L=0.6u M=3
MP2 y2 b vdd vdd p W=3u L=0.6u M=3
MN2 y2 b gnd gnd n W=1.5u L=0.6u M=3
MP3 y3 b vdd vdd p W=3u L=0.6u M=3
MN3 y3 b gnd gnd n W=1.5u L=0.6u M=3
.ENDS
";

const WITHOUT: &str = "cellgen-trails 3\nwithout N 7\n";

const OTHER_FINGERS: &str =
    "cellgen-trails 2\ncell many\nfill -\norder 0,7\nlemma 4 1 - 5+1 5.*!\nlemma 5 0 - - -\n";

const ALL_FINGERS: &str = "gaps 2
column 0 0 0 0 0
column 7 1 0 1 0
column 7 1 1 1 1
column 7 1 0 1 0
column 7 2 1 2 1
column 7 2 0 2 0
column 7 2 1 2 1
column 7 3 0 3 0
column 7 3 1 3 1
column 7 3 0 3 0
column 7 4 1 4 1
column 7 4 0 4 0
column 7 4 1 4 1
end
";

// Without its P fingers gate a needs one column in place of two. So the gap that the lemmas prove is lost.
const LOST: &str = "cellgen-trails 3\nwithout P 0\n";

const OF_OTHERS: &str = "lemma 4 1 - 2-1,4-1 *.2+*.4\nlemma 4 0 - - -\n";

const MANY_ACCEPTED: &str =
    "status 0 ok\ncell many\ncolumns 13\ngaps 2\nwidth 15\nlemmas 2\nfilled 0\n";

#[test]
fn checks_certificates_without_fingers(rt: HostRuntime) -> Result<(), Fail> {
    let alloc = rt.alloc();
    let words = "check - c.sp many l.clog --trails";
    let whole = [WITHOUT, OTHER_FINGERS, ALL_FINGERS];
    assert!(rt; is_judged_of(alloc, words, MANY, &whole, Status::Done, &[MANY_ACCEPTED])?);
    let no_choice = [OTHER_FINGERS, ALL_FINGERS];
    let many = ["status 7 rejected\ntrails Choices gate b\n"];
    assert!(rt; is_judged_of(alloc, words, MANY, &no_choice, Status::Rejected, &many)?);
    let lost = [LOST, UNLIKE, OF_OTHERS, ROW];
    let none = ["status 7 rejected\ntrails NotLeast best 0 said 1\n"];
    assert!(rt; is_judged(alloc, &lost, Status::Rejected, &none)?);
    Ok(())
}

const MANY_ROW: &str = "column 0 gate a p vdd b 20 n gnd b 10
column 1 gate b p y0 vdd 20 n y0 gnd 10
column 2 gate b p vdd y0 20 n gnd y0 10
column 3 gate b p y0 vdd 20 n y0 gnd 10
column 4 gate b p vdd y1 20 n gnd y1 10
column 5 gate b p y1 vdd 20 n y1 gnd 10
column 6 gate b p vdd y1 20 n gnd y1 10
column 7 gate b p y2 vdd 20 n y2 gnd 10
column 8 gate b p vdd y2 20 n gnd y2 10
column 9 gate b p y2 vdd 20 n y2 gnd 10
column 10 gate b p vdd y3 20 n gnd y3 10
column 11 gate b p y3 vdd 20 n y3 gnd 10
column 12 gate b p vdd y3 20 n gnd y3 10
";

#[test]
fn finds_a_row_without_fingers(rt: HostRuntime) -> Result<(), Fail> {
    let head = "status 0 ok\ncell many\ncolumns 13\ngaps 2\nwidth 15\n";
    let said = [head, MANY_ROW, "lemmas 2\nfilled 0\n"];
    assert!(rt;
        tells(
            rt.alloc(),
            "plan - c.sp many --trails",
            ["", MANY, ""],
            Status::Done,
            &said
        )?
    );
    Ok(())
}
