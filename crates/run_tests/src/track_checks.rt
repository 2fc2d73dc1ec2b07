// Checks of certificates of tracks. Another program, written after the definitions, judged these certificates.
use crate::calls::{End, Said, ends, made_file};
use crate::low_rows::{MUX, RING};
use crate::make::{CROSS, NAND};
use crate::setup::{INVERTERS, inputs, joined, tells};
use cell_run::Status;
use std::alloc::Global;
use std::test::Fail;

const HEAD: &str = "cellgen-tracks 1\ncell nand2\n";

const ROWS: &str = "gaps 0\ntracks 2\n";

// With one gate left, and with all.
const LEMMAS: &str = "lemma 0 1,0 1,0 2 5 -\nlemma 0 1,1 1,1 - - -\n";

// Whether a certificate of these parts is judged so.
fn is_judged(alloc: Global, parts: &[&str], status: Status, said: &[&str]) -> Result<bool, Fail> {
    let text = joined(alloc, parts)?;
    let files = ["", NAND, text.as_str()];
    let is = tells(
        alloc,
        "check - c.sp nand2 l.clog --low",
        files,
        status,
        said,
    );
    drop(text);
    is
}

fn is_refused(alloc: Global, parts: &[&str], why: &str) -> Result<bool, Fail> {
    let said = ["status 7 rejected\ntracks ", why, "\n"];
    is_judged(alloc, parts, Status::Rejected, &said)
}

// The lines of gaps and tracks, and how many tracks they prove: the lemmas prove one, too.
const ACCEPTED: [(&str, &str); 2] = [(ROWS, "2"), ("gaps 0\ntracks 1\n", "1")];

// The parts of a certificate, and why it is refused.
const REFUSED: [(&str, &str, &str, &str, &str); 11] = [
    (
        "cellgen-log 2\ncell nand2\n",
        ROWS,
        LEMMAS,
        "end\n",
        "Version",
    ),
    (
        "cellgen-tracks 1\ncell inv\n",
        ROWS,
        LEMMAS,
        "end\n",
        "Cell",
    ),
    (HEAD, "gaps 00\ntracks 2\n", LEMMAS, "end\n", "Line line 3"),
    (HEAD, "gaps 0\ntracks 0\n", LEMMAS, "end\n", "Line line 4"),
    (
        HEAD,
        ROWS,
        "lemma 0 1,2 1,0 2 5 -\n",
        "end\n",
        "Line line 5",
    ),
    (HEAD, ROWS, LEMMAS, "", "Cut"),
    (
        HEAD,
        "gaps 0\ntracks 3\n",
        LEMMAS,
        "end\n",
        "Unproved line 5",
    ),
    (
        HEAD,
        ROWS,
        "lemma 0 1,1 1,1 - - -\n",
        "end\n",
        "Unproved line 5",
    ),
    (
        HEAD,
        ROWS,
        "lemma 0 1,0 1,0 2 4 -\nlemma 0 1,1 1,1 - - -\n",
        "end\n",
        "Unproved line 6",
    ),
    (HEAD, "gaps 1\ntracks 2\n", LEMMAS, "end\n", "NoStart"),
    (HEAD, ROWS, "lemma 0 1,0 1,0 2 5 -\n", "end\n", "NoStart"),
];

#[test]
fn checks_certificates_of_tracks(rt: HostRuntime) -> Result<(), Fail> {
    let alloc = rt.alloc();
    for (rows, tracks) in &ACCEPTED {
        let said = ["status 0 ok\ncell nand2\ngaps 0\nfewest ", tracks, "\n"];
        let parts = [HEAD, rows, LEMMAS, "end\n"];
        assert!(rt; is_judged(alloc, &parts, Status::Done, &said)?, "{tracks}");
    }
    for (head, rows, lemmas, end, why) in &REFUSED {
        assert!(rt;
            is_refused(alloc, &[head, rows, lemmas, end], why)?,
            "{why}"
        );
    }
    Ok(())
}

// A call that leaves evidence, the file of it, a call that checks this file, and its report.
const CHECKED: [(&str, &str, Status, &str, &str, &str); 4] = [
    (
        MUX,
        "make - c.sp mux2 out --low",
        Status::Done,
        "out.ctrack",
        "check - c.sp mux2 l.clog --low",
        "status 0 ok\ncell mux2\ngaps 2\nfewest 4\n",
    ),
    (
        CROSS,
        "make - c.sp cross out --taps --low",
        Status::Done,
        "out.ctrack",
        "check - c.sp cross l.clog --low",
        "status 0 ok\ncell cross\ngaps 1\nfewest 4\n",
    ),
    (
        RING,
        "make - c.sp ring out --low --trails",
        Status::Cycle,
        "out.ctrack",
        "check - c.sp ring l.clog --low",
        "status 0 ok\ncell ring\ngaps 1\nfewest 6\n",
    ),
    (
        INVERTERS,
        "make - c.sp x3 out --low --trails",
        Status::Done,
        "out.ctrail",
        "check - c.sp x3 l.clog --trails",
        "status 0 ok\ncell x3\ncolumns 3\ngaps 1\nwidth 4\nlemmas 4\nfilled 0\n",
    ),
];

fn is_accepted(
    alloc: Global,
    spice: &str,
    evidence: &[u8],
    words: &str,
    said: &str,
) -> Result<bool, Fail> {
    let given = [("c.sp", spice.as_bytes()), ("l.clog", evidence)];
    let end = End {
        status: Status::Done,
        said: Said::Whole(&[said]),
        files: &[],
    };
    ends(alloc, words, &given, &[], &end)
}

/// Whether the evidence that a call leaves is accepted by another one.
pub fn is_checked(
    alloc: Global,
    [tech, spice]: [&str; 2],
    [make, name, check, said]: [&str; 4],
    status: Status,
) -> Result<bool, Fail> {
    let end = End {
        status,
        said: Said::First("status "),
        files: &[],
    };
    let evidence = made_file(alloc, make, &inputs([tech, spice, ""]), &[], &end, name)?;
    let is = is_accepted(alloc, spice, &evidence, check, said);
    drop(evidence);
    is
}

#[test]
fn makes_accepted_certificates(rt: HostRuntime) -> Result<(), Fail> {
    for (spice, make, status, name, check, said) in &CHECKED {
        assert!(rt;
            is_checked(rt.alloc(), ["", spice], [make, name, check, said], *status)?,
            "{check}"
        );
    }
    Ok(())
}
