use crate::calls::{End, Said, ends};
use crate::extract::{inverter, says};
use crate::logs::is_rejected;
use crate::setup::{HEAD, LEMMA, LISTED};
use cell_run::Status;
use std::alloc::Global;
use std::test::Fail;

// Lemmas of the log of the three inverters, what follows its end, and the fault.
const LOGS: [(&str, &str, &str); 5] = [
    ("lemma 63 B 0,0,0 0,0,0 - -\n", "", "Unproved line 3"),
    ("lemma 64 P 1,1,1 1,1,1 - -\n", "", "Line line 3"),
    ("lemma 1 P 1,1,2 1,1,1 - -\n", "", "Line line 3"),
    ("lemma 1 P 1,1,1 1,1,0 - -\n", "", "Line line 3"),
    (LEMMA, "\n", "Line line 9"),
];

// The log of the three inverters has eight lines, and its lemma is the third.
#[test]
fn refuses_damaged_logs(rt: HostRuntime) -> Result<(), Fail> {
    for (lemmas, behind, line) in &LOGS {
        assert!(rt;
            is_rejected(rt.alloc(), &[HEAD, lemmas, LISTED, behind], line)?,
            "{line}"
        );
    }
    Ok(())
}

// Whether a subcircuit of `count` times one byte is refused so.
fn is_refused(alloc: Global, byte: u8, count: usize, said: &str) -> Result<bool, Fail> {
    let spice = vec![in alloc; byte; count]?;
    let said = ["status 4 input\nspice ", said];
    let end = End {
        status: Status::Input,
        said: Said::Whole(&said),
        files: &[],
    };
    let is = ends(
        alloc,
        "plan - c.sp inv",
        &[("c.sp", spice.as_slice())],
        &[],
        &end,
    );
    drop(spice);
    is
}

// A byte that is not ASCII, and the longest file of continuations of no line.
#[test]
fn refuses_damaged_subcircuits(rt: HostRuntime) -> Result<(), Fail> {
    assert!(rt; is_refused(rt.alloc(), 128, 1, "NotAscii line 1\n")?);
    assert!(rt; is_refused(rt.alloc(), b'+', 4_194_304, "NoCell\n")?);
    Ok(())
}

fn is_damaged(alloc: Global, file: &[u8], said: &str) -> Result<bool, Fail> {
    says(
        alloc,
        file,
        Status::Layout,
        &["status 9 layout\ngds ", said],
    )
}

// Adds a made cell with one rectangle more than a structure may have: its first one, again and again.
fn add_wide(wide: &mut Vec<u8>, made: &[u8]) -> Result<(), Fail> {
    let (Some(front), Some(rectangle), Some(end)) = (
        made.get(..102),
        made.get(102..166),
        made.get(2114..),
    ) else {
        return Err(Fail::from("no inverter"));
    };
    wide.extend_from_slice(front)?;
    for _ in 0..1_000_001u32 {
        wide.extend_from_slice(rectangle)?;
    }
    Ok(wide.extend_from_slice(end)?)
}

fn is_wide(alloc: Global, made: &[u8]) -> Result<bool, Fail> {
    let mut wide = Vec::new(alloc);
    add_wide(&mut wide, made)?;
    let is = is_damaged(alloc, &wide, "Wide at 64000102\n");
    drop(wide);
    is
}

// It takes a moment as it is built, and some minutes in `rt try`, which wants `--seconds 900` for it.
#[test]
fn refuses_a_wide_structure(rt: HostRuntime) -> Result<(), Fail> {
    let made = inverter(rt.alloc())?;
    let is = is_wide(rt.alloc(), &made);
    drop(made);
    assert!(rt; is?);
    Ok(())
}
