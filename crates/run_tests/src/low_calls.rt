// Calls for lowest rows, and how they end. Another program, written after the definitions, listed the rows of each cell
// in order, the fewest tracks of each, and the size.
use crate::calls::{End, Left, Said, ends};
use crate::setup::{inputs, joined};
use cell_run::Status;
use std::alloc::Global;
use std::test::Fail;

/// A call: the technology, the subcircuits, the words, the end, and what it leaves of the log, of the certificate by
/// trails, of that of the tracks, of the drawing and of the abstract.
pub struct Case {
    pub tech: &'static str,
    pub spice: &'static [&'static str],
    pub words: &'static str,
    pub status: Status,
    pub said: Said<'static>,
    pub left: [Left<'static>; 5],
}

pub const NO_FILE: [Left<'static>; 5] = [
    Left::Nothing,
    Left::Nothing,
    Left::Nothing,
    Left::Nothing,
    Left::Nothing,
];

/// The files of a cell, with a log.
pub const CELL: [Left<'static>; 5] = [
    Left::Something,
    Left::Nothing,
    Left::Something,
    Left::Something,
    Left::Something,
];

/// The files of a cell, with a certificate by trails.
pub const TRAIL_CELL: [Left<'static>; 5] = [
    Left::Nothing,
    Left::Something,
    Left::Something,
    Left::Something,
    Left::Something,
];

/// A log and a certificate of tracks.
pub const EVIDENCE: [Left<'static>; 5] = [
    Left::Something,
    Left::Nothing,
    Left::Something,
    Left::Nothing,
    Left::Nothing,
];

/// A log.
pub const LOG: [Left<'static>; 5] = [
    Left::Something,
    Left::Nothing,
    Left::Nothing,
    Left::Nothing,
    Left::Nothing,
];

/// The library of a row.
pub const LIBRARY: [Left<'static>; 5] = [
    Left::Nothing,
    Left::Nothing,
    Left::Nothing,
    Left::Something,
    Left::Nothing,
];

fn is_so(alloc: Global, case: &Case, [tech, spice]: [&str; 2]) -> Result<bool, Fail> {
    let [log, trails, tracks, gds, lef] = case.left;
    let files = [
        ("out.clog", log),
        ("out.ctrail", trails),
        ("out.ctrack", tracks),
        ("out.gds", gds),
        ("out.lef", lef),
    ];
    let end = End {
        status: case.status,
        said: case.said,
        files: &files,
    };
    ends(alloc, case.words, &inputs([tech, spice, ""]), &[], &end)
}

fn ends_so(alloc: Global, case: &Case) -> Result<bool, Fail> {
    let spice = joined(alloc, case.spice)?;
    let is = is_so(alloc, case, [case.tech, spice.as_str()]);
    drop(spice);
    is
}

/// Whether all these calls end so; else the fault has the words of the first that does not.
pub fn all_end(alloc: Global, cases: &[Case]) -> Result<(), Fail> {
    for case in cases {
        if !ends_so(alloc, case)? {
            return Err(Fail::from(case.words));
        }
    }
    Ok(())
}
