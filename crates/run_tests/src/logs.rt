use crate::setup::{INVERTERS, joined, tells};
use cell_run::Status;
use std::alloc::Global;
use std::test::Fail;

/// Whether a log of the three inverters, given by its parts, is rejected so.
pub fn is_rejected(alloc: Global, parts: &[&str], line: &str) -> Result<bool, Fail> {
    let log = joined(alloc, parts)?;
    let is = tells(
        alloc,
        "check - c.sp x3 l.clog",
        ["", INVERTERS, &log],
        Status::Rejected,
        &["status 7 rejected\nlog ", line, "\n"],
    );
    drop(log);
    is
}
