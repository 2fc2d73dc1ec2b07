// Ranges of numbers, and what ranges in order join to.
ghost use Rattle.std.specs.Prelude.{◌≡◌, IfOk};
ghost use Rattle.box_geom.specs.Ranges.{meets, wider, join, all_joined};

use std::alloc::{AllocError, Global};

/// The numbers from `x1` to before `x2`.
#[derive(Clone, Copy, Debug, PartialEq, Eq)]
pub struct XRange {
    pub x1: i32,
    pub x2: i32,
}

fn does_meet(current: &XRange, range: &XRange) -> bool
    ensures { result ≡ meets current.now range.now }
{
    range.x1 <= current.x2
}

fn widened(current: &XRange, range: &XRange) -> XRange
    ensures { result ≡ wider current.now range.now }
{
    XRange {
        x1: current.x1,
        x2: current.x2.max(range.x2),
    }
}

fn join_behind(alloc: Global, first: &XRange, rest: &[XRange]) -> Result<Vec<XRange>, AllocError>
    ensures { IfOk result (λ v. v.items ≡ join first.now rest.now) }
{
    let mut out = Vec::new(alloc);
    let mut current = *first;
    for range in rest {
        if does_meet(&current, range) {
            current = widened(&current, range);
        } else {
            out.push(current)?;
            current = *range;
        }
    }
    out.push(current)?;
    Ok(out)
}

// What ranges that stand in order join to.
pub(crate) fn joined(alloc: Global, ranges: &[XRange]) -> Result<Vec<XRange>, AllocError>
    ensures { IfOk result (λ v. v.items ≡ all_joined ranges.now) }
{
    match ranges.split_first() {
        None => Ok(Vec::new(alloc)),
        Some((first, rest)) => join_behind(alloc, first, rest),
    }
}
