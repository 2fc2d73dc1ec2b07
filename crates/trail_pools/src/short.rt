// Whether a gate has more ways to pair its first fingers than are to be listed.
ghost use Rattle.std.specs.Prelude.{◌≡◌, true, false, ltb, IfNone, IfOk, IfSome, length};
ghost use Rattle.trail_pools.specs.Choices.{first_front, is_long_front, next_front};

use crate::front::{add_beside, first_front};
use cell_num::{NoMemory, Row};
use indexmap::IndexSet;
use std::alloc::Global;
use trail_halves::OpenChoice;
use trail_state::edge::FingerEnds;

// The next front, where it has at most `most` ways. It stops at one more.
#[tactic(auto, using(crate::proofs::LongFronts::none_short))]
fn next_short(
    alloc: Global,
    row: Row,
    front: &[OpenChoice],
    y: FingerEnds,
    most: usize,
) -> Result<Option<IndexSet<OpenChoice>>, NoMemory>
    ensures is { IfOk result (λ o. IfSome o (λ all. all.keys ≡ next_front row front.now y)) }
    ensures few { IfOk result (λ o. IfSome o (λ _. ltb most (length (next_front row front.now y)) ≡ false)) }
    ensures many { IfOk result (λ o. IfNone o (ltb most (length (next_front row front.now y)) ≡ true)) }
{
    let mut all = IndexSet::new(alloc);
    for choice in front {
        add_beside(alloc, &mut all, row, y, choice)?;
        if most < all.len() {
            return Ok(None);
        }
    }
    Ok(Some(all))
}

/// Whether after one of these fingers of the other row there are more than `most` ways. It takes memory for `most` of
/// them, and those with one finger more of one of them.
#[tactic(auto, using(crate::proofs::LongFronts::long_front_rules))]
pub(crate) fn is_long_front(
    alloc: Global,
    row: Row,
    xs: &[FingerEnds],
    ys: &[FingerEnds],
    most: usize,
) -> Result<bool, NoMemory>
    ensures { IfOk result (λ long. long ≡ is_long_front most row (first_front xs.now) ys.now) }
{
    let mut front = first_front(alloc, xs)?;
    for y in ys {
        match next_short(alloc, row, front.as_slice(), *y, most)? {
            Some(next) => front = next,
            None => return Ok(true),
        }
    }
    Ok(false)
}
