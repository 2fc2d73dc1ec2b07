ghost use Rattle.std.specs.Prelude.{◌≡◌, ◌+◌, IfOk, length};
ghost use Rattle.cell_num.specs.Fingers.{AreFingers, columns_of};
ghost use Rattle.log_check.specs.Accepted.{WithKinds};
ghost use Rattle.row_search.specs.Ended.{IfUnfinished, IsSolved, IsSpent};
ghost use Rattle.row_search.specs.First.{IsFirstLeast};

use crate::{Found, FoundKept, Stop, StopKept, search_kept};
use bound_log::{Kept, LemmaList, Log};
use cell_num::{Fingers, NoMemory};
use row_state::RowBound;
use std::alloc::Global;

// The kept lemmas, each with its state.
fn unpacked(alloc: Global, kept: &Kept) -> Result<LemmaList, NoMemory>
    ensures { IfOk result (λ lemmas. lemmas ≡ kept.now) }
{
    let mut lemmas = LemmaList::new(alloc);
    for at in 0..kept.len() {
        let mut lemma = kept.room(alloc)?;
        kept.fetch(at, &mut lemma);
        lemmas.push(lemma)?;
    }
    Ok(lemmas)
}

// The same, where the kept ones are not needed any more. They are dropped by a call, whose proof is short.
fn into_lemmas(alloc: Global, kept: Kept) -> Result<LemmaList, NoMemory>
    ensures { IfOk result (λ lemmas. lemmas ≡ kept) }
{
    let lemmas = unpacked(alloc, &kept);
    drop(kept);
    lemmas
}

/// The first least arrangement of the fingers, and a log of the bound's version that proves that none has fewer gaps;
/// or what is proved when the budget of nodes is spent. A node is a visit of a state of which no kept lemma says that
/// it fails.
pub fn search<B: RowBound>(
    alloc: Global,
    fingers: &Fingers,
    bound: &B,
    budget: u64,
) -> Result<Found, Stop>
    requires { AreFingers fingers.now }
    ensures row { IfOk result (λ found. IsFirstLeast fingers.now found.row) }
    ensures solved { IfOk result (λ found.
        WithKinds fingers.now (λ k. IsSolved (B.value bound.now) k fingers.now budget found.row found.log)) }
    ensures version { IfOk result (λ found. found.log.version ≡ B.version_of bound.now) }
    ensures nodes { IfOk result (λ found. found.nodes ≡ length found.log.lemmas + columns_of fingers.now + 1) }
    ensures spent { IfUnfinished result (λ log proved.
        WithKinds fingers.now (λ k. IsSpent (B.value bound.now) k fingers.now budget log proved)) }
    ensures version_spent { IfUnfinished result (λ log proved. log.version ≡ B.version_of bound.now) }
{
    let version = bound.version();
    match search_kept(alloc, fingers, bound, budget) {
        Ok(
            FoundKept {
                row,
                kept,
                best,
                nodes,
            },
        ) => match into_lemmas(alloc, kept) {
            Ok(lemmas) => Ok(Found {
                row,
                log: Log {
                    version,
                    lemmas,
                    best: Some(best),
                },
                nodes,
            }),
            Err(NoMemory) => Err(Stop::NoMemory),
        },
        Err(StopKept::Unfinished { kept, proved }) => {
            let lemmas = into_lemmas(alloc, kept)?;
            Err(Stop::Unfinished {
                log: Log {
                    version,
                    lemmas,
                    best: None,
                },
                proved,
            })
        }
        Err(StopKept::NoMemory) => Err(Stop::NoMemory),
    }
}
