// The lemmas of a search along an order of the gates.
ghost use Rattle.std.specs.Prelude.{◌≡◌, All, IfOk};
ghost use Rattle.cell_num.specs.Fingers.{AreFingers};
ghost use Rattle.end_lemmas.specs.Justified.{AreJustified};
ghost use Rattle.pool_check.specs.Along.{IsAlong};
ghost use Rattle.pool_check.specs.Stepping.{AreFew, pool_steps};
ghost use Rattle.pool_trails.specs.Found.{IsPrunedProof, IsFoundAlong};
ghost use Rattle.pool_trails.specs.Inner.{ArePoolGates};
ghost use Rattle.pool_trails.specs.Opening.{opened_of};

use crate::gates::PoolGates;
use cell_num::{Fingers, NoMemory};
use end_prune::pruned;
use end_search::EndProof;
use pool_check::PoolOrder;
use pool_search::search_pools;
use std::alloc::Global;
use trail_pools::PoolState;

/// No row has more gaps.
const MOST_GAPS: u16 = 31;

// The same without the lemmas that nothing rests on.
fn without_unused(
    alloc: Global,
    along: &PoolOrder,
    whole: EndProof<PoolState>,
) -> Result<EndProof<PoolState>, NoMemory>
    requires few { All (AreFew along.now.steps.pools) along.now.levels }
    requires justified { AreJustified (pool_steps along.now.steps.pools) along.now.levels whole.lemmas }
    ensures { IfOk result (IsPrunedProof (pool_steps along.now.steps.pools) along.now.levels whole) }
{
    let EndProof {
        lemmas,
        ends,
        end,
        left,
    } = whole;
    let start = PoolState::start(alloc);
    let lemmas = pruned(alloc, &along.steps, along.levels.as_slice(), &start, lemmas)?;
    Ok(EndProof {
        lemmas,
        ends,
        end,
        left,
    })
}

/// Lemmas along the order, for as many gaps as a row can have, within the budget.
#[tactic(auto, using(crate::proofs::Rules::search_rules))]
pub(crate) fn lemmas_along(
    alloc: Global,
    fingers: &Fingers,
    gates: &PoolGates,
    along: &PoolOrder,
    budget: u64,
) -> Result<EndProof<PoolState>, NoMemory>
    requires fingers { AreFingers fingers.now }
    requires gates { ArePoolGates fingers.now gates.now }
    requires along { IsAlong fingers.now (opened_of gates.now.opening fingers.now gates.now.order) gates.now.order
        along.now }
    ensures { IfOk result (IsFoundAlong gates.now.opening fingers.now gates.now.order budget) }
{
    let order = gates.order.as_slice();
    let whole = search_pools(alloc, fingers, &gates.opened, order, MOST_GAPS, budget)?;
    without_unused(alloc, along, whole)
}
