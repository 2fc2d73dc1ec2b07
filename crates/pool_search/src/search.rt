ghost use Rattle.std.specs.Prelude.{◌≢◌, ◌≤◌, ◌<◌, IfOk, length};
ghost use Rattle.cell_num.specs.Fingers.{AreFingers};
ghost use Rattle.trail_pools.specs.Leveled.{levels_of};
ghost use Rattle.trail_pools.specs.State.{start};
ghost use Rattle.trail_state.specs.Levels.{IsOrder};
ghost use Rattle.pool_check.specs.Accepted.{IsAccepted};
ghost use Rattle.pool_check.specs.Stepping.{steps_of};
ghost use Rattle.end_search.specs.declared.proof.SearchEnd.TheVariants as ended;
ghost use Rattle.end_search.specs.Proof.{IsEndProof};
ghost use Rattle.end_enough.specs.Enough.{enough_of};

use crate::walk::PoolWalk;
use cell_num::{Fingers, NetNo, NoMemory};
use end_search::{EndProof, search_ends};
use open_gates::OpenGates;
use pool_check::PoolSteps;
use std::alloc::Global;
use trail_pools::{PoolState, Pools, levels};

/// Lemmas that prove how many ends of trails every row has, where half columns of these gates stay open, along an order
/// of at most 256 gates: as many as prove `gaps` gaps, or the most that can be proved along this order, or what the
/// budget suffices for. All open choices of each gate are listed, so ask `first_with_many` of pool_check first.
#[tactic(auto, using(crate::proofs::Small::search_rules))]
pub fn search_pools(
    alloc: Global,
    fingers: &Fingers,
    opened: &OpenGates,
    order: &[NetNo],
    gaps: u16,
    budget: u64,
) -> Result<EndProof<PoolState>, NoMemory>
    requires fingers { AreFingers fingers.now }
    requires few { length order.now ≤ 256 }
    ensures proof { IfOk result (IsEndProof (steps_of fingers.now opened.now)
        (levels_of fingers.now opened.now order.now) start gaps budget) }
    // where the order has each gate of a finger once, `check_pools` of pool_check accepts them with these ends
    ensures accepted { IsOrder fingers.now order.now → IfOk result (λ proof.
        IsAccepted fingers.now opened.now order.now proof.lemmas proof.ends) }
    // a budget that is more than enough is not spent
    ensures enough { enough_of (steps_of fingers.now opened.now) (levels_of fingers.now opened.now order.now) start gaps
        < budget → IfOk result (λ proof. proof.end ≢ ended.Spent) }
{
    let pools = Pools::of(alloc, fingers, opened)?;
    let walk = PoolWalk {
        steps: PoolSteps { pools },
    };
    let levels = levels(alloc, fingers, opened, order)?;
    let proof = search_ends(alloc, &walk, levels.as_slice(), gaps, budget)?;
    Ok(proof)
}
