ghost use Rattle.std.specs.Prelude.{◌≢◌, IfErr, IfOk, ℕ};
ghost use Rattle.cell_num.specs.Fingers.{AreFingers};
ghost use Rattle.trail_check.specs.Accepted.{IsLow};
ghost use Rattle.trail_check.specs.Justified.{gaps_proved};
ghost use Rattle.pool_check.specs.Accepted.{AreTrueOf, HasFewWays, IsAccepted, IsNeverAccepted};
ghost use Rattle.pool_check.specs.Refusal.{IsFault, Refuses};
ghost use Rattle.pool_check.specs.declared.refusal.PoolRefusal.TheVariants as refusal;

use crate::{PoolOrder, PoolRefusal};
use cell_num::{Fingers, NetNo};
use end_lemmas::EndLemma;
use open_gates::OpenGates;
use std::alloc::Global;
use trail_pools::PoolState;

/// The ends of trails that the lemmas prove of every row of the fingers, where half columns of these gates stay open
/// and each lemma is justified by those before it. Where that is k ends, no arrangement has fewer than k / 2 - 1 gaps.
/// Else the first cause to refuse the lemmas. A gate with too many ways is no fault of theirs, nor is a lack of memory.
#[tactic(auto, using(crate::proofs::Told::check_rules))]
pub fn check_pools(
    alloc: Global,
    fingers: &Fingers,
    opened: &OpenGates,
    order: &[NetNo],
    lemmas: &[EndLemma<PoolState>],
) -> Result<u32, PoolRefusal>
    requires { AreFingers fingers.now }
    ensures accepted { IfOk result (IsAccepted fingers.now opened.now order.now lemmas.now) }
    ensures refused { IfErr result (λ cause. cause ≢ refusal.NoMemory
        → Refuses fingers.now opened.now order.now lemmas.now cause) }
    ensures few_ways { IfOk result (λ _. HasFewWays fingers.now opened.now order.now) }
    ensures never { IfErr result (λ cause. IsFault cause
        → IsNeverAccepted fingers.now opened.now order.now lemmas.now) }
    ensures law { (ends : ℕ) → IsAccepted fingers.now opened.now order.now lemmas.now ends
        → IsLow fingers.now (gaps_proved ends) }
    ensures lemmas { IfOk result (λ _. AreTrueOf fingers.now opened.now order.now lemmas.now) }
{
    let along = PoolOrder::of(alloc, fingers, opened, order)?;
    along.check(alloc, lemmas)
}
