ghost use Rattle.std.specs.Prelude.{◌≢◌, All, IfErr, IfOk, List as Sequence};
ghost use Rattle.cell_num.specs.declared.finger.Fingers.{Fingers as FingersOf};
ghost use Rattle.cell_num.specs.declared.net.NetNo.{NetNo as NetNoOf};
ghost use Rattle.cell_num.specs.Fingers.{AreFingers};
ghost use Rattle.open_gates.specs.declared.gates.OpenGates.{OpenGates as OpenGatesOf};
ghost use Rattle.trail_pools.specs.declared.state.PoolState.{PoolState as StateOf};
ghost use Rattle.end_lemmas.specs.declared.lemma.EndLemma.{EndLemma as LemmaOf};
ghost use Rattle.pool_check.specs.Accepted.{IsAccepted};
ghost use Rattle.pool_check.specs.Along.{IsAlong};
ghost use Rattle.pool_check.specs.Refusal.{Refuses};
ghost use Rattle.pool_check.specs.Stepping.{AreFew};
ghost use Rattle.pool_check.specs.declared.refusal.PoolRefusal.TheVariants as refusal;

use crate::order::is_order;
use crate::ways::first_with_many;
use crate::{PoolRefusal, PoolSteps};
use cell_num::{Fingers, List, NetNo};
use end_lemmas::{EndLemma, ends_proved, first_unproved};
use open_gates::OpenGates;
use std::alloc::Global;
use trail_pools::{PoolLevel, PoolState, Pools, levels};

/// What lemmas are checked along: the steps of an order of gates, and its levels.
#[derive(Debug, Drop)]
pub struct PoolOrder {
    pub steps: PoolSteps,
    pub levels: List<PoolLevel>,
}

impl PoolOrder {
    /// The steps and levels of an order that has each gate of a finger once, where half columns of these gates stay
    /// open and none has more than [`MOST_CHOICES`](crate::MOST_CHOICES) ways. Else the first cause to refuse lemmas
    /// along it, whatever they are.
    #[tactic(auto, using(crate::proofs::Told::all_few))]
    pub fn of(
        alloc: Global,
        fingers: &Fingers,
        opened: &OpenGates,
        order: &[NetNo],
    ) -> Result<Self, PoolRefusal>
        requires { AreFingers fingers.now }
        ensures along { IfOk result (IsAlong fingers.now opened.now order.now) }
        ensures refused { IfErr result (λ cause. cause ≢ refusal.NoMemory → (lemmas : Sequence (LemmaOf StateOf))
            → Refuses fingers.now opened.now order.now lemmas cause) }
    {
        if !is_order(fingers, order) {
            return Err(PoolRefusal::Order);
        }
        if let Some(gate) = first_with_many(alloc, fingers, opened, order)? {
            return Err(PoolRefusal::Choices { gate });
        }
        let pools = Pools::of(alloc, fingers, opened)?;
        Ok(PoolOrder {
            steps: PoolSteps { pools },
            levels: levels(alloc, fingers, opened, order)?,
        })
    }

    /// The ends of trails that the lemmas prove of every row, where each is justified by those before it. Else the
    /// first one that is not.
    #[tactic(auto, using(crate::proofs::Told::accepts, crate::proofs::Told::refuses))]
    pub fn check(&self, alloc: Global, lemmas: &[EndLemma<PoolState>]) -> Result<u32, PoolRefusal>
        requires { All (AreFew self.now.steps.pools) self.now.levels }
        ensures accepted { (f : FingersOf) (opened : OpenGatesOf) (order : Sequence NetNoOf)
            → IsAlong f opened order self.now → IfOk result (IsAccepted f opened order lemmas.now) }
        ensures refused { (f : FingersOf) (opened : OpenGatesOf) (order : Sequence NetNoOf)
            → IsAlong f opened order self.now → IfErr result (λ cause. cause ≢ refusal.NoMemory
            → Refuses f opened order lemmas.now cause) }
    {
        match first_unproved(alloc, &self.steps, self.levels.as_slice(), lemmas)? {
            Some(at) => Err(PoolRefusal::Unproved { at }),
            None => Ok(ends_proved(&self.steps, &PoolState::start(alloc), lemmas)),
        }
    }
}
