ghost use Rattle.std.specs.Prelude.{◌≡◌};
ghost use Rattle.pool_check.specs.Same.{is_same};

use cell_num::NoMemory;
use end_lemmas::{EndSteps, Settled};
use std::alloc::Global;
use trail_halves::OpenChoice;
use trail_pools::{PoolLevel, PoolState, Pools, after};

/// The steps of states along an order of gates whose half columns stay open.
#[derive(Debug, Drop)]
pub struct PoolSteps {
    /// The pools of these gates.
    pub pools: Pools,
}

fn is_same(a: &PoolState, b: &PoolState) -> bool
    ensures { result ≡ is_same a.now b.now }
{
    a == b
}

impl EndSteps for PoolSteps {
    ghost use Rattle.trail_pools.specs.Numbered.{state_number};
    ghost use Rattle.pool_check.specs.Stepping.{AreFew, pool_steps};

    type Level = PoolLevel;

    type Choice = OpenChoice;

    type State = PoolState;

    ghost steps = { λ s. pool_steps s.pools };

    ghost takes = { λ s level. AreFew s.pools level };

    ghost number_of = { state_number };

    fn choices<'a>(&self, level: &'a PoolLevel) -> &'a [OpenChoice] {
        level.choices.as_slice()
    }

    fn fits(&self, state: &PoolState) -> bool {
        state.are_small()
    }

    fn after(
        &self,
        alloc: Global,
        level: &PoolLevel,
        state: &PoolState,
        choice: &OpenChoice,
    ) -> Result<Settled<PoolState>, NoMemory> {
        let settled = after(alloc, &self.pools, level, state, choice)?;
        Ok(Settled {
            state: settled.state,
            ends: settled.ends,
        })
    }

    #[tactic(auto, using(crate::proofs::Same::same_decides))]
    fn is_same(&self, a: &PoolState, b: &PoolState) -> bool {
        is_same(a, b)
    }

    fn number(&self, done: u64, state: &PoolState) -> u64 {
        state.number(done)
    }
}
