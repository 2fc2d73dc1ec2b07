use cell_num::NoMemory;
use end_lemmas::{EndSteps, Settled};
use end_search::StartedSteps;
use pool_check::PoolSteps;
use std::alloc::Global;
use trail_halves::OpenChoice;
use trail_pools::{PoolLevel, PoolState};

/// Steps that begin at the state before the first gate.
#[derive(Debug, Drop)]
pub(crate) struct PoolWalk {
    pub steps: PoolSteps,
}

impl EndSteps for PoolWalk {
    ghost use Rattle.trail_pools.specs.Numbered.{state_number};
    ghost use Rattle.pool_check.specs.Stepping.{AreFew, pool_steps};

    type Level = PoolLevel;

    type Choice = OpenChoice;

    type State = PoolState;

    ghost steps = { λ w. pool_steps w.steps.pools };

    ghost takes = { λ w level. AreFew w.steps.pools level };

    ghost number_of = { state_number };

    fn choices<'a>(&self, level: &'a PoolLevel) -> &'a [OpenChoice] {
        self.steps.choices(level)
    }

    fn fits(&self, state: &PoolState) -> bool {
        self.steps.fits(state)
    }

    fn after(
        &self,
        alloc: Global,
        level: &PoolLevel,
        state: &PoolState,
        choice: &OpenChoice,
    ) -> Result<Settled<PoolState>, NoMemory> {
        self.steps.after(alloc, level, state, choice)
    }

    fn is_same(&self, a: &PoolState, b: &PoolState) -> bool {
        self.steps.is_same(a, b)
    }

    fn number(&self, done: u64, state: &PoolState) -> u64 {
        self.steps.number(done, state)
    }
}

impl StartedSteps for PoolWalk {
    ghost use Rattle.trail_pools.specs.State.{start};

    ghost start = { λ w. start };

    fn start(&self, alloc: Global) -> Result<PoolState, NoMemory> {
        Ok(PoolState::start(alloc))
    }
}
