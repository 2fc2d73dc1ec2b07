ghost use Rattle.std.specs.Prelude.{◌≡◌, ◌↔◌, IfOk, IsTrue};
ghost use Rattle.pool_log.specs.declared.lemma.PoolLine.{PoolLine as LineOf};
ghost use Rattle.pool_lines.specs.Listed.{state_listed};
ghost use Rattle.pool_lines.specs.Texts.{IsTextOfState, text_of_state};

use crate::line::line_of;
use crate::listed::state_listed;
use cell_num::NoMemory;
use pool_log::PoolLine;
use std::alloc::Global;
use trail_pools::{PoolLevel, Pools};

fn text_of_state(
    alloc: Global,
    pools: &Pools,
    levels: &[PoolLevel],
    line: &PoolLine,
) -> Result<PoolLine, NoMemory>
    ensures { IfOk result (λ text. text ≡ text_of_state pools.now levels.now line.now) }
{
    let state = state_listed(alloc, pools, levels, line)?;
    let text = line_of(alloc, pools, line.bound, line.done, &state)?;
    Ok(text)
}

/// Whether a line is the text of the state that it lists, where these are the levels of its order. No other line with
/// this bound after as many gates is the text of that state.
#[tactic(auto, using(crate::proofs::Texts::only_text))]
pub fn is_text_of_state(
    alloc: Global,
    pools: &Pools,
    levels: &[PoolLevel],
    line: &PoolLine,
) -> Result<bool, NoMemory>
    ensures is { IfOk result (λ yes. IsTrue yes ↔ IsTextOfState pools.now levels.now line.now) }
    ensures one { IfOk result (λ yes. IsTrue yes → (other : LineOf) → IsTextOfState pools.now levels.now other
        → other.bound ≡ line.now.bound → other.done ≡ line.now.done
        → state_listed pools.now levels.now other ≡ state_listed pools.now levels.now line.now → other ≡ line.now) }
{
    let text = text_of_state(alloc, pools, levels, line)?;
    Ok(text.is_same(line))
}
