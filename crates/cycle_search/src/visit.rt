ghost use Rattle.std.specs.Prelude.{◌≡◌, ◌≤◌, All, Any, IfErr, IfNone, IfOk, IfSome, OnOk, reverse};
ghost use Rattle.row_state.specs.Candidates.{AreCandidates, IsNumbered};
ghost use Rattle.row_cycles.specs.Above.{HasNets};
ghost use Rattle.row_cycles.specs.Certificate.{Covers};
ghost use Rattle.row_cycles.specs.Fits.{IsWithin};
ghost use Rattle.cycle_search.specs.Below.{IsAsked};
ghost use Rattle.cycle_search.specs.Search.{IsSpent};
ghost use Rattle.cycle_search.specs.Visit.{AreSame, IsFirstFree, IsGrown, IsKept, lemma_at};
ghost use Rattle.cell_num.specs.declared.halt.Halt.TheVariants.{Spent};

use crate::ahead::{Task, add_failed, ends, state_ahead};
use crate::asked::Asked;
use crate::order::in_order;
use crate::progress::Progress;
use cell_num::{Halt, NoMemory};
use row_cycles::{AboveList, CycleLemma, NetAbove, cycles_by_lemmas};
use row_needs::GapBound;
use row_state::{Numbered, Steps};

// The lemma on the state that asks for these pairs, in order.
fn lemma_of<B: GapBound>(
    task: &Task<B>,
    at: &Numbered,
    gaps: u32,
    above: &[NetAbove],
) -> Result<CycleLemma, NoMemory>
    requires numbered { IsNumbered task.now.kinds.now at.now }
    requires gaps { gaps ≤ task.now.gaps }
    requires nets { All (HasNets task.now.kinds.now.nets) above.now }
    ensures is { IfOk result (λ lemma. lemma ≡ lemma_at at.now.state gaps lemma.above) }
    ensures within { IfOk result (IsWithin task.now.kinds.now task.now.gaps) }
    ensures same { IfOk result (λ lemma. AreSame above.now lemma.above) }
{
    task.kinds.show_limits();
    let state = at.state.copied()?;
    let above = in_order(task.alloc, above)?;
    Ok(CycleLemma { state, gaps, above })
}

/// The first completion of the state with at most as many gaps as are allowed whose lines close no cycle with what
/// those before ask for, its last step first, or none: then a kept lemma is about the state.
pub(crate) fn visit<B: GapBound>(
    task: &Task<B>,
    progress: &mut Progress,
    at: &Numbered,
    asked: &Asked,
    allowed: u32,
) -> Result<Option<Steps>, Halt>
    requires candidates { AreCandidates task.now.kinds.now task.now.candidates.now }
    requires numbered { IsNumbered task.now.kinds.now at.now }
    requires asked { IsAsked task.now.kinds.now.nets asked.now }
    requires gaps { allowed ≤ task.now.gaps }
    requires kept { IsKept (B.value task.now.bound.now) task.now.pins.now task.now.kinds.now task.now.gaps
        task.now.budget progress.old }
    ensures kept { OnOk result (IsKept (B.value task.now.bound.now) task.now.pins.now task.now.kinds.now task.now.gaps
        task.now.budget progress.new) }
    ensures grown { OnOk result (IsGrown progress.old progress.new) }
    ensures none { IfOk result (λ r. IfNone r (Any (Covers at.now.state allowed asked.now.pairs)
        progress.new.lemmas)) }
    ensures first { IfOk result (λ r. IfSome r (λ steps. IsFirstFree task.now.pins.now task.now.kinds.now at.now.state
        asked.now.pairs allowed (reverse steps))) }
    ensures spent { IfErr result (λ halt. halt ≡ Spent → IsSpent (B.value task.now.bound.now) task.now.pins.now
        task.now.kinds.now task.now.gaps task.now.budget) }
{
    task.kinds.show_limits();
    task.bound.show_holds();
    cycles_by_lemmas(task.bound);
    // the pairs that the refutations of the next columns need
    let mut need = AboveList::new(task.alloc);
    if ends(task, at, asked, &mut need)? {
        return Ok(Some(Steps::new(task.alloc)));
    }
    for next in task.candidates.as_slice() {
        let known = progress.noted();
        let Some(ahead) = state_ahead(task, &known, at, asked, next, allowed, &mut need)? else {
            continue;
        };
        let tried = match visit(task, progress, &ahead.state, &ahead.asked, ahead.left) {
            Ok(tried) => tried,
            Err(halt) => return Err(halt),
        };
        if let Some(mut rest) = tried {
            rest.push(next.step)?;
            return Ok(Some(rest));
        }
        let grown = progress.noted();
        add_failed(task.alloc, &grown, asked, &ahead, &mut need)?;
    }
    let lemma = lemma_of(task, at, allowed, need.as_slice())?;
    match progress.keep(task, at, lemma) {
        Ok(()) => Ok(None),
        Err(halt) => Err(halt),
    }
}
