ghost use Rattle.std.specs.Prelude.{◌≡◌, ◌<◌, ◌^◌, All, IfOk, length};
ghost use Rattle.end_search.specs.Proof.{IsEndProof, proof_of};
ghost use Rattle.end_search.specs.Reached.{AllFit};

use crate::progress::{Progress, begin, keep};
use crate::visit::{Visited, visit};
use crate::{EndProof, SearchEnd};
use cell_num::NoMemory;
use end_lemmas::EndSteps;
use std::alloc::Global;

/// Steps that begin at a state before the first level.
pub trait StartedSteps: EndSteps {
    ghost start: { Self → Self.State };

    fn start(&self, alloc: Global) -> Result<Self::State, NoMemory>
        ensures { IfOk result (λ s. s ≡ start self.now) };
}

fn proof<S: Drop>(progress: Progress<S>, ends: u32, end: SearchEnd) -> EndProof<S>
    ensures { result ≡ proof_of progress.lemmas ends progress.left end }
{
    EndProof {
        lemmas: progress.lemmas,
        ends,
        end,
        left: progress.left,
    }
}

/// Lemmas that prove how many ends every list of choices results in, from the start state on: as many as prove `gaps`
/// gaps, or the most that can be proved, or what the budget suffices for. A state that is visited takes one unit of it,
/// and one more for each 64 choices of its level. So each lemma took the units of its state. At most one state before
/// each level took units without a lemma.
pub fn search_ends<E: StartedSteps>(
    alloc: Global,
    steps: &E,
    levels: &[E::Level],
    gaps: u16,
    budget: u64,
) -> Result<EndProof<E::State>, NoMemory>
    requires takes { All (E.takes steps.now) levels.now }
    requires few { length levels.now < 2 ^ 32 }
    requires fits { AllFit (E.steps steps.now) levels.now (E.start steps.now) }
    ensures { IfOk result (IsEndProof (E.steps steps.now) levels.now (E.start steps.now) gaps budget) }
{
    let mut progress = begin(alloc, steps, budget);
    let mut ends = 0;
    for limit in 0..u32::from(gaps) {
        let need = 2 * limit + 3;
        let start = steps.start(alloc)?;
        match visit(alloc, steps, levels, &mut progress, 0, &start, need)? {
            Visited::Shown => {}
            Visited::Fewer => return Ok(proof(progress, ends, SearchEnd::Exact)),
            Visited::Spent => return Ok(proof(progress, ends, SearchEnd::Spent)),
        }
        keep(alloc, steps, &mut progress, 0, start, need)?;
        ends = need;
    }
    Ok(proof(progress, ends, SearchEnd::Asked))
}
