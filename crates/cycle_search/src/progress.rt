ghost use Rattle.std.specs.Prelude.{◌≡◌, ◌↔◌, ◌++◌, ◌∷◌, [], Any, IfErr, IsTrue, OnOk};
ghost use Rattle.row_state.specs.declared.kind.Kinds.{Kinds as KindsOf};
ghost use Rattle.row_state.specs.Candidates.{IsNumbered};
ghost use Rattle.row_cycles.specs.Certificate.{Covers, IsJustified};
ghost use Rattle.row_cycles.specs.Fits.{IsWithin};
ghost use Rattle.row_cycles.specs.Noted.{AreNoted};
ghost use Rattle.cycle_search.specs.Search.{IsSpent};
ghost use Rattle.cycle_search.specs.Visit.{IsGrown, IsKept};
ghost use Rattle.cell_num.specs.declared.halt.Halt.TheVariants.{Spent};

use crate::ahead::Task;
use cell_num::{Halt, NoMemory};
use row_cycles::{CycleLemma, CycleLemmas, NotedCycles, Places};
use row_needs::GapBound;
use row_state::Numbered;
use std::alloc::Global;

/// What a search knows so far: the lemmas that it kept, and where those on each state are.
#[derive(Drop)]
pub(crate) struct Progress {
    pub lemmas: CycleLemmas,
    places: Places,
}

impl Progress {
    /// No lemma is kept.
    pub(crate) fn new(alloc: Global) -> Progress
        ensures lemmas { result.lemmas ≡ [] }
        ensures noted { (k : KindsOf) → AreNoted k result.lemmas result.places }
    {
        Progress {
            lemmas: CycleLemmas::new(alloc),
            places: Places::new(alloc),
        }
    }

    /// The lemmas, to be looked up by their state.
    pub(crate) fn noted(&self) -> NotedCycles<'_>
        ensures lemmas { result.lemmas.now ≡ self.now.lemmas }
        ensures places { result.places.now ≡ self.now.places }
    {
        NotedCycles {
            lemmas: self.lemmas.as_slice(),
            places: &self.places,
        }
    }

    // Whether an earlier lemma says as much.
    fn is_idle<B: GapBound>(&self, task: &Task<B>, at: &Numbered, lemma: &CycleLemma) -> bool
        requires numbered { IsNumbered task.now.kinds.now at.now }
        requires within { IsWithin task.now.kinds.now task.now.gaps lemma.now }
        requires noted { AreNoted task.now.kinds.now self.now.lemmas self.now.places }
        ensures { IsTrue result ↔ Any (Covers at.now.state lemma.now.gaps lemma.now.above) self.now.lemmas }
    {
        task.kinds.show_limits();
        let known = self.noted();
        known.covers(at, lemma.gaps, lemma.above.as_slice())
    }

    // One lemma more.
    fn add(&mut self, alloc: Global, at: &Numbered, lemma: CycleLemma) -> Result<(), NoMemory>
        ensures lemmas { OnOk result (self.new.lemmas ≡ self.old.lemmas ++ lemma ∷ []) }
        ensures noted { OnOk result ((k : KindsOf) → IsNumbered k at.now → lemma.state ≡ at.now.state
            → AreNoted k self.old.lemmas self.old.places → AreNoted k self.new.lemmas self.new.places) }
    {
        self.places.add(alloc, at.code, self.lemmas.len())?;
        self.lemmas.push(lemma)?;
        Ok(())
    }

    /// Keeps the lemma, but where it follows from an earlier one. The budget is spent where there is then one lemma too
    /// many.
    pub(crate) fn keep<B: GapBound>(
        &mut self,
        task: &Task<B>,
        at: &Numbered,
        lemma: CycleLemma,
    ) -> Result<(), Halt>
        requires numbered { IsNumbered task.now.kinds.now at.now }
        requires state { lemma.state ≡ at.now.state }
        requires within { IsWithin task.now.kinds.now task.now.gaps lemma }
        requires justified { IsJustified (B.value task.now.bound.now) task.now.pins.now task.now.kinds.now
            self.old.lemmas lemma }
        requires kept { IsKept (B.value task.now.bound.now) task.now.pins.now task.now.kinds.now task.now.gaps
            task.now.budget self.old }
        ensures kept { OnOk result (IsKept (B.value task.now.bound.now) task.now.pins.now task.now.kinds.now
            task.now.gaps task.now.budget self.new) }
        ensures grown { OnOk result (IsGrown self.old self.new) }
        ensures covered { OnOk result (Any (Covers at.now.state lemma.gaps lemma.above) self.new.lemmas) }
        ensures spent { IfErr result (λ halt. halt ≡ Spent → IsSpent (B.value task.now.bound.now) task.now.pins.now
            task.now.kinds.now task.now.gaps task.now.budget) }
    {
        if self.is_idle(task, at, &lemma) {
            return Ok(());
        }
        self.add(task.alloc, at, lemma)?;
        if task.budget < self.lemmas.len() as u64 {
            return Err(Halt::Spent);
        }
        Ok(())
    }
}
