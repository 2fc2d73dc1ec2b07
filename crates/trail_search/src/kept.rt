ghost use Rattle.std.specs.Prelude.{◌≡◌, ◌≤◌, ◌<◌, ◌+◌, [], true, false, OnOk, slice_get};
ghost use Rattle.trail_check.specs.Indexed.{IsIndexOf};
ghost use Rattle.trail_check.specs.Justified.{ends_proved, gaps_proved, is_justified, is_known};
ghost use Rattle.trail_check.specs.Listed.{nodes_of};
ghost use Rattle.trail_search.specs.Search.{AreChained, AreKept, IsFurther, IsStateOf, StayAs, StayWithin, lemma_of};
ghost use Rattle.trail_search.specs.Units.{units_at, units_of};

use crate::line::line_of;
use cell_num::{List, NoMemory};
use std::alloc::Global;
use trail_check::{LemmaIndex, TrailLemma, ends_proved, lemma_listed};
use trail_log::LemmaLines;
use trail_state::{Level, TrailState};

/// The lemmas that a search has kept, where they stand, and the lines that list them.
#[derive(Drop)]
pub(crate) struct Kept {
    pub lemmas: List<TrailLemma>,
    pub index: LemmaIndex,
    pub lines: LemmaLines,
}

impl Kept {
    pub(crate) fn new(alloc: Global) -> Kept
        ensures lemmas { result.lemmas ≡ [] }
        ensures lines { result.lines ≡ [] }
        ensures indexed { IsIndexOf [] result.index }
    {
        Kept {
            lemmas: List::new(alloc),
            index: LemmaIndex::new(alloc),
            lines: List::new(alloc),
        }
    }

    /// The gaps that the lemmas prove of every row.
    pub(crate) fn gaps(&self) -> u32
        ensures { result ≡ gaps_proved (ends_proved self.now.lemmas) }
    {
        ends_proved(self.lemmas.as_slice()).saturating_sub(1) / 2
    }

    /// Keeps one lemma more.
    #[tactic(auto, using(crate::proofs::Grown::further_same))]
    pub(crate) fn keep(
        &mut self,
        alloc: Global,
        levels: &List<Level>,
        done: u32,
        state: &TrailState,
        bound: u32,
    ) -> Result<(), NoMemory>
        requires done { done < 32 }
        requires some { 0 < bound }
        requires few { bound ≤ 64 }
        requires chained { AreChained levels.now }
        requires state { IsStateOf (nodes_of (slice_get levels.now done)) state.now }
        requires kept { AreKept levels.now self.old }
        requires new { is_known self.old.lemmas done state.now bound ≡ false }
        requires justified { is_justified levels.now self.old.lemmas (lemma_of done state.now bound) ≡ true }
        ensures further { OnOk result (IsFurther levels.now self.old self.new) }
        ensures known { OnOk result (is_known self.new.lemmas done state.now bound ≡ true) }
        ensures others { OnOk result (StayAs done bound self.old self.new) }
        ensures one { OnOk result (units_of levels.now self.new.lemmas ≡
            units_of levels.now self.old.lemmas + units_at levels.now done) }
        ensures within { OnOk result (StayWithin levels.now done state.now bound self.old self.new) }
    {
        let line = line_of(alloc, done, state.as_slice(), bound)?;
        let lemma = lemma_listed(alloc, levels.as_slice(), &line)?;
        self.index.add(alloc, self.lemmas.as_slice(), &lemma)?;
        self.lines.push(line)?;
        self.lemmas.push(lemma)?;
        Ok(())
    }

    pub(crate) fn knows(&self, done: u32, state: &TrailState, need: u32) -> bool
        requires indexed { IsIndexOf self.now.lemmas self.now.index }
        ensures { result ≡ is_known self.now.lemmas done state.now need }
    {
        self.index
            .knows(self.lemmas.as_slice(), u64::from(done), state, need)
    }
}
