ghost use Rattle.std.specs.Prelude.{◌≡◌, ◌≤◌, ◌↔◌, ◌++◌, ◌∷◌, [], ℕ};
ghost use Rattle.std.specs.Prelude.{Any, IfErr, IfOk, IsTrue, OnOk, Some, length, map, false};
ghost use Rattle.cell_num.specs.declared.finger.Row.{Row as RowOf};
ghost use Rattle.cell_num.specs.declared.net.Pins.{Pins as PinsOf};
ghost use Rattle.row_state.specs.declared.kind.Kinds.{Kinds as KindsOf};
ghost use Rattle.row_state.specs.declared.state.State.{State as StateOf};
ghost use Rattle.row_state.specs.Candidates.{IsNumbered};
ghost use Rattle.row_state.specs.Code.{state_code};
ghost use Rattle.row_state.specs.Start.{IsState};
ghost use Rattle.lemma_check.specs.Noted.{AreNoted};
ghost use Rattle.track_ways.specs.Certificate.{CoversAll, NeedsMore};
ghost use Rattle.track_search.specs.Bare.{IsFrom, IsNoted, IsShut, known_at};
ghost use Rattle.track_search.specs.Uncrowded.{HasUncrowded};
ghost use Rattle.track_search.specs.Visit.{IsCutOff, kept_at};
ghost use Rattle.cell_num.specs.declared.halt.Halt.TheVariants.{Spent};

use crate::ahead::Task;
use crate::by_state::{ByState, note};
use crate::known::{Known, is_from, is_up_to, needs_more};
use crate::order::kept_at;
use cell_num::{Halt, NoMemory};
use lemma_check::RowTrails;
use row_cycles::Places;
use row_state::{Numbered, RowBound};
use std::alloc::Global;
use track_check::NotedLemmas;
use track_ways::{NetTracks, TrackLemmas};

/// What a search knows so far: the lemmas that it kept, and what makes it quick.
#[derive(Drop)]
pub(crate) struct Progress {
    pub lemmas: TrackLemmas,
    places: Places,
    known: ByState,
}

impl Progress {
    /// No lemma is kept.
    pub(crate) fn new(alloc: Global) -> Progress
        ensures lemmas { result.lemmas ≡ [] }
        ensures noted { (value : RowOf → StateOf → KindsOf → ℕ) (pins : PinsOf) (limit : ℕ) (k : KindsOf)
            → IsNoted value pins limit k result }
    {
        Progress {
            lemmas: TrackLemmas::new(alloc),
            places: Places::new(alloc),
            known: ByState::new(alloc),
        }
    }

    /// The lemmas, to be looked up by their state.
    pub(crate) fn noted(&self) -> NotedLemmas<'_>
        ensures lemmas { result.lemmas.now ≡ self.now.lemmas }
        ensures places { result.places.now ≡ self.now.places }
    {
        NotedLemmas {
            lemmas: self.lemmas.as_slice(),
            places: &self.places,
        }
    }

    /// Whether a kept lemma without tracks is about the state and as many gaps.
    pub(crate) fn is_closed<B: RowBound>(&self, task: &Task<B>, at: &Numbered, gaps: u32) -> bool
        requires numbered { IsNumbered task.now.kinds.now at.now }
        requires noted { IsNoted (B.value task.now.bound.now) task.now.pins.now task.now.limit task.now.kinds.now
            self.now }
        ensures { IsTrue result ↔ Any (CoversAll at.now.state gaps) self.now.lemmas }
    {
        is_up_to(self.known.at(at.code).closed, gaps)
    }

    /// Whether it is known that the state with the number needs more gaps by the bounds of its rows, or a kept lemma
    /// without tracks is about it and as many gaps.
    pub(crate) fn is_shut<B: RowBound>(&self, task: &Task<B>, number: u128, gaps: u32) -> bool
        requires noted { IsNoted (B.value task.now.bound.now) task.now.pins.now task.now.limit task.now.kinds.now
            self.now }
        ensures yes { (s : StateOf) → IsState task.now.kinds.now s → number ≡ state_code task.now.kinds.now s
            → IsTrue result → IsShut (B.value task.now.bound.now) task.now.kinds.now self.now.lemmas s gaps }
        ensures no { (s : StateOf) → IsState task.now.kinds.now s → number ≡ state_code task.now.kinds.now s
            → result ≡ false → Any (CoversAll s gaps) self.now.lemmas → ⊥ }
    {
        let known = self.known.at(number);
        is_up_to(known.closed, gaps) || is_up_to(known.too_few, gaps)
    }

    /// Whether the state needs more gaps by the bounds of its rows. Where it does, it is noted that these are too few.
    pub(crate) fn needs_more<B: RowBound>(
        &mut self,
        task: &Task<B>,
        trails: &mut RowTrails,
        at: &Numbered,
        gaps: u32,
    ) -> Result<bool, NoMemory>
        requires numbered { IsNumbered task.now.kinds.now at.now }
        requires noted { IsNoted (B.value task.now.bound.now) task.now.pins.now task.now.limit task.now.kinds.now
            self.old }
        requires trails { AreNoted (B.trails_of task.now.bound.now) task.now.kinds.now trails.old }
        ensures trails { AreNoted (B.trails_of task.now.bound.now) task.now.kinds.now trails.new }
        ensures more { IfOk result (λ more. IsTrue more ↔ NeedsMore (B.value task.now.bound.now) task.now.kinds.now
            at.now.state gaps) }
        ensures lemmas { self.new.lemmas ≡ self.old.lemmas }
        ensures noted { OnOk result (IsNoted (B.value task.now.bound.now) task.now.pins.now task.now.limit
            task.now.kinds.now self.new) }
    {
        let more = needs_more(task, trails, &at.state, gaps)?;
        if !more {
            return Ok(false);
        }
        let here = self.known.at(at.code);
        let too_few = Some(gaps);
        self.known.set(at.code, Known { too_few, ..here })?;
        Ok(true)
    }

    /// Whether the state is known to have a completion without a crowded line, with that many gaps.
    pub(crate) fn is_free<B: RowBound>(&self, task: &Task<B>, at: &Numbered, gaps: u32) -> bool
        requires numbered { IsNumbered task.now.kinds.now at.now }
        requires noted { IsNoted (B.value task.now.bound.now) task.now.pins.now task.now.limit task.now.kinds.now
            self.now }
        ensures is { IsTrue result ↔ IsFrom (known_at self.now.known at.now.code).free gaps }
        ensures free { IsTrue result → HasUncrowded task.now.pins.now task.now.limit task.now.kinds.now at.now.state
            gaps }
    {
        is_from(self.known.at(at.code).free, gaps)
    }

    /// Notes that the state has a completion without a crowded line with that many gaps.
    pub(crate) fn note_free<B: RowBound>(
        &mut self,
        task: &Task<B>,
        at: &Numbered,
        gaps: u32,
    ) -> Result<(), NoMemory>
        requires numbered { IsNumbered task.now.kinds.now at.now }
        requires noted { IsNoted (B.value task.now.bound.now) task.now.pins.now task.now.limit task.now.kinds.now
            self.old }
        requires free { HasUncrowded task.now.pins.now task.now.limit task.now.kinds.now at.now.state gaps }
        ensures lemmas { self.new.lemmas ≡ self.old.lemmas }
        ensures free { OnOk result ((known_at self.new.known at.now.code).free ≡ Some gaps) }
        ensures noted { OnOk result (IsNoted (B.value task.now.bound.now) task.now.pins.now task.now.limit
            task.now.kinds.now self.new) }
    {
        let here = self.known.at(at.code);
        let free = Some(gaps);
        self.known.set(at.code, Known { free, ..here })?;
        Ok(())
    }

    // One lemma more.
    fn add<B: RowBound>(
        &mut self,
        task: &Task<B>,
        at: &Numbered,
        gaps: u32,
        way: &NetTracks,
    ) -> Result<(), NoMemory>
        requires numbered { IsNumbered task.now.kinds.now at.now }
        requires noted { IsNoted (B.value task.now.bound.now) task.now.pins.now task.now.limit task.now.kinds.now
            self.old }
        ensures lemmas { OnOk result (self.new.lemmas
            ≡ self.old.lemmas ++ kept_at task.now.kinds.now.nets at.now.state gaps way.now ∷ []) }
        ensures noted { OnOk result (IsNoted (B.value task.now.bound.now) task.now.pins.now task.now.limit
            task.now.kinds.now self.new) }
    {
        let kinds = task.kinds;
        let lemma = kept_at(task.alloc, kinds.nets, &at.state, gaps, way)?;
        note(&mut self.known, at.code, &lemma)?;
        self.places.add(task.alloc, at.code, self.lemmas.len())?;
        self.lemmas.push(lemma)?;
        Ok(())
    }

    /// Keeps a lemma for the way. The budget is spent where there is then one lemma too many.
    pub(crate) fn keep_one<B: RowBound>(
        &mut self,
        task: &Task<B>,
        at: &Numbered,
        gaps: u32,
        way: &NetTracks,
    ) -> Result<(), Halt>
        requires numbered { IsNumbered task.now.kinds.now at.now }
        requires noted { IsNoted (B.value task.now.bound.now) task.now.pins.now task.now.limit task.now.kinds.now
            self.old }
        ensures lemmas { OnOk result (self.new.lemmas
            ≡ self.old.lemmas ++ kept_at task.now.kinds.now.nets at.now.state gaps way.now ∷ []) }
        ensures noted { OnOk result (IsNoted (B.value task.now.bound.now) task.now.pins.now task.now.limit
            task.now.kinds.now self.new) }
        ensures few { OnOk result (length self.new.lemmas ≤ task.now.budget) }
        ensures spent { IfErr result (λ halt. halt ≡ Spent → IsCutOff task.now.budget (self.old.lemmas
            ++ kept_at task.now.kinds.now.nets at.now.state gaps way.now ∷ []) self.new.lemmas) }
    {
        self.add(task, at, gaps, way)?;
        if task.budget < self.lemmas.len() as u64 {
            return Err(Halt::Spent);
        }
        Ok(())
    }

    /// Keeps a lemma for each of the ways.
    pub(crate) fn keep<B: RowBound>(
        &mut self,
        task: &Task<B>,
        at: &Numbered,
        gaps: u32,
        ways: &[NetTracks],
    ) -> Result<(), Halt>
        requires numbered { IsNumbered task.now.kinds.now at.now }
        requires noted { IsNoted (B.value task.now.bound.now) task.now.pins.now task.now.limit task.now.kinds.now
            self.old }
        requires few { length self.old.lemmas ≤ task.now.budget }
        ensures lemmas { OnOk result (self.new.lemmas
            ≡ self.old.lemmas ++ map (kept_at task.now.kinds.now.nets at.now.state gaps) ways.now) }
        ensures noted { OnOk result (IsNoted (B.value task.now.bound.now) task.now.pins.now task.now.limit
            task.now.kinds.now self.new) }
        ensures few { OnOk result (length self.new.lemmas ≤ task.now.budget) }
        ensures spent { IfErr result (λ halt. halt ≡ Spent → IsCutOff task.now.budget (self.old.lemmas
            ++ map (kept_at task.now.kinds.now.nets at.now.state gaps) ways.now) self.new.lemmas) }
    {
        for way in ways {
            match self.keep_one(task, at, gaps, way) {
                Ok(()) => {}
                Err(halt) => return Err(halt),
            }
        }
        Ok(())
    }
}
