ghost use Rattle.std.specs.Prelude.{◌≡◌, ◌≢◌, ◌≤◌, ◌<◌, ◌+◌, ◌∷◌, [], All, IfErr, IfOk, List as Sequence, OnErr, OnOk};
ghost use Rattle.cell_num.specs.Fingers.{AreFingers};
ghost use Rattle.row_model.specs.declared.column.Column.{Column};
ghost use Rattle.row_model.specs.Arrangement.{IsArrangement};
ghost use Rattle.row_model.specs.Gaps.{gaps_of};
ghost use Rattle.row_state.specs.Start.{IsState};
ghost use Rattle.log_check.specs.Accepted.{IsAccepted, IsTrueOf, Lists, WithKinds};
ghost use Rattle.log_check.specs.Items.{ForSeen, HasSeen, empty_log, with_columns, with_gaps, with_lemmas};
ghost use Rattle.log_check.specs.declared.refused.Refused.TheVariants as because;
ghost use Rattle.log_check.specs.Refusal.{Proves, Refuses};

use crate::{Refused, Seen};
use bound_log::{Best, Lemma, LogStep};
use cell_num::{Fingers, MOST_BYTES, NoMemory};
use lemma_check::RowTrails;
use row_state::RowBound;
use std::alloc::Global;
use std::marker::Model;

/// A log of the bound's version, checked item by item in the order of its lines: each lemma, then the gaps said
/// and each column.
#[derive(Drop)]
pub struct Checker<B: RowBound + Drop> {
    alloc: Global,
    seen: Seen,
    bound: B,
    // By the bound, for the kinds of the fingers.
    trails: RowTrails,
}

impl<B: RowBound + Drop> Model for Checker<B> {
    ghost use Rattle.lemma_check.specs.Noted.{AreNoted};
    ghost use Rattle.log_check.specs.Items.{Checking};

    ghost Value = { Checking B };

    ghost view = { λ c. record { seen = c.seen; bound = c.bound } };

    ghost invariant = { λ c. AreNoted (B.trails_of c.bound) c.seen.kinds c.trails };
}

impl<B: RowBound + Drop> Checker<B> {
    /// A checker of logs for the fingers, before the first item.
    pub fn new(alloc: Global, fingers: &Fingers, bound: B) -> Result<Checker<B>, NoMemory>
        requires fingers { AreFingers fingers.now }
        ensures fingers { IfOk result (λ c. c.seen.fingers ≡ fingers.now) }
        ensures bound { IfOk result (λ c. c.bound ≡ bound) }
        ensures version { IfOk result (λ c. c.seen.version ≡ B.version_of bound) }
        ensures count { IfOk result (λ c. c.seen.lemmas ≡ 0) }
        ensures seen { IfOk result (λ c. HasSeen (B.value bound) c.seen (empty_log (B.version_of bound))) }
    {
        let version = bound.version();
        Ok(Checker {
            alloc,
            seen: Seen::new(alloc, fingers, version)?,
            bound,
            trails: RowTrails::new(alloc),
        })
    }

    /// A log of this bound's version begins: nothing of it has come. It takes no memory.
    pub fn begin(&mut self, bound: B)
        ensures fingers { self.new.seen.fingers ≡ self.old.seen.fingers }
        ensures bound { self.new.bound ≡ bound }
        ensures version { self.new.seen.version ≡ B.version_of bound }
        ensures count { self.new.seen.lemmas ≡ 0 }
        ensures seen { HasSeen (B.value bound) self.new.seen (empty_log (B.version_of bound)) }
    {
        self.seen.begin(bound.version());
        self.trails = RowTrails::new(self.alloc);
        self.bound = bound;
    }

    /// How many lemmas came.
    pub fn count(&self) -> u32
        ensures { result ≡ self.now.seen.lemmas }
    {
        self.seen.count()
    }

    /// One lemma more; at most [`MOST_BYTES`] in all. After NoMemory the checker is as before.
    pub fn lemma(&mut self, lemma: &Lemma) -> Result<(), NoMemory>
        requires few { self.old.seen.lemmas < MOST_BYTES }
        ensures fingers { self.new.seen.fingers ≡ self.old.seen.fingers }
        ensures bound { self.new.bound ≡ self.old.bound }
        ensures version { self.new.seen.version ≡ self.old.seen.version }
        ensures count { OnOk result (self.new.seen.lemmas ≡ self.old.seen.lemmas + 1) }
        ensures seen { OnOk result (ForSeen (B.value self.old.bound) self.old.seen (λ log.
            HasSeen (B.value self.old.bound) self.new.seen (with_lemmas log (lemma.now ∷ [])))) }
        ensures unchanged { OnErr result (self.new ≡ self.old) }
    {
        self.seen.lemma(&self.bound, &mut self.trails, lemma)?;
        Ok(())
    }

    /// One lemma more, of which the caller knows that its state is valid; at most [`MOST_BYTES`] in all. After
    /// NoMemory the checker is as before.
    pub fn valid_lemma(&mut self, lemma: Lemma) -> Result<(), NoMemory>
        requires few { self.old.seen.lemmas < MOST_BYTES }
        requires state { WithKinds self.old.seen.fingers (λ k. IsState k lemma.state) }
        ensures fingers { self.new.seen.fingers ≡ self.old.seen.fingers }
        ensures bound { self.new.bound ≡ self.old.bound }
        ensures version { self.new.seen.version ≡ self.old.seen.version }
        ensures count { OnOk result (self.new.seen.lemmas ≡ self.old.seen.lemmas + 1) }
        ensures seen { OnOk result (ForSeen (B.value self.old.bound) self.old.seen (λ log.
            HasSeen (B.value self.old.bound) self.new.seen (with_lemmas log (lemma ∷ [])))) }
        ensures unchanged { OnErr result (self.new ≡ self.old) }
    {
        self.seen.valid_lemma(&self.bound, &mut self.trails, lemma)?;
        Ok(())
    }

    /// The gaps that the log says of the row whose columns follow.
    pub fn gaps(&mut self, said: u32)
        ensures fingers { self.new.seen.fingers ≡ self.old.seen.fingers }
        ensures bound { self.new.bound ≡ self.old.bound }
        ensures version { self.new.seen.version ≡ self.old.seen.version }
        ensures count { self.new.seen.lemmas ≡ self.old.seen.lemmas }
        ensures seen { ForSeen (B.value self.old.bound) self.old.seen (λ log.
            HasSeen (B.value self.old.bound) self.new.seen (with_gaps log said)) }
    {
        self.seen.gaps(said);
    }

    /// One column more of the row whose gaps were said; where none were, it counts for nothing. After
    /// NoMemory the checker is as before.
    pub fn column(&mut self, step: &LogStep) -> Result<(), NoMemory>
        ensures fingers { self.new.seen.fingers ≡ self.old.seen.fingers }
        ensures bound { self.new.bound ≡ self.old.bound }
        ensures version { self.new.seen.version ≡ self.old.seen.version }
        ensures count { self.new.seen.lemmas ≡ self.old.seen.lemmas }
        ensures seen { OnOk result (ForSeen (B.value self.old.bound) self.old.seen (λ log.
            HasSeen (B.value self.old.bound) self.new.seen (with_columns log (step.now ∷ [])))) }
        ensures unchanged { OnErr result (self.new ≡ self.old) }
    {
        self.seen.column(step)?;
        Ok(())
    }

    /// The gaps that were said of a row, and its columns; None where no gaps were said.
    pub fn row(&self) -> &Option<Best>
        ensures { result.now ≡ self.now.seen.row }
    {
        self.seen.row()
    }

    /// The gaps of the row that the log certifies, where the log of the items is accepted: no arrangement
    /// of the fingers has fewer. Else the first cause to refuse it.
    pub fn finish(&self, alloc: Global) -> Result<u32, Refused>
        ensures accepted { IfOk result (λ gaps. ForSeen (B.value self.now.bound) self.now.seen (λ log.
            WithKinds self.now.seen.fingers (λ k.
            IsAccepted (B.value self.now.bound) k self.now.seen.fingers log gaps))) }
        ensures refused { IfErr result (λ fault. fault ≢ because.NoMemory →
            ForSeen (B.value self.now.bound) self.now.seen (λ log. WithKinds self.now.seen.fingers (λ k.
            Refuses (B.value self.now.bound) k self.now.seen.fingers log fault))) }
        ensures arranges { IfOk result (λ gaps. ForSeen (B.value self.now.bound) self.now.seen (λ log.
            WithKinds self.now.seen.fingers (λ k.
            Lists k log.best (λ row. IsArrangement row self.now.seen.fingers × (gaps ≡ gaps_of row))))) }
        ensures least { IfOk result (λ gaps. ForSeen (B.value self.now.bound) self.now.seen (λ log.
            (other : Sequence Column) → IsArrangement other self.now.seen.fingers → gaps ≤ gaps_of other)) }
        ensures low { IfErr result (λ fault. ForSeen (B.value self.now.bound) self.now.seen (λ log.
            Proves (λ best. (other : Sequence Column) →
            IsArrangement other self.now.seen.fingers → best ≤ gaps_of other) fault)) }
        ensures lemmas { IfOk result (λ _. ForSeen (B.value self.now.bound) self.now.seen (λ log.
            WithKinds self.now.seen.fingers (λ k. All (IsTrueOf k) log.lemmas))) }
    {
        self.seen.finish(alloc, &self.bound)
    }
}
