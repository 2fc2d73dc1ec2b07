// The row that a log lists after its lemmas, and the result of all its items.
ghost use Rattle.std.specs.Prelude.{◌≡◌, ◌≢◌, ◌≤◌, ◌∷◌, [], All, IfErr, IfOk, List as Sequence, OnErr, OnOk, ℕ};
ghost use Rattle.std.specs.Prelude.{option_map};
ghost use Rattle.cell_num.specs.declared.finger.Row.{Row as RowOf};
ghost use Rattle.cell_num.specs.Fingers.{AreFingers};
ghost use Rattle.row_model.specs.declared.column.Column.{Column};
ghost use Rattle.row_model.specs.Arrangement.{IsArrangement};
ghost use Rattle.row_model.specs.Gaps.{gaps_of};
ghost use Rattle.row_state.specs.declared.kind.Kinds.{Kinds as KindsOf};
ghost use Rattle.row_state.specs.declared.state.State.{State as StateOf};
ghost use Rattle.row_state.specs.Start.{AreKinds, AreSomeKinds, start_of};
ghost use Rattle.lemma_check.specs.Known.{best_known};
ghost use Rattle.log_check.specs.Accepted.{BestPasses, IsAccepted, IsTrueOf, Lists, WithKinds};
ghost use Rattle.log_check.specs.Items.{ForSeen, HasSeen, more_steps, with_columns, with_gaps};
ghost use Rattle.log_check.specs.declared.refused.Refused.TheVariants as because;
ghost use Rattle.log_check.specs.Refusal.{BestRefuses, Proves, Refuses};

use crate::listed::check_row;
use crate::{Refused, Seen};
use bound_log::{Best, LogStep, LogSteps};
use cell_num::{Fingers, NoMemory};
use lemma_check::Known;
use row_state::{Kinds, RowBound, start};
use std::alloc::Global;

fn add_column(row: &mut Option<Best>, step: &LogStep) -> Result<(), NoMemory>
    ensures ok { OnOk result (row.new ≡ option_map (more_steps (step.now ∷ [])) row.old) }
    ensures err { OnErr result (row.new ≡ row.old) }
{
    match row {
        Some(row) => row.steps.push(*step),
        None => Ok(()),
    }
}

fn start_best(alloc: Global, kinds: &Kinds, known: &Known) -> Result<u32, NoMemory>
    ensures { IfOk result (λ best. best ≡ best_known known.now kinds.now (start_of kinds.now)) }
{
    let first = start(alloc, kinds)?;
    Ok(known.best(kinds, &first))
}

fn check_best(
    alloc: Global,
    fingers: &Fingers,
    kinds: &Kinds,
    listed: &Option<Best>,
    best: u32,
) -> Result<u32, Refused>
    requires fingers { AreFingers fingers.now }
    ensures passes { IfOk result (BestPasses kinds.now fingers.now best listed.now) }
    ensures refuses { IfErr result (BestRefuses kinds.now fingers.now best listed.now) }
{
    match listed {
        Some(row) => check_row(alloc, fingers, kinds, row, best),
        None => Err(Refused::NoRow { best }),
    }
}

impl Seen {
    pub(crate) fn row(&self) -> &Option<Best>
        ensures { result.now ≡ self.now.row }
    {
        &self.row
    }

    #[tactic(auto, using(crate::proofs::Items::seen_gaps))]
    pub(crate) fn gaps(&mut self, said: u32)
        ensures kinds { self.new.kinds ≡ self.old.kinds }
        ensures fingers { self.new.fingers ≡ self.old.fingers }
        ensures version { self.new.version ≡ self.old.version }
        ensures count { self.new.lemmas ≡ self.old.lemmas }
        ensures seen { (value : RowOf → StateOf → KindsOf → ℕ) →
            ForSeen value self.old (λ log. HasSeen value self.new (with_gaps log said)) }
    {
        self.row = Some(Best {
            gaps: said,
            steps: LogSteps::new(self.alloc),
        });
    }

    #[tactic(auto, using(crate::proofs::Items::seen_columns))]
    pub(crate) fn column(&mut self, step: &LogStep) -> Result<(), NoMemory>
        ensures kinds { self.new.kinds ≡ self.old.kinds }
        ensures fingers { self.new.fingers ≡ self.old.fingers }
        ensures version { self.new.version ≡ self.old.version }
        ensures count { self.new.lemmas ≡ self.old.lemmas }
        ensures seen { OnOk result ((value : RowOf → StateOf → KindsOf → ℕ) →
            ForSeen value self.old (λ log. HasSeen value self.new (with_columns log (step.now ∷ [])))) }
        ensures unchanged { OnErr result (self.new ≡ self.old) }
    {
        add_column(&mut self.row, step)?;
        Ok(())
    }

    // The gaps, or why the log is refused, for the kinds of the fingers.
    #[tactic(auto, using(crate::proofs::Items::answer_unproved, crate::proofs::Items::answer_accepted))]
    fn answer(&self, alloc: Global) -> Result<u32, Refused>
        ensures kinds { AreKinds self.now.fingers self.now.kinds }
        ensures sound { AreSomeKinds self.now.kinds }
        ensures accepted { IfOk result (λ gaps. (value : RowOf → StateOf → KindsOf → ℕ) →
            ForSeen value self.now (λ log. IsAccepted value self.now.kinds self.now.fingers log gaps)) }
        ensures refused { IfErr result (λ fault. (value : RowOf → StateOf → KindsOf → ℕ) →
            ForSeen value self.now (λ log. Refuses value self.now.kinds self.now.fingers log fault)) }
    {
        self.kinds.show_limits();
        if let Some(line) = self.unproved {
            return Err(Refused::Unproved { line });
        }
        let best = start_best(alloc, &self.kinds, &self.known)?;
        check_best(alloc, &self.fingers, &self.kinds, &self.row, best)
    }

    pub(crate) fn finish<B: RowBound>(&self, alloc: Global, bound: &B) -> Result<u32, Refused>
        ensures accepted { IfOk result (λ gaps. ForSeen (B.value bound.now) self.now (λ log.
            WithKinds self.now.fingers (λ k. IsAccepted (B.value bound.now) k self.now.fingers log gaps))) }
        ensures refused { IfErr result (λ fault. fault ≢ because.NoMemory → ForSeen (B.value bound.now) self.now (λ log.
            WithKinds self.now.fingers (λ k. Refuses (B.value bound.now) k self.now.fingers log fault))) }
        ensures arranges { IfOk result (λ gaps. ForSeen (B.value bound.now) self.now (λ log.
            WithKinds self.now.fingers (λ k.
            Lists k log.best (λ row. IsArrangement row self.now.fingers × (gaps ≡ gaps_of row))))) }
        ensures least { IfOk result (λ gaps. ForSeen (B.value bound.now) self.now (λ log.
            (other : Sequence Column) → IsArrangement other self.now.fingers → gaps ≤ gaps_of other)) }
        ensures low { IfErr result (λ fault. ForSeen (B.value bound.now) self.now (λ log. Proves (λ best.
            (other : Sequence Column) → IsArrangement other self.now.fingers → best ≤ gaps_of other) fault)) }
        ensures lemmas { IfOk result (λ _. ForSeen (B.value bound.now) self.now (λ log.
            WithKinds self.now.fingers (λ k. All (IsTrueOf k) log.lemmas))) }
    {
        let _ = bound;
        self.answer(alloc)
    }
}
