ghost use Rattle.std.specs.Prelude.{◌≡◌, ◌≢◌, ◌≤◌, ◌+◌, All, IfOk, IfErr, None, OnOk, ℕ, List as Sequence, length};
ghost use Rattle.cell_num.specs.declared.finger.Row.{Row as RowOf};
ghost use Rattle.cell_num.specs.Fingers.{AreFingers};
ghost use Rattle.row_model.specs.declared.column.Column.{Column};
ghost use Rattle.row_model.specs.Arrangement.{IsArrangement};
ghost use Rattle.row_model.specs.Gaps.{gaps_of};
ghost use Rattle.row_state.specs.declared.kind.Kinds.{Kinds as KindsOf};
ghost use Rattle.row_state.specs.declared.state.State.{State as StateOf};
ghost use Rattle.bound_log.specs.declared.log.Lemma.{Lemma as LemmaOf};
ghost use Rattle.lemma_check.specs.Noted.{AreNoted};
ghost use Rattle.log_check.specs.Accepted.{IsAccepted, IsTrueOf, Lists, WithKinds};
ghost use Rattle.log_check.specs.Items.{ForSeen, HasSeen, with_columns, with_lemmas};
ghost use Rattle.log_check.specs.declared.refused.Refused.TheVariants as because;
ghost use Rattle.log_check.specs.Refusal.{Proves, Refuses};

use crate::{Refused, Seen};
use bound_log::{Best, Lemma, Log, LogStep};
use cell_num::{Fingers, MOST_BYTES, NoMemory};
use lemma_check::RowTrails;
use row_state::RowBound;
use std::alloc::Global;

fn add_lemmas<B: RowBound>(
    seen: &mut Seen,
    bound: &B,
    trails: &mut RowTrails,
    lemmas: &[Lemma],
) -> Result<(), NoMemory>
    requires few { seen.old.lemmas + length lemmas.now ≤ MOST_BYTES }
    requires noted { AreNoted (B.trails_of bound.now) seen.old.kinds trails.old }
    ensures fingers { seen.new.fingers ≡ seen.old.fingers }
    ensures seen { OnOk result (ForSeen (B.value bound.now) seen.old (λ log.
        HasSeen (B.value bound.now) seen.new (with_lemmas log lemmas.now))) }
{
    for lemma in lemmas {
        seen.lemma(bound, trails, lemma)?;
    }
    Ok(())
}

fn add_columns(seen: &mut Seen, steps: &[LogStep]) -> Result<(), NoMemory>
    ensures fingers { seen.new.fingers ≡ seen.old.fingers }
    ensures seen { OnOk result ((value : RowOf → StateOf → KindsOf → ℕ) →
        ForSeen value seen.old (λ log. HasSeen value seen.new (with_columns log steps.now))) }
{
    for step in steps {
        seen.column(step)?;
    }
    Ok(())
}

fn add_row(seen: &mut Seen, row: &Option<Best>) -> Result<(), NoMemory>
    ensures fingers { seen.new.fingers ≡ seen.old.fingers }
    ensures seen { OnOk result ((value : RowOf → StateOf → KindsOf → ℕ) (version : ℕ) (lemmas : Sequence LemmaOf) →
        HasSeen value seen.old (record { version = version; lemmas = lemmas; best = None }) →
        HasSeen value seen.new (record { version = version; lemmas = lemmas; best = row.now })) }
{
    let Some(row) = row else {
        return Ok(());
    };
    seen.gaps(row.gaps);
    add_columns(seen, row.steps.as_slice())?;
    Ok(())
}

// All items of the log.
fn see_all<B: RowBound>(
    alloc: Global,
    fingers: &Fingers,
    log: &Log,
    bound: &B,
) -> Result<Seen, NoMemory>
    requires fingers { AreFingers fingers.now }
    requires few { length log.now.lemmas ≤ MOST_BYTES }
    ensures fingers { IfOk result (λ c. c.fingers ≡ fingers.now) }
    ensures seen { IfOk result (λ c. HasSeen (B.value bound.now) c log.now) }
{
    let mut seen = Seen::new(alloc, fingers, log.version)?;
    let mut trails = RowTrails::new(alloc);
    add_lemmas(&mut seen, bound, &mut trails, log.lemmas.as_slice())?;
    add_row(&mut seen, &log.best)?;
    Ok(seen)
}

/// The gaps of the row that the log certifies, where the log is accepted: no arrangement of the
/// fingers has fewer. Else the first cause to refuse it. At most [`MOST_BYTES`] lemmas.
pub fn check_log<B: RowBound>(
    alloc: Global,
    fingers: &Fingers,
    log: &Log,
    bound: &B,
) -> Result<u32, Refused>
    requires fingers { AreFingers fingers.now }
    requires few { length log.now.lemmas ≤ MOST_BYTES }
    ensures accepted { IfOk result (λ gaps. WithKinds fingers.now (λ k.
        IsAccepted (B.value bound.now) k fingers.now log.now gaps)) }
    ensures refused { IfErr result (λ fault. fault ≢ because.NoMemory → WithKinds fingers.now (λ k.
        Refuses (B.value bound.now) k fingers.now log.now fault)) }
    ensures arranges { IfOk result (λ gaps. WithKinds fingers.now (λ k. Lists k log.now.best (λ row.
        IsArrangement row fingers.now × (gaps ≡ gaps_of row)))) }
    ensures least { IfOk result (λ gaps. (other : Sequence Column) → IsArrangement other fingers.now →
        gaps ≤ gaps_of other) }
    ensures low { IfErr result (Proves (λ best. (other : Sequence Column) → IsArrangement other fingers.now →
        best ≤ gaps_of other)) }
    ensures lemmas { IfOk result (λ _. WithKinds fingers.now (λ k. All (IsTrueOf k) log.now.lemmas)) }
{
    let seen = see_all(alloc, fingers, log, bound)?;
    seen.finish(alloc, bound)
}
