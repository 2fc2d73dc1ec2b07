ghost use Rattle.std.specs.Prelude.{◌≡◌, ℕ, List};
ghost use Rattle.cell_num.specs.declared.finger.Fingers.{Fingers};
ghost use Rattle.cell_num.specs.declared.finger.Row.{Row};
ghost use Rattle.row_model.specs.declared.column.Column.{Column};
ghost use Rattle.row_model.specs.Arrangement.{IsArrangement};
ghost use Rattle.row_model.specs.Gaps.{gaps_of};
ghost use Rattle.row_state.specs.declared.kind.Kinds.{Kinds};
ghost use Rattle.row_state.specs.declared.state.State.{State};
ghost use Rattle.row_state.specs.Start.{AreKinds, AreSomeKinds};
ghost use Rattle.bound_log.specs.declared.log.Best.{Best};
ghost use Rattle.bound_log.specs.declared.log.Log.{Log};
ghost use Rattle.bound_log.specs.Fits.{Fits};
ghost use Rattle.log_check.specs.Accepted.{IsAccepted, Lists, WithKinds};
ghost use Rattle.row_search.specs.Ended.{IsSolved};
ghost use Rattle.trail_either.specs.declared.evidence.TrailEvidence.{TrailEvidence};
ghost use Rattle.trail_either.specs.Accepted.{IsEitherAccepted};
ghost use Rattle.trail_either.specs.Either.{EitherFits, best_in, either_listing};
ghost use Rattle.trail_either.specs.Ended.{IsEitherCertified};
ghost use Rattle.cell_commands.specs.Listed.{IsBestOf};
ghost use Rattle.cell_commands.specs.Other.{log_listing};

/// A log that proves a row least proves so each other row with as few gaps: with the other one listed in place of its
/// own it is accepted with the same gaps, and a text can hold it. It does nothing: its contract is the law.
pub fn log_of_other_row()
    ensures accepted { (value : Row → State → Kinds → ℕ) (k : Kinds) (f : Fingers) (log : Log) (gaps : ℕ)
        (other : List Column) (best : Best) → IsAccepted value k f log gaps → IsArrangement other f
        → gaps_of other ≡ gaps → IsBestOf k other best → IsAccepted value k f (log_listing log best) gaps }
    ensures lists { (k : Kinds) (log : Log) (other : List Column) (best : Best) → IsBestOf k other best
        → Lists k (log_listing log best).best (λ row. row ≡ other) }
    ensures fits { (k : Kinds) (log : Log) (other : List Column) (best : Best) → Fits k log → IsBestOf k other best
        → Fits k (log_listing log best) }
    // and what a search promises of the log that it finds, for the kinds of the fingers
    ensures solved { (value : Row → State → Kinds → ℕ) (k : Kinds) (f : Fingers) (budget : ℕ) (log : Log)
        (row other : List Column) (best : Best) → AreKinds f k → AreSomeKinds k
        → WithKinds f (λ k. IsSolved value k f budget row log) → IsArrangement other f
        → gaps_of other ≡ gaps_of row → IsBestOf k other best
        → WithKinds f (λ k. IsSolved value k f budget other (log_listing log best)) }
{}

/// The same of a certificate by trails, of any version. It does nothing: its contract is the law.
pub fn trails_of_other_row()
    ensures accepted { (k : Kinds) (f : Fingers) (trails : TrailEvidence) (gaps : ℕ) (other : List Column)
        (best : Best) → AreKinds f k → AreSomeKinds k → IsEitherAccepted f trails gaps
        → IsArrangement other f → gaps_of other ≡ gaps → IsBestOf k other best
        → IsEitherAccepted f (either_listing trails best) gaps }
    ensures lists { (k : Kinds) (trails : TrailEvidence) (other : List Column) (best : Best)
        → IsBestOf k other best → Lists k (best_in (either_listing trails best)) (λ row. row ≡ other) }
    ensures fits { (k : Kinds) (trails : TrailEvidence) (other : List Column) (best : Best) → EitherFits k trails
        → IsBestOf k other best → EitherFits k (either_listing trails best) }
    // and what a search promises of the certificate that it finds, for the kinds of the fingers
    ensures certified { (k : Kinds) (f : Fingers) (trails : TrailEvidence) (row other : List Column) (best : Best)
        → AreKinds f k → AreSomeKinds k → WithKinds f (λ k. IsEitherCertified k f row trails)
        → IsArrangement other f → gaps_of other ≡ gaps_of row → IsBestOf k other best
        → WithKinds f (λ k. IsEitherCertified k f other (either_listing trails best)) }
{}
