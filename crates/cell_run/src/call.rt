ghost use Rattle.std.specs.Prelude.{◌≡◌, ◌≢◌, ◌≤◌, ◌↔◌, ◌⊎◌, IfSome, IsNone, IsTrue};
ghost use Rattle.cell_io.specs.Desk.{Both, Rose};
ghost use Rattle.call_end.specs.declared.end.End.{End as EndOf};
ghost use Rattle.call_end.specs.declared.status.Status.TheVariants as status;
ghost use Rattle.layout_commands.specs.Agree.{DoesAgree};
ghost use Rattle.cell_run.specs.Agree.{ComparesMade, HasDisagreement, HasNoNets, IsAgree, IsAgreedCell, IsDisagreed};
ghost use Rattle.cell_run.specs.Agree.{IsWithoutNets, OfCompared};
ghost use Rattle.cell_run.specs.Bench.{IsBench, IsBenchTold, WhereBenchEnds};
ghost use Rattle.cell_run.specs.Calm.{EndsSo, IfCalm, IsDoneOrShort};
ghost use Rattle.cell_run.specs.Check.{HoldsAccepted, HoldsCrowded, IsCheck, IsDoneWhereHeld};
ghost use Rattle.cell_run.specs.Created.{CreatesOnce};
ghost use Rattle.call_end.specs.Deliver.{Tells, TellsWhole};
ghost use Rattle.call_work.specs.Ends.{CallsFor, IsOfOutside, MayEnd, is_status_of};
ghost use Rattle.layout_commands.specs.Extract.{BreaksRule, HasNetlist};
ghost use Rattle.cell_run.specs.Extract.{HasNoNetlist, IsBrokenCell, IsExtract, IsExtractedCell, IsRefusedLayout};
ghost use Rattle.cell_run.specs.Extract.{OfGdsCell, WhereExtractEnds};
ghost use Rattle.call_work.specs.Commands.{Agreeing, CheckingLow, read_by};
ghost use Rattle.cell_run.specs.Ended.{WhereEnds};
ghost use Rattle.cell_run.specs.From.{FromFile, IfFrom, IsCyclicFrom, IsMadeFrom, IsRefusedFile, IsTallFrom};
ghost use Rattle.cell_run.specs.From.{IsUnaccepted, OfListed};
ghost use Rattle.cell_run.specs.Headline.{CanBeDrawn, FromInputs, HasCycle, IsCyclicCell, IsMadeCell, IsOrShort};
ghost use Rattle.cell_run.specs.Headline.{IsTallCell, IsTooHigh, IsUnmade, MakesNone, OfFirstLeast, WhereMakeEnds};
ghost use Rattle.cell_run.specs.Low.{DrawsFirst, DrawsLow, HoldsTracks, IfLow, IsCheckLow, IsCyclicLow, IsMadeLow};
ghost use Rattle.cell_run.specs.Low.{IsOpenLow, IsProvedLow, IsTallLow, LeavesGapsOpen};
ghost use Rattle.cell_run.specs.Origin.{Search};
ghost use Rattle.cell_run.specs.Plan.{CanBePlanned, IsPlannedRow, IsUnplanned, WherePlanEnds};
ghost use Rattle.cell_run.specs.Row.{CanBeRowed, IsApartOrShort, IsKeptApart, IsMisreadRow, IsRow, IsRowedLibrary};
ghost use Rattle.cell_run.specs.Row.{IsStopStatus, IsStoppedRow, IsUnabuttedRow, MayLeaveFile, MayMakeFiles, OfRow};
ghost use Rattle.cell_run.specs.Row.{WhereRowEnds};
ghost use Rattle.row_abut.specs.declared.cell.RowFault.{RowFault};
ghost use Rattle.call_read.specs.Sources.{Lacks};
ghost use Rattle.call_words.specs.Words.{asked};

use crate::prepare::prepare;
use call_end::{Status, deliver};
use cell_io::Desk;
use std::alloc::Global;

/// Does what the words ask for, and says the report.
///
/// `plan TECH SPICE CELL` finds the first least row of a cell: TECH is a technology file or `-` for the plain
/// technology, SPICE a file, and CELL the name of one of its subcircuits. `make TECH SPICE CELL OUT` draws that row: it
/// makes the log `OUT.clog`, the GDSII library `OUT.gds` and then the abstract `OUT.lef`. With `--dogleg` after OUT,
/// trunks may change their tracks at node lines of their nets; with `--taps` after these the library has taps of the
/// well and of the substrate, on the rails at the first and at the last line.
/// With `--low` after these words, `make` draws of all rows that can be wired with the fewest gaps the first on the
/// fewest tracks, with the first of its routings on these. It makes the certificate of the tracks, `OUT.ctrack`, after
/// the log. Where the budget is spent before that row is found, it draws the first that can be wired with these gaps.
/// `check TECH SPICE CELL LOG` reports whether the file LOG is the text of a log that certifies a row of that cell.
/// With `--low` after the file's name it reports the gaps and the tracks of a certificate of tracks of either wiring.
/// `extract TECH GDS CELL` reports the netlist of a cell of the GDSII file GDS, or the rules that it breaks. With
/// `--taps` after CELL the rules are those of cells with taps, and the net of each device's body is reported.
/// `bench NUMBER` makes that many generated cells in memory, 1 to 200, and reports what came out.
/// `row TECH SPICE OUT TOP CELL CELL ..` draws 2 to 16 cells as `make` does, and makes the GDSII library `OUT.gds` of
/// them and of the cell TOP, in which they are side by side in the words' order. With `--low` as the last word it
/// draws each of them as `make .. --low` does.
/// `agree TECH GDS LEF CELL` reports whether the macro of a cell in the LEF file LEF agrees with the cell in the GDSII
/// file GDS, or the first difference.
/// With `--trails` as the last word `plan` finds the row with a certificate by trails, `make` makes that, `OUT.ctrail`,
/// in the place of the log, and `check` reads its file as the text of such a certificate, of any version.
/// With `--from FILE` as the last words `make` draws the row that the file FILE lists, where `check` accepts it: the
/// text of a log, or after `--trails` of a certificate by trails. It makes `OUT.gds` and `OUT.lef` alone.
///
/// All memory that is not the desk's own is taken before the first file is made.
pub fn run<D: Desk>(alloc: Global, words: &[String], desk: &mut D) -> Status
    // The call resulted in such an end, and it was reported: whole, or up to where writing failed or the desk found no
    // memory. Where memory ran out before, the end is to say nothing.
    ensures ends { (end : EndOf) × MayEnd (D.view desk.old) (D.view desk.new) (asked words.now) end
        × Tells end result (D.view desk.old) (D.view desk.new) }

    // Over files that are shown, an end that they call for is reported whole (no ReadFault, WriteFault or NoMemory).
    ensures called_for { IfSome (D.view desk.old).given (λ files. IsOfOutside result ⊎ ((end : EndOf)
        × CallsFor files (asked words.now) end × TellsWhole end result (D.view desk.old) (D.view desk.new))) }

    // Over such files, where neither reading nor writing failed, the status is of such an end, or memory ran out.
    ensures completes { IfCalm (D.view desk.old) (D.view desk.new) (λ files.
        ((end : EndOf) × CallsFor files (asked words.now) end × (result ≡ end.status)) ⊎ (result ≡ status.NoMemory)) }

    // Each fault of the outside has its cause.
    ensures usage { result ≡ status.Usage → IsNone (asked words.now) }
    ensures read { result ≡ status.ReadFault → Rose (D.view desk.old).read_faults (D.view desk.new).read_faults
        ⊎ Lacks (D.view desk.old).given (read_by (asked words.now)) }
    ensures write { result ≡ status.WriteFault → Rose (D.view desk.old).write_faults (D.view desk.new).write_faults }
    ensures memory { result ≡ status.NoMemory → Rose (D.view desk.old).shorts (D.view desk.new).shorts
        ⊎ ((D.view desk.new).said ≡ (D.view desk.old).said) }
    ensures other { IsTrue (is_status_of (asked words.now) result) }

    // A failing call of the desk ends the call: a count is as before wherever the status reports no such failure.
    // After a failed read, the report of it may fail in turn, or find no memory.
    ensures same_reads { (IsOfOutside result → ⊥) → (D.view desk.new).read_faults ≡ (D.view desk.old).read_faults }
    ensures same_writes { result ≢ status.WriteFault → (D.view desk.new).write_faults ≡ (D.view desk.old).write_faults }
    ensures same_shorts { result ≢ status.NoMemory → (D.view desk.new).shorts ≡ (D.view desk.old).shorts }
    ensures given { (D.view desk.new).given ≡ (D.view desk.old).given }
    ensures read_count { (D.view desk.old).read_faults ≤ (D.view desk.new).read_faults }
    ensures write_count { (D.view desk.old).write_faults ≤ (D.view desk.new).write_faults }
    ensures short_count { (D.view desk.old).shorts ≤ (D.view desk.new).shorts }

    // `make` and `row` alone make files: `make` none where it ends with another status than its own, WriteFault or
    // NoMemory, with `--from` none where it ends so without a drawing, and `row` none except where it is Done, or
    // ends with WriteFault or NoMemory.
    ensures made { (MayMakeFiles (asked words.now) → ⊥) → (D.view desk.new).made ≡ (D.view desk.old).made }
    ensures alone { IsRow (asked words.now) → MayLeaveFile result ⊎ ((D.view desk.new).made ≡ (D.view desk.old).made) }
    ensures none { MakesNone result → (D.view desk.new).made ≡ (D.view desk.old).made }
    ensures unmade { result ≡ status.NoMemory → Rose (D.view desk.old).shorts (D.view desk.new).shorts
        ⊎ ((D.view desk.new).made ≡ (D.view desk.old).made) }
    // No file is created twice, whatever the end is. (That they are those of the end, in order, is said by `ends`.)
    ensures once { Both CreatesOnce (D.view desk.old).created (D.view desk.new).created }

    // What `make` leaves: the drawing of the first least row, with its evidence; or a cycle of that row; or the height
    // that it needs; or what a search proves without a row, or a gate with too many ways to pair its fingers.
    ensures drawn { IfSome (D.view desk.old).given (λ files. WhereMakeEnds files (asked words.now) result status.Done
        (λ e style inputs out. IsMadeCell (Search e) style inputs out (D.view desk.old) (D.view desk.new))) }
    ensures cyclic { IfSome (D.view desk.old).given (λ files. WhereMakeEnds files (asked words.now) result status.Cycle
        (λ e style inputs out. IsCyclicCell (Search e) style inputs out (D.view desk.old) (D.view desk.new))) }
    ensures tall { IfSome (D.view desk.old).given (λ files. WhereMakeEnds files (asked words.now) result status.TooTall
        (λ e style inputs out. IsTallCell (Search e) style inputs out (D.view desk.old) (D.view desk.new))) }
    ensures spent { IfSome (D.view desk.old).given (λ files. WhereMakeEnds files (asked words.now) result
        status.Unfinished (λ e style inputs out. IsUnmade e inputs out (D.view desk.old) (D.view desk.new))) }

    // Where the budget is enough, it ends so exactly where the first least row calls for it, or memory ran out.
    ensures draws { IfCalm (D.view desk.old) (D.view desk.new) (λ files.
        FromInputs files (asked words.now) (OfFirstLeast CanBeDrawn) → IsOrShort status.Done result) }
    ensures meets { IfCalm (D.view desk.old) (D.view desk.new) (λ files.
        FromInputs files (asked words.now) (OfFirstLeast HasCycle) → IsOrShort status.Cycle result) }
    ensures needs { IfCalm (D.view desk.old) (D.view desk.new) (λ files.
        FromInputs files (asked words.now) (OfFirstLeast IsTooHigh) → IsOrShort status.TooTall result) }

    // What `make` with `--from FILE` leaves: the drawing of the row that FILE lists, than which no row has fewer gaps;
    // or a cycle of that row; or the height that it needs; or the report of a check that does not accept FILE.
    ensures drawn_from { IfFrom (D.view desk.old) (D.view desk.new) (asked words.now) result status.Done IsMadeFrom }
    ensures cyclic_from { IfFrom (D.view desk.old) (D.view desk.new) (asked words.now) result status.Cycle
        IsCyclicFrom }
    ensures tall_from { IfFrom (D.view desk.old) (D.view desk.new) (asked words.now) result status.TooTall IsTallFrom }
    ensures rejected_from { IfFrom (D.view desk.old) (D.view desk.new) (asked words.now) result status.Rejected
        IsRefusedFile }

    // It ends so exactly where FILE and the row that it lists call for it, or memory ran out.
    ensures draws_from { IfCalm (D.view desk.old) (D.view desk.new) (λ files.
        FromFile files (asked words.now) (OfListed CanBeDrawn) → IsOrShort status.Done result) }
    ensures meets_from { IfCalm (D.view desk.old) (D.view desk.new) (λ files.
        FromFile files (asked words.now) (OfListed HasCycle) → IsOrShort status.Cycle result) }
    ensures needs_from { IfCalm (D.view desk.old) (D.view desk.new) (λ files.
        FromFile files (asked words.now) (OfListed IsTooHigh) → IsOrShort status.TooTall result) }
    ensures rejects_from { IfCalm (D.view desk.old) (D.view desk.new) (λ files.
        FromFile files (asked words.now) IsUnaccepted → IsOrShort status.Rejected result) }

    // What `make` with `--low` leaves: the drawing of the first row on the fewest tracks, with both certificates; or a
    // cycle, where no row can be wired; or the height that the row needs; or what a search proves that is left
    // open. It draws each cell that `make` draws where the budget is enough, or memory ran out.
    ensures drawn_low { IfLow (D.view desk.old) (D.view desk.new) (asked words.now) result status.Done IsMadeLow }
    ensures cyclic_low { IfLow (D.view desk.old) (D.view desk.new) (asked words.now) result status.Cycle IsCyclicLow }
    ensures tall_low { IfLow (D.view desk.old) (D.view desk.new) (asked words.now) result status.TooTall IsTallLow }
    ensures spent_low { IfLow (D.view desk.old) (D.view desk.new) (asked words.now) result status.Unfinished IsOpenLow }
    ensures draws_low { EndsSo (D.view desk.old) (D.view desk.new) (asked words.now) result status.Done DrawsLow }
    // Whatever the budget and the evidence are: of a cell that `make` draws only the first search is left open.
    ensures keeps_low { IfCalm (D.view desk.old) (D.view desk.new) (λ files.
        DrawsFirst files (asked words.now) → IsDoneOrShort result
        ⊎ LeavesGapsOpen files (asked words.now) result (D.view desk.old) (D.view desk.new)) }

    // What `plan` reports: the first least row, with evidence that is accepted; or what a search proves without a row,
    // or a gate with too many ways to pair its fingers.
    ensures planned { IfSome (D.view desk.old).given (λ files. WherePlanEnds files (asked words.now) result
        status.Done (λ evidence inputs. IsPlannedRow evidence inputs (D.view desk.old) (D.view desk.new))) }
    ensures unplanned { IfSome (D.view desk.old).given (λ files. WherePlanEnds files (asked words.now) result
        status.Unfinished (λ evidence inputs. IsUnplanned evidence inputs (D.view desk.old) (D.view desk.new))) }

    // A plan whose budget is enough is done, or memory ran out.
    ensures plans { EndsSo (D.view desk.old) (D.view desk.new) (asked words.now) result status.Done CanBePlanned }

    // A check is done only where the file is the text of accepted evidence. There it is done, except ReadFault,
    // WriteFault and NoMemory, and except where a gate of a certificate has too many ways to pair its fingers; and
    // where neither reading nor writing failed, it is done there, or memory ran out, or a gate has too many ways.
    ensures checked { IfSome (D.view desk.old).given (λ files. IsCheck (asked words.now)
        → IsOfOutside result ⊎ IsDoneWhereHeld files (asked words.now) result) }
    ensures accepts { IfCalm (D.view desk.old) (D.view desk.new) (λ files. HoldsAccepted files (asked words.now)
        → IsDoneOrShort result ⊎ HoldsCrowded files (asked words.now)) }

    // So is a check with `--low`, where the file is the text of an accepted certificate of tracks. Then each row with
    // at most its gaps takes its tracks at least.
    ensures checked_low { IfSome (D.view desk.old).given (λ files. IsCheckLow (asked words.now)
        → IsOfOutside result ⊎ (result ≡ status.Done ↔ HoldsTracks files (asked words.now))) }
    ensures proved_low { IfSome (D.view desk.old).given (λ files. WhereEnds CheckingLow files (asked words.now) result
        status.Done (λ m. IsProvedLow m.inputs m.bytes (D.view desk.old) (D.view desk.new))) }
    ensures accepts_low { EndsSo (D.view desk.old) (D.view desk.new) (asked words.now) result status.Done HoldsTracks }

    // What `extract` reports: the netlist of a cell that obeys all rules; or all rules that it breaks; or why the file
    // has no cell to check, or the cell no netlist.
    ensures extracted { IfSome (D.view desk.old).given (λ files. WhereExtractEnds files (asked words.now) result
        status.Done (λ cell. IsExtractedCell cell (D.view desk.old) (D.view desk.new))) }
    ensures broken { IfSome (D.view desk.old).given (λ files. WhereExtractEnds files (asked words.now) result
        status.Rejected (λ cell. IsBrokenCell cell (D.view desk.old) (D.view desk.new))) }
    ensures refused { IfSome (D.view desk.old).given (λ files. IsExtract (asked words.now) → result ≡ status.Layout
        → IsRefusedLayout files (asked words.now) (D.view desk.old) (D.view desk.new)) }

    // Where neither reading nor writing failed, it ends so exactly where the cell calls for it, or memory ran out.
    ensures extracts { IfCalm (D.view desk.old) (D.view desk.new) (λ files.
        OfGdsCell files (asked words.now) HasNetlist → IsOrShort status.Done result) }
    ensures breaks { IfCalm (D.view desk.old) (D.view desk.new) (λ files.
        OfGdsCell files (asked words.now) BreaksRule → IsOrShort status.Rejected result) }
    ensures refuses { EndsSo (D.view desk.old) (D.view desk.new) (asked words.now) result status.Layout HasNoNetlist }

    // What `agree` reports: that the macro agrees with the drawing of the cell; or that there is none, or how it
    // differs; or that there is no drawing, or no netlist of it.
    ensures agreed { IfSome (D.view desk.old).given (λ files. WhereEnds Agreeing files (asked words.now) result
        status.Done (λ both. IsAgreedCell both (D.view desk.old) (D.view desk.new))) }
    ensures disagreed { IfSome (D.view desk.old).given (λ files. IsAgree (asked words.now) → result ≡ status.Disagree
        → IsDisagreed files (asked words.now) (D.view desk.old) (D.view desk.new)) }
    ensures unextracted { IfSome (D.view desk.old).given (λ files. IsAgree (asked words.now) → result ≡ status.Layout
        → IsWithoutNets files (asked words.now) (D.view desk.old) (D.view desk.new)) }

    // Where neither reading nor writing failed, it ends so exactly where the two files call for it, or memory ran out.
    ensures agrees { IfCalm (D.view desk.old) (D.view desk.new) (λ files.
        OfCompared files (asked words.now) DoesAgree → IsOrShort status.Done result) }
    ensures disagrees { IfCalm (D.view desk.old) (D.view desk.new) (λ files.
        HasDisagreement files (asked words.now) → IsOrShort status.Disagree result) }
    ensures unextracts { EndsSo (D.view desk.old) (D.view desk.new) (asked words.now) result status.Layout HasNoNets }
    // The files that a `make` left agree.
    ensures agrees_made { EndsSo (D.view desk.old) (D.view desk.new) (asked words.now) result status.Done ComparesMade }

    // What `row` leaves: the library of its cells side by side, each with its first least row, or with `--low` with its
    // lowest one; or why the first cell that is not made has no drawing, or no inputs; or why its cells can't
    // be side by side.
    ensures rowed { IfSome (D.view desk.old).given (λ files. WhereRowEnds files (asked words.now) result
        status.Done (λ r out. IsRowedLibrary r out (D.view desk.old) (D.view desk.new))) }
    ensures stopped { (settled : Status) → IsStopStatus settled
        → IfSome (D.view desk.old).given (λ files. WhereRowEnds files (asked words.now) result settled
        (λ r out. IsStoppedRow r result (D.view desk.old) (D.view desk.new))) }
    ensures misread { IfSome (D.view desk.old).given (λ files. IsRow (asked words.now) → result ≡ status.Input
        → IsMisreadRow files (asked words.now) (D.view desk.old) (D.view desk.new)) }
    ensures unabutted { IfSome (D.view desk.old).given (λ files. WhereRowEnds files (asked words.now) result
        status.Row (λ r out. IsUnabuttedRow r (D.view desk.old) (D.view desk.new))) }

    // Where the cells can be made and be side by side, it is done, or memory ran out; where they can be made and a
    // fault keeps them apart, it ends with 12 and reports that fault, or memory ran out.
    ensures rows { IfCalm (D.view desk.old) (D.view desk.new) (λ files.
        OfRow files (asked words.now) (λ r out. CanBeRowed r) → IsDoneOrShort result) }
    ensures unabuts { IfCalm (D.view desk.old) (D.view desk.new) (λ files. (fault : RowFault)
        → OfRow files (asked words.now) (λ r out. IsKeptApart r fault)
        → IsApartOrShort fault result (D.view desk.old) (D.view desk.new)) }

    // What `bench` reports: the counts of what making each generated cell results in. It is done, or writing failed, or
    // memory ran out.
    ensures benched { WhereBenchEnds (asked words.now) result
        (λ number. IsBenchTold number (D.view desk.old) (D.view desk.new)) }
    ensures benches { IsBench (asked words.now)
        → Rose (D.view desk.old).write_faults (D.view desk.new).write_faults ⊎ IsDoneOrShort result }
{
    let end = prepare(alloc, words, desk);
    deliver(desk, end)
}
