ghost use Rattle.std.specs.Prelude.{◌≡◌, ◌≢◌, ◌≤◌, ◌<◌, ◌+◌, [], List as Sequence, IfErr, IfOk, MatchOption, OnOk};
ghost use Rattle.cell_num.specs.Fingers.{AreFingers};
ghost use Rattle.row_model.specs.declared.column.Column.{Column};
ghost use Rattle.row_model.specs.Arrangement.{IsArrangement};
ghost use Rattle.row_model.specs.Gaps.{gaps_of};
ghost use Rattle.row_state.specs.Versions.{IsVersion, value_of};
ghost use Rattle.bound_log.specs.declared.log.Log.{Log as LogOf};
ghost use Rattle.bound_log.specs.Pieces.{ItemFits};
ghost use Rattle.log_check.specs.declared.refused.Refused.TheVariants as because;
ghost use Rattle.log_check.specs.Accepted.{IsAccepted, WithKinds, columns_listed};
ghost use Rattle.log_check.specs.Items.{empty_log};
ghost use Rattle.log_check.specs.Refusal.{Refuses};
ghost use Rattle.cell_commands.specs.LogRead.{ForSeenLog, HasSeenLog, no_log, with_item};

use crate::listed::listed_row;
use bound_log::LogItem;
use cell_num::{Fingers, MOST_BYTES, NoMemory};
use log_check::{Checker, Refused};
use row_model::Arrangement;
use row_state::{Kinds, LogBound};
use std::alloc::Global;
use std::marker::Model;

/// A checker of logs of any version: the head of a log says by which bound its lemmas are checked.
#[derive(Drop)]
pub struct LogChecker {
    checker: Checker<LogBound>,
}

impl Model for LogChecker {
    ghost use Rattle.std.specs.Prelude.{◌≡◌};
    ghost use Rattle.row_state.specs.LogBounds.{log_version};
    ghost use Rattle.log_check.specs.Items.{Checked};

    ghost Value = { Checked };

    ghost view = { λ c. c.checker.seen };

    ghost invariant = { λ c. c.checker.seen.version ≡ log_version c.checker.bound };
}

impl LogChecker {
    /// A checker of logs for the fingers, before the first item.
    pub fn new(alloc: Global, fingers: &Fingers) -> Result<LogChecker, NoMemory>
        requires fingers { AreFingers fingers.now }
        ensures fingers { IfOk result (λ c. c.fingers ≡ fingers.now) }
        ensures count { IfOk result (λ c. c.lemmas ≡ 0) }
        ensures seen { IfOk result (λ c. HasSeenLog c no_log) }
    {
        Ok(LogChecker {
            checker: Checker::new(alloc, fingers, LogBound::One)?,
        })
    }

    /// How many lemmas came.
    pub fn count(&self) -> u32
        ensures { result ≡ self.now.lemmas }
    {
        self.checker.count()
    }

    // A log of the version begins.
    fn begin(&mut self, version: u32)
        requires { IsVersion version }
        ensures fingers { self.new.fingers ≡ self.old.fingers }
        ensures count { self.new.lemmas ≡ 0 }
        ensures seen { HasSeenLog self.new (empty_log version) }
    {
        match LogBound::of(version) {
            Some(bound) => self.checker.begin(bound),
            None => unreachable!(),
        }
    }

    /// One item more.
    #[tactic(auto, using(crate::proofs::Versions::head_known, crate::proofs::Versions::lemma_valid))]
    pub fn item(&mut self, item: LogItem) -> Result<(), NoMemory>
        requires few { self.old.lemmas < MOST_BYTES }
        requires fits { WithKinds self.old.fingers (λ k. ItemFits k item) }
        ensures fingers { self.new.fingers ≡ self.old.fingers }
        ensures count { OnOk result (self.new.lemmas ≤ self.old.lemmas + 1) }
        ensures seen { OnOk result ((log : LogOf) →
            HasSeenLog self.old log → HasSeenLog self.new (with_item log item)) }
    {
        match item {
            LogItem::Head { version } => {
                self.begin(version);
                Ok(())
            }
            LogItem::Lemma(lemma) => self.checker.valid_lemma(lemma),
            LogItem::Gaps(said) => {
                self.checker.gaps(said);
                Ok(())
            }
            LogItem::Column(step) => self.checker.column(&step),
            LogItem::More | LogItem::Open | LogItem::End => Ok(()),
        }
    }

    /// The columns of the row that the log lists, by the kinds of its fingers; none where it lists no row.
    pub fn listed(&self, alloc: Global, kinds: &Kinds) -> Result<Arrangement, NoMemory>
        ensures { IfOk result (λ row. MatchOption self.now.row (row ≡ [])
            (λ best. row ≡ columns_listed kinds.now best.steps)) }
    {
        listed_row(alloc, kinds, self.checker.row())
    }

    /// The gaps of the row that the log certifies, where the log of the items is accepted by the bound of its
    /// version: no arrangement of the fingers has fewer. Else the first cause to refuse it.
    pub fn finish(&self, alloc: Global) -> Result<u32, Refused>
        ensures accepted { IfOk result (λ gaps. ForSeenLog self.now (λ log. WithKinds self.now.fingers (λ k.
            IsAccepted (value_of log.version) k self.now.fingers log gaps))) }
        ensures refused { IfErr result (λ fault. fault ≢ because.NoMemory →
            ForSeenLog self.now (λ log. WithKinds self.now.fingers (λ k.
            Refuses (value_of log.version) k self.now.fingers log fault))) }
        ensures least { IfOk result (λ gaps. ForSeenLog self.now (λ log.
            (other : Sequence Column) → IsArrangement other self.now.fingers → gaps ≤ gaps_of other)) }
    {
        self.checker.finish(alloc)
    }
}
