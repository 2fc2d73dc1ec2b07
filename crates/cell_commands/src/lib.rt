// What `plan`, `make` and `check` result in, with any evidence: a log, a certificate by trails of any version, or
// one of tracks.
#![tactic(auto)]

mod best;
mod certificate;
mod checked_log;
mod counts;
mod drawing;
mod evidence;
mod given;
mod laws;
mod listed;
mod listed_row;
mod log_checker;
mod low;
mod low_check;
mod low_end;
mod low_evidence;
mod make_end;
mod make_report;
mod making;
mod planning;
mod relisted;
mod searched;
mod side;
mod trail_checking;
mod verdict;

pub use best::list_best;
pub use certificate::Certificate;
pub use checked_log::CheckedLog;
pub use evidence::RowEvidence;
pub use given::{make_from_log, make_from_trails};
pub use laws::{log_of_other_row, trails_of_other_row};
pub use listed_row::list_row;
pub use log_checker::LogChecker;
pub use low::make_low;
pub use low_check::check_low;
pub use making::make;
pub use planning::plan;
pub use searched::Searched;
pub use trail_checking::{TrailAnswer, check_by_trails};
pub use verdict::{CheckAnswer, check};
