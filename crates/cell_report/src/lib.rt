// The lines that are reported of a row, of a drawn cell, of a cycle, of a log, of a layout, and of faults.
#![tactic(auto)]

mod abstract_faults;
mod cells;
mod fault_line;
mod faults;
mod layout_faults;
mod logs;
mod names;
mod netlist;
mod reports;
mod ring;
mod row;
mod row_faults;
mod texts;
mod track_faults;
mod trail_faults;
mod violations;

pub use abstract_faults::{put_differ, put_lef};
pub use cells::{put_fewest, put_sizes, put_tall};
pub use faults::{put_fold, put_log, put_refused, put_spice, put_tech};
pub use layout_faults::{put_extract, put_gds, put_rules};
pub use logs::{put_checked, put_low_checked, put_unfinished};
pub use netlist::put_netlist;
pub use reports::{cycle_report, log_unfinished, open_ring_report, tall_report, unfinished_report};
pub use ring::put_ring;
pub use row::{put_plan, put_row};
pub use row_faults::put_row_fault;
pub use texts::{cycle_text, netlist_text, plan_text, violation_text};
pub use track_faults::{put_track_refusal, put_tracks};
pub use trail_faults::{put_trail_refusal, put_trails};
pub use violations::put_violations;
