// Whether a row can be wired at all: a row whose lines put nets above others in a cycle has no legal routing.
#![tactic(auto)]

mod above;
pub mod check;
pub mod down;
pub mod justified;
pub mod known;
pub mod laws;
mod lemma;
pub mod lines;
pub mod next;
pub mod places;
mod refused;
pub mod searched;

pub use above::{AboveList, NetAbove};
pub use check::{check_cycles, first_unjustified, note_lemma};
pub use down::{has_cycle, has_cycle_from, is_above};
pub use justified::{CycleGrounds, is_justified};
pub use known::{NotedCycles, all_follow, covers};
pub use laws::{cycles_by_lemmas, wired_rows};
pub use lemma::{CycleLemma, CycleLemmas};
pub use lines::{add_end, add_step};
pub use next::left_after;
pub use places::Places;
pub use refused::CyclesRefused;
pub use searched::{numbered_start, row_of};
