// The first least row of some fingers, with a certificate by trails; and proofs by trails that every row has at
// least a number of gaps.
#![tactic(auto)]

mod attempts;
mod behind;
mod cut;
mod descent;
mod first;
mod found;
mod gate_order;
mod gates;
mod kept;
mod limits;
mod line;
mod listing;
mod lists;
mod nets;
mod proof;
mod refute;
mod relisted;
mod search;
mod units;
mod visit;

pub use attempts::Attempts;
pub use first::{ListedRow, first_row};
pub use found::{TrailFound, TrailStop};
pub use gate_order::order;
pub use gates::{fill, having_more, opened};
pub use search::search_trails;
