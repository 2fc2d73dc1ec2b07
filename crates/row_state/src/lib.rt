// The states of a row that is being built, their next columns, and bounds on the gaps that are
// still to come.
#![tactic(auto)]

pub mod bound;
pub mod candidate;
pub mod coding;
pub mod component;
pub mod empty;
pub mod found;
mod gate;
pub mod kind;
pub mod laws;
pub mod listing;
pub mod log_bound;
pub mod numbered;
pub mod parity;
pub mod state;
pub mod step;

pub use bound::{COMPONENT_LOG, PARITY_LOG, RowBound};
pub use candidate::{Candidate, Candidates, candidates};
pub use coding::{code, decode, row_number};
pub use component::Component;
pub use empty::EmptyPlaces;
pub use found::kinds;
pub use kind::{Kind, KindList, Kinds};
pub use laws::chained_classes;
pub use listing::successors;
pub use log_bound::LogBound;
pub use numbered::Numbered;
pub use parity::{Parity, count_empty};
pub use state::{Counts, State, columns, has_fingers, has_leads, is_state, start};
pub use step::{Side, Step, Steps, after, column, step_cost};
