// The states that lines of certificates with pools list, by the levels of an order.
#![tactic(auto)]

mod balances;
mod line;
mod listed;
mod places;
mod text;

pub use line::line_of;
pub use listed::state_listed;
pub use text::is_text_of_state;
