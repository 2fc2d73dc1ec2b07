// The first least row of some fingers, with a certificate whose lemmas tell the balances of pools.
#![tactic(auto)]

mod found;
mod gates;
mod laws;
mod left_out;
mod lemmas;
mod listed;
mod opening;
mod search;

pub use found::{PoolFound, PoolStop};
pub use laws::ways_without;
pub use left_out::{first_out, other_row};
pub use opening::Opening;
pub use search::search_pool_row;
