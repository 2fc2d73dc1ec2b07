// Ends of trails along an order of gates where half columns stay open: laws, the levels of an order with the choices
// of each gate, and the state after a choice.
#![tactic(auto)]

mod balance;
mod candidates;
mod choices;
pub mod closed;
mod fingers;
mod front;
mod laws;
pub mod level;
mod links;
mod nodes;
mod places;
pub mod pools;
pub mod settle;
mod short;
pub mod state;

pub use choices::{has_long_front, open_choices, stays_open};
pub use laws::{all_open_choices, along_order, open_levels, pool_ends};
pub use level::{OpenPlaces, PoolLevel, levels};
pub use pools::Pools;
pub use settle::{PoolSettled, after};
pub use state::{Balance, PoolState};
