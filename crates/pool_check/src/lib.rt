// Whether lemmas prove ends of trails along an order of gates whose half columns stay open.
#![tactic(auto)]

pub mod along;
mod check;
mod order;
mod refusal;
mod steps;
mod ways;

pub use along::PoolOrder;
pub use check::check_pools;
pub use order::is_order;
pub use refusal::PoolRefusal;
pub use steps::PoolSteps;
pub use ways::{MOST_CHOICES, first_with_many};
