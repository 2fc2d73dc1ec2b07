// The text of certificates by trails where half columns stay open: lemmas with the balances of pools.
#![tactic(auto)]

mod balance;
mod class;
mod lemma;
mod ordered;
mod place;
mod pools;
mod same;

pub use balance::{BalanceList, PoolBalance, Surplus};
pub use class::{ClassList, PlaceClass};
pub use lemma::{PoolLine, PoolLines};
pub use place::{ListedPlace, PlaceList};
pub use pools::{PoolCertificate, read_pools, write_pools};
