// Whether all tracks after some lines pass a test, without a list of them.
#![tactic(auto)]

mod splitting;
mod stepping;
mod straight;
mod test;
mod through;
mod turning;

pub use splitting::Splitting;
pub use stepping::{all_after, none_at_end};
pub use test::WayTest;
pub use through::all_through;
