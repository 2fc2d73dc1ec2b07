// The files that a call reads, in order, up to the first refusal.
#![tactic(auto)]

mod abstracts;
mod drawing;
mod inputs;
mod read;
mod refusal;

pub use abstracts::read_macro;
pub use drawing::read_shapes;
pub use inputs::{read_inputs, read_technology};
pub use read::{FileBytes, Source, read_file, read_to};
pub use refusal::Refusal;
