// What a call of the program does, on a desk. What it leaves, by its command and its status, is in the definitions.
#![tactic(auto)]

mod call;
mod prepare;

pub use call::run;
pub use call_end::Status;
