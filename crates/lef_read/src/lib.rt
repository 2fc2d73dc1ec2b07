// The macros of a LEF library, read in grid units, and whether one of them agrees with a drawing.
#![tactic(auto)]

mod block;
pub mod block_kind;
pub mod cell;
pub mod claim;
mod compare;
mod cursor;
pub mod differ;
mod draft;
pub mod fault;
mod fit;
mod grid;
mod keyword;
pub mod laws;
mod library;
mod metal;
mod number;
mod pin;
mod read;
mod region;
mod scan;
mod sides;
mod stage;
mod statements;
mod token;

pub use cell::{LefPin, LefPinList, LefRect, LefRectList, Macro};
pub use compare::agree;
pub use differ::Differ;
pub use fault::LefFault;
pub use laws::{never_memory, one_answer};
pub use read::read_macro;
