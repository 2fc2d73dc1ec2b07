// The outside of the program: files that are read and made, and text that is said.
#![tactic(auto)]

mod chunk_size;
pub mod desk;
mod files;
pub mod host;
pub mod mem;
pub mod output;
mod reading;
pub mod sink;
pub mod steady;
pub mod whole;

pub use desk::{Desk, DeskAnswer};
pub use host::HostDesk;
pub use mem::{CallList, File, FileList, MemDesk};
pub use output::{WriteFault, append_all, say_all, write_all};
pub use reading::read_memory;
pub use sink::Sink;
pub use steady::SteadyDesk;
pub use whole::{ReadFault, read_all, read_into};
