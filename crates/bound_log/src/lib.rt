// Logs that certify how few gaps a row can have.
#![tactic(auto)]

mod fault;
mod field;
mod head;
mod item;
mod kept;
mod law;
mod line;
mod log;
mod out;
mod read;
mod reader;
mod said;
mod spell;
mod write;
mod writer;

pub use fault::LogFault;
pub use item::{LogItem, LogPlace};
pub use kept::{Keeper, Kept};
pub use law::reads_in_pieces;
pub use line::{ending_of_words, state_of_words};
pub use log::{Best, Ending, Entry, Lemma, LemmaList, Log, LogStep, LogSteps, MOST_GAPS, Rule};
pub use read::{read_columns, read_end, read_log};
pub use reader::LogReader;
pub use said::Said;
pub use spell::put_state;
pub use write::write_log;
pub use writer::LineWriter;
