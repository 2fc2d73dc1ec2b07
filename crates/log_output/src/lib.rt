// The text of a log on its way to a file or a report, line by line.
#![tactic(auto)]

mod block;
mod content;
mod kept_log;
mod log_buffers;
mod log_text;
mod target;

pub use content::Content;
pub use kept_log::KeptLog;
pub use log_text::LogText;
pub use target::Target;
