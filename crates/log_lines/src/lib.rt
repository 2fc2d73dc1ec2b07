// The lines of a log's text: the words and numbers in them, and a line that comes in pieces.
#![tactic(auto)]

mod front;
mod lines;
mod name;
mod room;
mod word;

pub use front::LineFront;
pub use lines::{Line, find_feed, first_line};
pub use name::is_named;
pub use room::{LineRoom, MOST_LINE_BYTES};
pub use word::{Part, all_parts, few_parts, find_byte, first_part, is_word, number_below};
