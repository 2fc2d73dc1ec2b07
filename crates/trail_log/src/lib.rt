// The text of certificates of least gaps by trails: lists of nets, pairs of nets and classes of such pairs, and lemmas
// on states, gate by gate.
#![tactic(auto)]

mod class;
mod line;
mod listed;
mod nets;
mod ordered;
mod places;
mod read;
mod text;
mod trails;
mod write;

pub use class::{Class, ClassList, NetList, NetPair, NetPairs};
pub use read::read_trails;
pub use trails::{LemmaLine, LemmaLines, MOST_ENDS, TrailCertificate, TrailEntry};
pub use write::write_trails;
