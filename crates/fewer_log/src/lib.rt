// The text of certificates by trails whose lemmas are about all fingers, or about all but those of a row on some gates.
#![tactic(auto)]

mod certificate;
mod line;
mod read;
mod write;

pub use certificate::FewerCertificate;
pub use read::read_fewer;
pub use write::write_fewer;
