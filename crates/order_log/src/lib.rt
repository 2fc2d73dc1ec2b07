// The text of certificates by an order of gates, whatever their lemmas say: lists, lines, reading and writing.
#![tactic(auto)]

mod certificate;
mod item;
mod lemma;
mod line;
mod list;
mod nets;
mod read;
mod write;

pub use certificate::{OrderCertificate, OrderEntry};
pub use item::Item;
pub use lemma::LemmaText;
pub use list::{increases, put_each, put_list, read_each, read_list, read_ordered};
pub use nets::{read_net, read_node};
pub use read::read_certificate;
pub use write::write_certificate;
