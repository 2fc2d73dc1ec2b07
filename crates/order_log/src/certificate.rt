use bound_log::{Best, Ending};
use cell_num::List;
use trail_log::NetList;

/// What a line after the order says: a lemma, or what follows the lemmas.
#[derive(Debug, Drop)]
pub enum OrderEntry<L> {
    Lemma(L),
    Ending(Ending),
}

/// A certificate by an order of gates: the gates whose half columns are filled, all gates in the order in which they
/// are chosen, lemmas, and the row that they certify, where one was found.
#[derive(Debug, Drop)]
pub struct OrderCertificate<L> {
    pub fill: NetList,
    pub order: NetList,
    pub lemmas: List<L>,
    pub best: Option<Best>,
}
