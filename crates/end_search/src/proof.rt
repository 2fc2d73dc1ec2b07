use cell_num::List;
use end_lemmas::EndLemma;

/// Why a search ends.
#[derive(Clone, Copy, Debug, PartialEq, Eq)]
pub enum SearchEnd {
    /// Some list of choices has fewer ends than the next number that would prove more gaps.
    Exact,
    /// As many gaps as were asked for are proved.
    Asked,
    /// Too few units were left for the next state.
    Spent,
}

/// Lemmas, each justified by those before it, and the ends that they prove from the start state on.
#[derive(Debug, Drop)]
pub struct EndProof<S> {
    pub lemmas: List<EndLemma<S>>,
    pub ends: u32,
    pub end: SearchEnd,
    /// The units of the budget that are left.
    pub left: u64,
}
