use crate::AboveList;
use cell_num::List;
use row_state::State;

/// Each completion of the state with at most that many further gaps has a cycle: of what its lines ask for, and of
/// these.
#[derive(Debug, Drop)]
pub struct CycleLemma {
    pub state: State,
    pub gaps: u32,
    pub above: AboveList,
}

/// The lemmas on cycles of a certificate, in order.
pub type CycleLemmas = List<CycleLemma>;
