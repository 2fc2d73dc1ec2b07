use cell_num::{List, NetNo};
use row_state::{State, Step};

/// The most gaps, and the greatest bound, that the text of a log can hold.
pub const MOST_GAPS: u64 = 63;

/// Why a lemma holds: the bound of one row of its state, or all next columns.
#[derive(Clone, Copy, Debug, PartialEq, Eq)]
pub enum Rule {
    P,
    N,
    Branch,
}

/// No completion of the state has fewer further gaps than the bound.
#[derive(Clone, Debug, Drop)]
pub struct Lemma {
    pub state: State,
    pub bound: u32,
    pub rule: Rule,
}

/// The lemmas of a log, each after those that it needs.
pub type LemmaList = List<Lemma>;

/// What the line after the lemmas says: the gaps of a row whose columns are listed, or that none is.
#[derive(Clone, Copy, Debug)]
pub enum Ending {
    Gaps(u32),
    Open,
}

/// What a line says after the name: a lemma, or what follows the lemmas.
#[derive(Debug, Drop)]
pub enum Entry {
    Lemma(Lemma),
    Ending(Ending),
}

/// A column of the row, by its gate and the kinds of its fingers.
#[derive(Clone, Copy, Debug, PartialEq, Eq)]
pub struct LogStep {
    pub gate: NetNo,
    pub step: Step,
}

/// The columns of a row, from left to right, as a log lists them.
pub type LogSteps = List<LogStep>;

/// The row that a log certifies, and its gaps.
#[derive(Clone, Debug, Drop)]
pub struct Best {
    pub gaps: u32,
    pub steps: LogSteps,
}

/// Lemmas on states, and the row that they certify, where the search found one. The version names the
/// bound that the lemmas rest on: [`PARITY_LOG`](row_state::PARITY_LOG) or
/// [`COMPONENT_LOG`](row_state::COMPONENT_LOG).
#[derive(Debug, Drop)]
pub struct Log {
    pub version: u32,
    pub lemmas: LemmaList,
    pub best: Option<Best>,
}
