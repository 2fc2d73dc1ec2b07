use crate::RuleNo;
use cell_num::List;
use thiserror::Error;

/// A broken rule and the lower left corner of the first cell that fails it by y, then x, in grid units.
#[derive(Clone, Copy, Debug, PartialEq, Eq)]
pub struct Violation {
    pub rule: RuleNo,
    pub x: i32,
    pub y: i32,
}

pub type Violations = List<Violation>;

/// Why a layout was not checked.
#[derive(Clone, Copy, Debug, PartialEq, Eq, Error)]
pub enum RuleFault {
    /// More than 10,000 rectangles.
    #[error("TooMany")]
    TooMany { count: u64 },
    #[error("NoMemory")]
    NoMemory,
}
