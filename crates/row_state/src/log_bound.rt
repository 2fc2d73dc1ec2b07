ghost use Rattle.std.specs.Prelude.{refl, ◌≡◌, ◌↔◌, IfSome, IsNone};
ghost use Rattle.row_state.specs.LogBounds.{log_bound_holds, log_bound_known, log_trails, log_version};
ghost use Rattle.row_state.specs.Versions.{IsVersion, value_of};

use crate::{COMPONENT_LOG, Component, Kinds, PARITY_LOG, Parity, RowBound, State};
use cell_num::Row;

/// The bound that the logs of a version rest on.
#[derive(Clone, Copy, Debug, PartialEq, Eq)]
pub enum LogBound {
    /// The parity bound, of logs of version 1.
    One,
    /// The component bound, of logs of version 2.
    Two,
}

impl LogBound {
    /// The bound of the version, where logs may have it.
    pub fn of(version: u32) -> Option<LogBound>
        ensures version { IfSome result (λ bound. log_version bound ≡ version) }
        ensures unknown { IsNone result ↔ (IsVersion version → ⊥) }
    {
        match version {
            PARITY_LOG => Some(LogBound::One),
            COMPONENT_LOG => Some(LogBound::Two),
            _ => None,
        }
    }
}

impl RowBound for LogBound {
    ghost value = { λ b. value_of (log_version b) };

    ghost trails_of = { λ b row end left k. log_trails b row end left k };

    ghost version_of = { λ b. log_version b };

    ghost holds = { λ b row s k some valid. log_bound_holds b row s k some };

    ghost known = { λ b. log_bound_known b };

    fn bound(&self, row: Row, state: &State, kinds: &Kinds) -> u32 {
        match self {
            LogBound::One => Parity.bound(row, state, kinds),
            LogBound::Two => Component.bound(row, state, kinds),
        }
    }

    fn trails(&self, row: Row, state: &State, kinds: &Kinds) -> u32 {
        match self {
            LogBound::One => Parity.trails(row, state, kinds),
            LogBound::Two => Component.trails(row, state, kinds),
        }
    }

    fn is_above(
        &self,
        row: Row,
        state: &State,
        kinds: &Kinds,
        trails: u32,
        empty: u32,
        most: u32,
    ) -> bool {
        match self {
            LogBound::One => Parity.is_above(row, state, kinds, trails, empty, most),
            LogBound::Two => Component.is_above(row, state, kinds, trails, empty, most),
        }
    }

    fn version(&self) -> u32 {
        match self {
            LogBound::One => Parity.version(),
            LogBound::Two => Component.version(),
        }
    }
}
