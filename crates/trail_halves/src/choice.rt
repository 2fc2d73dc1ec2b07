ghost use Rattle.std.specs.Prelude.{◌++◌};
ghost use Rattle.std.specs.Hash as fed;
ghost use Rattle.std.specs.Hash.{same_Alike};
ghost use Rattle.trail_halves.specs.Same.{choice_decides};

use cell_num::List;
use std::hash::{Hash, Hasher};
use trail_state::Choice;
use trail_state::edge::FingerEnds;

/// Columns of a gate as edges and half edges, the nets at the ends of fingers of the counted row that stand alone.
/// Where the gate's half columns are filled with any nets it has no half edges.
#[derive(Debug, PartialEq, Eq, Drop)]
pub struct OpenChoice {
    pub edges: Choice,
    pub halves: List<FingerEnds>,
}

impl Hash for OpenChoice {
    ghost hash_input = { λ c. fed.slice (λ e. fed.u32 e.a.0 ++ fed.u32 e.b.0) c.edges
        ++ fed.slice (λ x. fed.u8 x.lo ++ fed.u8 x.hi) c.halves };

    ghost respects_eq = { (same_Alike (λ c. fed.slice (λ e. fed.u32 e.a.0 ++ fed.u32 e.b.0) c.edges
        ++ fed.slice (λ x. fed.u8 x.lo ++ fed.u8 x.hi) c.halves) choice_decides).fed };

    fn hash<H: Hasher>(&self, state: &mut H) {
        self.edges.as_slice().hash(state);
        self.halves.as_slice().hash(state);
    }
}
