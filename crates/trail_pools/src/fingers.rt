ghost use Rattle.std.specs.Prelude.{◌≡◌, All, IfOk};
ghost use Rattle.std.specs.List.{filter};
ghost use Rattle.trail_state.specs.Choices.{is_on};
ghost use Rattle.trail_state.specs.Edges.{edge_of, pair_edges};
ghost use Rattle.trail_state.specs.Pairings.{HasSmallEnds};
ghost use Rattle.trail_pools.specs.Choices.{column_edges, ends_on};

use cell_num::{Finger, Row};
use std::alloc::{AllocError, Global};
use trail_state::edge::FingerEnds;
use trail_state::gate::all_nets;
use trail_state::nodes::on_gate;
use trail_state::{Edge, between};

/// The fingers on the gate by the nets at their ends.
pub(crate) fn ends_on(
    alloc: Global,
    gate: u32,
    fingers: &[Finger],
) -> Result<Vec<FingerEnds>, AllocError>
    requires { All HasSmallEnds (filter (is_on gate) fingers.now) }
    ensures { IfOk result (λ all. all.items ≡ ends_on gate fingers.now) }
{
    let on = on_gate(alloc, gate, fingers)?;
    all_nets(alloc, on.as_slice())
}

fn edge(p_left: u8, n_left: u8, p_right: u8, n_right: u8) -> Edge
    ensures { result ≡ edge_of p_left n_left p_right n_right }
{
    between(
        256 * u32::from(p_left) + u32::from(n_left),
        256 * u32::from(p_right) + u32::from(n_right),
    )
}

fn pair(x: FingerEnds, y: FingerEnds) -> [Edge; 2]
    ensures { result ≡ pair_edges x y }
{
    [edge(x.lo, y.lo, x.hi, y.hi), edge(x.lo, y.hi, x.hi, y.lo)]
}

/// The edges of a column of a finger of the row and one of the other row: turned alike, or not.
pub(crate) fn column_edges(row: Row, x: FingerEnds, y: FingerEnds) -> [Edge; 2]
    ensures { result ≡ column_edges row x y }
{
    match row {
        Row::P => pair(x, y),
        Row::N => pair(y, x),
    }
}
