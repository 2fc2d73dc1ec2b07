// The lines of a next column, and the last line.
ghost use Rattle.std.specs.Prelude.{◌≡◌, ◌∷◌, [], IfOk, false};
ghost use Rattle.cell_num.specs.declared.net.NetNo.{NetNo as NetOf};
ghost use Rattle.row_model.specs.Arrangement.{gate_in};
ghost use Rattle.row_place.specs.Steps.{or_else};
ghost use Rattle.track_ways.specs.Rows.{gate_line, is_gap_behind, left_end, node_line};
ghost use Rattle.track_ways.specs.Paths.{lines_to};
ghost use Rattle.track_ways.specs.Tables.{marked};

use crate::line::Line;
use cell_num::NetNo;
use row_model::{Column, Placed};
use row_state::State;
use row_trails::{NETS, cost_at_ends};
use std::alloc::{AllocError, Global};

fn node_line(p: Option<NetNo>, n: Option<NetNo>) -> Line
    ensures { result ≡ node_line p n }
{
    Line { p, n, gate: None }
}

fn left_end(place: &Option<Placed>) -> Option<NetNo>
    ensures { result ≡ left_end place.now }
{
    match place {
        Some(x) => Some(x.left()),
        None => None,
    }
}

fn or_else(end: Option<NetNo>, other: Option<NetNo>) -> Option<NetNo>
    ensures { result ≡ or_else end other }
{
    match end {
        Some(net) => Some(net),
        None => other,
    }
}

fn gate_line(column: &Column) -> Line
    ensures { result ≡ gate_line column.now }
{
    Line {
        p: None,
        n: None,
        gate: column.gate(),
    }
}

fn is_gap(state: &State, column: &Column) -> bool
    ensures { result ≡ is_gap_behind state.now.p_end state.now.n_end column.now }
{
    cost_at_ends(&state.p_end, &state.n_end, column) == 1
}

/// The lines from the state's last node line to the gate of the column.
pub fn lines_to(alloc: Global, state: &State, column: &Column) -> Result<Vec<Line>, AllocError>
    ensures { IfOk result (λ lines. lines.items ≡ lines_to state.now column.now) }
{
    let p = left_end(&column.p);
    let n = left_end(&column.n);
    let mut lines = Vec::new(alloc);
    if is_gap(state, column) {
        lines.push(node_line(state.p_end, state.n_end))?;
        lines.push(node_line(None, None))?;
        lines.push(node_line(p, n))?;
    } else {
        lines.push(node_line(or_else(state.p_end, p), or_else(state.n_end, n)))?;
    }
    lines.push(gate_line(column))?;
    Ok(lines)
}

/// The line at the state's open ends, where it is the last one.
pub fn last_line(alloc: Global, state: &State) -> Result<Vec<Line>, AllocError>
    ensures { IfOk result (λ lines. lines.items ≡ node_line state.now.p_end state.now.n_end ∷ []) }
{
    let mut lines = Vec::new(alloc);
    lines.push(node_line(state.p_end, state.n_end))?;
    Ok(lines)
}

/// The table of no net.
#[tactic(auto, using(crate::proofs::Tables::none_marked))]
pub fn no_nets() -> [bool; NETS]
    ensures { marked result ≡ (λ (net : NetOf). false) }
{
    [false; NETS]
}
