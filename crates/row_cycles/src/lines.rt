// Which nets the lines of a row put above others.
ghost use Rattle.std.specs.Prelude.{◌≡◌, ◌++◌, OnOk};
ghost use Rattle.row_place.specs.Steps.{or_else};
ghost use Rattle.track_ways.specs.Paths.{lines_to};
ghost use Rattle.track_ways.specs.Rows.{is_gap_behind, left_end};
ghost use Rattle.row_cycles.specs.Above.{above_end, above_ends, above_of};

use crate::{AboveList, NetAbove};
use cell_num::{NetNo, NoMemory, Pins};
use row_model::{Column, Placed};
use row_state::State;
use row_trails::cost_at_ends;

fn left_end(place: &Option<Placed>) -> Option<NetNo>
    ensures { result ≡ left_end place.now }
{
    match place {
        Some(x) => Some(x.left()),
        None => None,
    }
}

fn or_else(end: Option<NetNo>, other: Option<NetNo>) -> Option<NetNo>
    ensures { result ≡ or_else end other }
{
    match end {
        Some(net) => Some(net),
        None => other,
    }
}

fn is_gap(state: &State, column: &Column) -> bool
    ensures { result ≡ is_gap_behind state.now.p_end state.now.n_end column.now }
{
    cost_at_ends(&state.p_end, &state.n_end, column) == 1
}

// What a node line with these ends asks for.
fn add_ends(
    above: &mut AboveList,
    pins: &Pins,
    p: Option<NetNo>,
    n: Option<NetNo>,
) -> Result<(), NoMemory>
    ensures { OnOk result (above.new ≡ above.old ++ above_ends pins.now p n) }
{
    if let (Some(upper), Some(lower)) = (p, n) {
        if !(upper.0 == lower.0 || (pins.is_rail(upper) || pins.is_rail(lower))) {
            above.push(NetAbove { upper, lower })?;
        }
    }
    Ok(())
}

/// Adds what the lines from the state's last node line to the gate of the column ask for.
pub fn add_step(
    above: &mut AboveList,
    pins: &Pins,
    state: &State,
    column: &Column,
) -> Result<(), NoMemory>
    ensures { OnOk result (above.new ≡ above.old ++ above_of pins.now (lines_to state.now column.now)) }
{
    let p = left_end(&column.p);
    let n = left_end(&column.n);
    if is_gap(state, column) {
        add_ends(above, pins, state.p_end, state.n_end)?;
        add_ends(above, pins, p, n)?;
    } else {
        add_ends(
            above,
            pins,
            or_else(state.p_end, p),
            or_else(state.n_end, n),
        )?;
    }
    Ok(())
}

/// Adds what the line at the state's open ends asks for, where it is the last one.
pub fn add_end(above: &mut AboveList, pins: &Pins, state: &State) -> Result<(), NoMemory>
    ensures { OnOk result (above.new ≡ above.old ++ above_end pins.now state.now) }
{
    add_ends(above, pins, state.p_end, state.n_end)
}
