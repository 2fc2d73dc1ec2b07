ghost use Rattle.std.specs.Prelude.{ℕ, ◌≡◌, ◌≤◌, ◌+◌, ◌++◌, ◌∷◌, [], cond, List, All, IfOk, OnOk, length};
ghost use Rattle.cell_num.specs.declared.net.Pins.{Pins as APins};
ghost use Rattle.cell_num.specs.declared.finger.Fingers.{Fingers as AFingers};
ghost use Rattle.cell_num.specs.Pins.{ArePins};
ghost use Rattle.cell_num.specs.Fingers.{AreSound};
ghost use Rattle.row_model.specs.Arrangement.{IsColumn, IsArrangement};
ghost use Rattle.row_place.specs.Units.{gap_between, units_of, seats_of};
ghost use Rattle.row_place.specs.declared.placement.UnitKind.TheVariants.{Gap};
ghost use Rattle.row_place.specs.Places.{IsPlacement, placement_of};
ghost use Rattle.row_place.specs.Trunks.{HasPins};
ghost use Rattle.row_place.specs.Steps.{first_net, node_at, nodes_below, gates_of};

use crate::{
    GateList, MOST_UNITS, NodeList, NodePlace, Placement, Seat, SeatList, UnitKind, UnitList,
};
use cell_num::{MOST_COLUMNS, NetNo, NoMemory, Row};
use row_model::{Arrangement, Column, has_gap};
use std::alloc::Global;

// The units of a row, and its columns with theirs.
#[derive(Drop)]
struct Spread {
    units: UnitList,
    seats: SeatList,
}

fn is_behind_gap(before: &Option<Column>, column: &Column) -> bool
    ensures { gap_between before.now column.now ≡ cond result (Gap ∷ []) [] }
{
    match before {
        Some(before) => has_gap(before, column),
        None => false,
    }
}

fn walk(alloc: Global, columns: &[Column]) -> Result<Spread, NoMemory>
    requires { length columns.now ≤ MOST_COLUMNS }
    ensures units { IfOk result (λ s. s.units ≡ units_of columns.now) }
    ensures seats { IfOk result (λ s. s.seats ≡ seats_of columns.now) }
    ensures few { IfOk result (λ s. All (λ seat. seat.unit ≤ MOST_UNITS) s.seats) }
    ensures few_units { IfOk result (λ s. length s.units ≤ MOST_UNITS) }
{
    let mut units = UnitList::new(alloc);
    let mut seats = SeatList::new(alloc);
    let mut before = None;
    for column in columns {
        if is_behind_gap(&before, column) {
            units.push(UnitKind::Gap)?;
        }
        let unit = units.len() as u32;
        seats.push(Seat {
            column: *column,
            unit,
        })?;
        units.push(UnitKind::Column)?;
        before = Some(*column);
    }
    Ok(Spread { units, seats })
}

// The net at a node line of a row. All ends that meet there have it.
fn net_at(seats: &[Seat], row: Row, line: u32) -> Option<NetNo>
    requires { All (λ seat. seat.unit ≤ MOST_UNITS) seats.now }
    ensures { result ≡ first_net row line seats.now }
{
    for seat in seats {
        let net = seat.end_at(row, line);
        if net.is_some() {
            return net;
        }
    }
    None
}

fn add_node(nodes: &mut NodeList, seats: &[Seat], row: Row, line: u32) -> Result<(), NoMemory>
    requires { All (λ seat. seat.unit ≤ MOST_UNITS) seats.now }
    ensures { OnOk result (nodes.new ≡ nodes.old ++ node_at row line seats.now) }
{
    match net_at(seats, row, line) {
        Some(net) => nodes.push(NodePlace { row, line, net }),
        None => Ok(()),
    }
}

fn nodes(alloc: Global, seats: &[Seat], units: u32) -> Result<NodeList, NoMemory>
    requires seats { All (λ seat. seat.unit ≤ MOST_UNITS) seats.now }
    requires units { units ≤ MOST_UNITS }
    ensures { IfOk result (λ nodes. nodes ≡ nodes_below seats.now (units + 1)) }
{
    let mut nodes = NodeList::new(alloc);
    for unit in 0..units + 1 {
        add_node(&mut nodes, seats, Row::N, 2 * unit)?;
        add_node(&mut nodes, seats, Row::P, 2 * unit)?;
    }
    Ok(nodes)
}

fn gates(alloc: Global, seats: &[Seat]) -> Result<GateList, NoMemory>
    requires { All (λ seat. seat.unit ≤ MOST_UNITS) seats.now }
    ensures { IfOk result (λ gates. gates ≡ gates_of seats.now) }
{
    let mut gates = GateList::new(alloc);
    for seat in seats {
        if let Some(gate) = seat.gate() {
            gates.push(gate)?;
        }
    }
    Ok(gates)
}

/// The columns of a row of at most `MOST_COLUMNS`, each with the unit that it is.
pub fn seats(alloc: Global, row: &Arrangement) -> Result<SeatList, NoMemory>
    requires few { length row.now ≤ MOST_COLUMNS }
    ensures { IfOk result (λ seats. seats ≡ seats_of row.now) }
{
    let Spread { seats, .. } = walk(alloc, row.as_slice())?;
    Ok(seats)
}

/// Puts a row of at most `MOST_COLUMNS` columns on its lines.
pub fn place(alloc: Global, row: &Arrangement) -> Result<Placement, NoMemory>
    requires columns { All IsColumn row.now }
    requires few { length row.now ≤ MOST_COLUMNS }
    ensures exact { IfOk result (λ placement. placement ≡ placement_of row.now) }
    ensures places { IfOk result IsPlacement }
    // in an arrangement of a cell's fingers each pin other than the rails has a place
    ensures pins { IfOk result (λ placement. (names : List (List ℕ)) (pins : APins) (f : AFingers)
        → AreSound names pins f → ArePins f.nets pins → IsArrangement row.now f → HasPins placement pins) }
{
    let columns = row.as_slice();
    let mut copy = Arrangement::new(alloc);
    copy.extend(columns)?;
    let Spread { units, seats } = walk(alloc, columns)?;
    let nodes = nodes(alloc, seats.as_slice(), units.len() as u32)?;
    let gates = gates(alloc, seats.as_slice())?;
    Ok(Placement {
        row: copy,
        units,
        nodes,
        gates,
    })
}
