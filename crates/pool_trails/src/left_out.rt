// Which fingers are left out.
ghost use Rattle.std.specs.Prelude.{◌≡◌, IfOk};
ghost use Rattle.cell_num.specs.Fingers.{AreFingers};
ghost use Rattle.pool_trails.specs.Opening.{all_nets, first_out, gates_left_out, is_left_out, left_out, lost_by};
ghost use Rattle.pool_trails.specs.Opening.{open_with_more, other_row, out_of};

use crate::Opening;
use cell_num::{Fingers, List, NetNo, NoMemory, Row};
use fewer_fingers::{LeftOut, columns_lost, staying};
use open_gates::OpenGates;
use pool_check::MOST_CHOICES;
use std::alloc::{AllocError, Global};
use trail_log::NetList;
use trail_pools::has_long_front;
use trail_search::having_more;

/// The row that is not this one.
pub fn other_row(row: Row) -> Row
    ensures { result ≡ other_row row }
{
    match row {
        Row::P => Row::N,
        Row::N => Row::P,
    }
}

fn all_nets(alloc: Global, fingers: &Fingers) -> Result<Vec<NetNo>, AllocError>
    ensures { IfOk result (λ nets. nets.items ≡ all_nets fingers.now) }
{
    (0..fingers.nets).map(|net| NetNo(net)).collect(alloc)
}

// The gates with more fingers in the row, left open.
fn open_with_more(
    alloc: Global,
    row: Row,
    fingers: &Fingers,
    nets: &[NetNo],
) -> Result<OpenGates, NoMemory>
    requires { nets.now ≡ all_nets fingers.now }
    ensures { IfOk result (λ opened. opened ≡ open_with_more row fingers.now) }
{
    let gates = having_more(alloc, row, fingers, nets)?;
    Ok(OpenGates {
        row,
        gates: List::from_vec(gates),
    })
}

fn is_left_out(
    alloc: Global,
    row: Row,
    fingers: &Fingers,
    opened: &OpenGates,
    gate: &NetNo,
) -> Result<bool, NoMemory>
    requires fingers { AreFingers fingers.now }
    requires opened { opened.now ≡ open_with_more (other_row row) fingers.now }
    ensures { IfOk result (λ is. is ≡ is_left_out row fingers.now gate.now) }
{
    has_long_front(alloc, fingers, opened, *gate, MOST_CHOICES)
}

fn gates_left_out(alloc: Global, row: Row, fingers: &Fingers) -> Result<NetList, NoMemory>
    requires { AreFingers fingers.now }
    ensures { IfOk result (λ gates. gates ≡ gates_left_out row fingers.now) }
{
    let nets = all_nets(alloc, fingers)?;
    let opened = open_with_more(alloc, other_row(row), fingers, nets.as_slice())?;
    let mut gates = List::new(alloc);
    for gate in nets.as_slice() {
        if is_left_out(alloc, row, fingers, &opened, gate)? {
            gates.push(*gate)?;
        }
    }
    Ok(gates)
}

fn left_out(alloc: Global, row: Row, fingers: &Fingers) -> Result<Option<LeftOut>, NoMemory>
    requires { AreFingers fingers.now }
    ensures { IfOk result (λ out. out ≡ left_out row fingers.now) }
{
    let gates = gates_left_out(alloc, row, fingers)?;
    if gates.len() == 0 {
        Ok(None)
    } else {
        Ok(Some(LeftOut { row, gates }))
    }
}

/// The fingers that are left out, where any are.
pub(crate) fn out_of(
    alloc: Global,
    opening: Opening,
    fingers: &Fingers,
) -> Result<Option<LeftOut>, NoMemory>
    requires { AreFingers fingers.now }
    ensures { IfOk result (λ out. out ≡ out_of opening fingers.now) }
{
    match opening {
        Opening::Longer | Opening::Crowded => Ok(None),
        Opening::Without(row) => left_out(alloc, row, fingers),
    }
}

// How many columns less the fingers need that stay.
fn lost_by(alloc: Global, opening: Opening, fingers: &Fingers) -> Result<u32, NoMemory>
    requires { AreFingers fingers.now }
    ensures { IfOk result (λ lost. lost ≡ lost_by opening fingers.now) }
{
    let out = out_of(alloc, opening, fingers)?;
    let others = staying(alloc, &out, fingers)?;
    Ok(columns_lost(fingers, &others))
}

/// The row whose fingers `Without` leaves out with fewer columns lost, N where as many are. Each column lost takes a
/// gap from what lemmas prove.
pub fn first_out(alloc: Global, fingers: &Fingers) -> Result<Row, NoMemory>
    requires { AreFingers fingers.now }
    ensures { IfOk result (λ row. row ≡ first_out fingers.now) }
{
    let lost_p = lost_by(alloc, Opening::Without(Row::P), fingers)?;
    let lost_n = lost_by(alloc, Opening::Without(Row::N), fingers)?;
    if lost_p < lost_n {
        Ok(Row::P)
    } else {
        Ok(Row::N)
    }
}
