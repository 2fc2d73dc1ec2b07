// An inverter: its column, its pins, and its cell.
ghost use Rattle.std.specs.Prelude.{◌≡◌, ◌≤◌, ◌∷◌, [], codes, IfOk, OnOk, length};
ghost use Rattle.cell_num.specs.Pins.{ArePins};
ghost use Rattle.cell_draw.specs.Sound.{IsSoundRow};

use crate::texts::add_name;
use cell_num::{Finger, Names, NetNo, NoMemory, Pins, Row};
use row_model::{Arrangement, Column, Placed};
use std::alloc::Global;

#[derive(Drop)]
pub struct Cell {
    pub names: Names,
    pub pins: Pins,
    pub row: Arrangement,
}

const P_FINGER: Placed = Placed {
    finger: Finger {
        row: Row::P,
        gate: NetNo(0),
        lo: NetNo(1),
        hi: NetNo(2),
        width: 20,
    },
    flipped: false,
};

const N_FINGER: Finger = Finger {
    row: Row::N,
    gate: NetNo(0),
    lo: NetNo(1),
    hi: NetNo(3),
    width: 10,
};

// The inverter's column.
pub const COLUMN: Column = Column {
    p: Some(P_FINGER),
    n: Some(Placed {
        finger: N_FINGER,
        flipped: false,
    }),
};

pub const PINS: Pins = Pins {
    pins: 4,
    vdd: NetNo(2),
    gnd: NetNo(3),
};

fn add_pins(alloc: Global, names: &mut Names) -> Result<(), NoMemory>
    requires { names.old ≡ [] }
    ensures { OnOk result (names.new ≡ codes "a" ∷ codes "y" ∷ codes "vdd" ∷ codes "gnd" ∷ []) }
{
    add_name(alloc, names, b"a")?;
    add_name(alloc, names, b"y")?;
    add_name(alloc, names, b"vdd")?;
    add_name(alloc, names, b"gnd")
}

pub fn pin_names(alloc: Global) -> Result<Names, NoMemory>
    ensures { IfOk result (λ names. names ≡ codes "a" ∷ codes "y" ∷ codes "vdd" ∷ codes "gnd" ∷ []) }
{
    let mut names = Names::new(alloc);
    add_pins(alloc, &mut names)?;
    Ok(names)
}

// The inverter, pins `a y vdd gnd`: its P finger is 20 wide, its N finger 10.
#[tactic(auto, using(crate::proofs::Inverter::sound_if))]
pub fn inverter(alloc: Global) -> Result<Cell, NoMemory>
    ensures sound { IfOk result (λ cell. IsSoundRow cell.names cell.pins cell.row) }
    ensures pins { IfOk result (λ cell. ArePins (length cell.names) cell.pins) }
    ensures few { IfOk result (λ cell. length cell.row ≤ 32) }
{
    let names = pin_names(alloc)?;
    let mut row = Arrangement::new(alloc);
    row.push(COLUMN)?;
    Ok(Cell {
        names,
        pins: PINS,
        row,
    })
}
