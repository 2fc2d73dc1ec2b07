// The lines of a row: the least ones with the trunks of its channel, and even ones.
ghost use Rattle.std.specs.Prelude.{◌≤◌, All, length};
ghost use Rattle.row_model.specs.Arrangement.{IsColumn};
ghost use Rattle.row_place.specs.Places.{IsPlacement};
ghost use Rattle.row_place.specs.Trunks.{HasPins};

use crate::columns::{both, placed, rails_at};
use crate::pin_places::have_places;
use crate::texts::prints;
use cell_num::{MOST_COLUMNS, NoMemory, Pins};
use channel_route::route;
use row_compact::{LineXs, distances, even_lines, least_lines};
use row_model::Column;
use row_place::Placement;
use std::alloc::{AllocError, Global};
use std::test::Fail;

// A cycle gives NoMemory, which no row of the tests expects.
fn least(alloc: Global, row: &Placement, pins: &Pins) -> Result<LineXs, NoMemory>
    requires row { IsPlacement row.now }
    requires pins { HasPins row.now pins.now }
{
    match route(alloc, row, pins) {
        Ok(routing) => least_lines(alloc, &distances(alloc, row, &routing, pins)?),
        Err(_) => Err(NoMemory),
    }
}

// A pin without a place gives NoMemory, which no row of the tests expects.
fn lines(alloc: Global, columns: &[Column], vdd: u32) -> Result<LineXs, NoMemory>
    requires columns { All IsColumn columns.now }
    requires few { length columns.now ≤ MOST_COLUMNS }
    requires vdd { vdd ≤ 100 }
{
    let row = placed(alloc, columns)?;
    let pins = rails_at(vdd);
    if !have_places(&row, &pins) {
        return Err(NoMemory);
    }
    least(alloc, &row, &pins)
}

fn are_even(alloc: Global, want: &str) -> Result<bool, AllocError> {
    prints(alloc, &even_lines(alloc, 3), want)
}

// An inverter with the pins a y vdd gnd. Then a NAND2 with the pins a b y vdd gnd and the inner net 5, which has no
// contact; the fingers of b are flipped.
#[test]
fn finds_lines(rt: HostRuntime) -> Result<(), Fail> {
    let alloc = rt.alloc();
    let found = lines(alloc, &[both(0, (1, 2), (1, 3))], 2);
    assert!(rt; prints(alloc, &found, "Ok(List { items: [8, 22, 33] })")?);
    let found = lines(
        alloc,
        &[both(0, (2, 3), (2, 5)), both(1, (3, 2), (5, 4))],
        3,
    );
    assert!(rt; prints(alloc, &found, "Ok(List { items: [8, 19, 30, 41, 52] })")?);
    assert!(rt; are_even(alloc, "Ok(List { items: [8, 22, 36] })")?);
    Ok(())
}
