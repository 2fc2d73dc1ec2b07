// First routings by pieces. Another program listed all legal ones of these rows.

ghost use Rattle.std.specs.Prelude.{◌≤◌, All, length};
ghost use Rattle.row_model.specs.Arrangement.{IsColumn};
ghost use Rattle.row_place.specs.Places.{IsPlacement};

use crate::columns::{both, placed, rails_at};
use crate::pieces::{APART, FEWER, MORE, RING};
use crate::pin_places::have_places;
use crate::texts::prints;
use cell_num::MOST_COLUMNS;
use dogleg_route::PieceRouting;
use first_pieces::first_pieces;
use first_route::FirstStop;
use row_model::Column;
use row_place::Placement;
use std::alloc::Global;
use std::test::Fail;

// A pin without a place gives NoMemory, which no row of the tests expects.
fn first_of(
    alloc: Global,
    row: &Placement,
    vdd: u32,
    tracks: u32,
    budget: u64,
) -> Result<PieceRouting, FirstStop>
    requires row { IsPlacement row.now }
    requires vdd { vdd ≤ 100 }
{
    let pins = rails_at(vdd);
    if !have_places(row, &pins) {
        return Err(FirstStop::NoMemory);
    }
    let mut left = budget;
    first_pieces(alloc, row, &pins, tracks, &mut left)
}

fn first(
    alloc: Global,
    columns: &[Column],
    vdd: u32,
    tracks: u32,
    budget: u64,
) -> Result<PieceRouting, FirstStop>
    requires columns { All IsColumn columns.now }
    requires few { length columns.now ≤ MOST_COLUMNS }
    requires vdd { vdd ≤ 100 }
{
    match placed(alloc, columns) {
        Ok(row) => first_of(alloc, &row, vdd, tracks, budget),
        Err(_) => Err(FirstStop::NoMemory),
    }
}

const FEWER_ON_THREE: &str = "Ok(PieceRouting { tracks: 3, pieces: List { items: [\
    Trunk { net: NetNo(0), left: 0, right: 0, track: 0 }, \
    Trunk { net: NetNo(1), left: 4, right: 4, track: 2 }, \
    Trunk { net: NetNo(2), left: 0, right: 2, track: 1 }, \
    Trunk { net: NetNo(2), left: 2, right: 4, track: 0 }] } })";

// Each piece on its least free track takes three.
const MORE_ON_TWO: &str = "Ok(PieceRouting { tracks: 2, pieces: List { items: [\
    Trunk { net: NetNo(0), left: 1, right: 6, track: 0 }, \
    Trunk { net: NetNo(1), left: 0, right: 2, track: 1 }, \
    Trunk { net: NetNo(1), left: 2, right: 4, track: 1 }, \
    Trunk { net: NetNo(1), left: 4, right: 6, track: 1 }] } })";

// Whether the first routing is printed so: of these columns, with vdd at this net, on so many tracks, with these tries.
fn is_first(
    alloc: Global,
    columns: &[Column],
    vdd: u32,
    tracks: u32,
    budget: u64,
    want: &str,
) -> Result<bool, Fail>
    requires columns { All IsColumn columns.now }
    requires few { length columns.now ≤ MOST_COLUMNS }
    requires vdd { vdd ≤ 100 }
{
    let found = first(alloc, columns, vdd, tracks, budget);
    Ok(prints(alloc, &found, want)?)
}

// Tracks are compared by first line, then by last line, then by net.
#[test]
fn finds_the_first_routing_by_pieces(rt: HostRuntime) -> Result<(), Fail> {
    let alloc = rt.alloc();
    let row = [both(1, (0, 0), (1, 0)), both(0, (0, 1), (0, 0))];
    assert!(rt; is_first(alloc, &row, 2, 3, 100, RING)?, "ring");
    assert!(rt; is_first(alloc, &row, 2, 2, 100, "Err(None)")?, "two");
    let row = [both(2, (2, 2), (0, 2)), both(2, (2, 1), (2, 2))];
    assert!(rt; is_first(alloc, &row, 3, 2, 100, FEWER)?, "fewer");
    assert!(rt; is_first(alloc, &row, 3, 3, 100, FEWER_ON_THREE)?, "three");
    let row = [both(0, (1, 1), (3, 1)), both(0, (2, 1), (1, 0))];
    assert!(rt; is_first(alloc, &row, 2, 3, 100, MORE)?, "more");
    assert!(rt;
        is_first(alloc, &row, 2, 2, 100, MORE_ON_TWO)?,
        "more on two"
    );
    assert!(rt; is_first(alloc, &row, 2, 2, 0, "Err(Spent)")?, "no tries");
    let row = [both(3, (1, 0), (0, 0)), both(3, (3, 1), (2, 2))];
    assert!(rt; is_first(alloc, &row, 1, 2, 100, APART)?, "apart");
    Ok(())
}
