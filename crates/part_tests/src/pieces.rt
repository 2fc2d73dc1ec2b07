// Channels that are routed in pieces.

ghost use Rattle.std.specs.Prelude.{◌≤◌, All, length};
ghost use Rattle.row_model.specs.Arrangement.{IsColumn};
ghost use Rattle.row_place.specs.Places.{IsPlacement};

use crate::columns::{both, placed, rails_at};
use crate::pin_places::have_places;
use crate::texts::prints;
use cell_num::MOST_COLUMNS;
use dogleg_route::{PieceRouting, PieceStop, route_pieces};
use row_model::Column;
use row_place::Placement;
use std::alloc::Global;
use std::test::Fail;

// A pin without a place gives NoMemory, which no row of the tests expects.
fn routing_of(alloc: Global, row: &Placement, vdd: u32) -> Result<PieceRouting, PieceStop>
    requires row { IsPlacement row.now }
    requires vdd { vdd ≤ 100 }
{
    let pins = rails_at(vdd);
    if !have_places(row, &pins) {
        return Err(PieceStop::NoMemory);
    }
    route_pieces(alloc, row, &pins)
}

fn routed(alloc: Global, columns: &[Column], vdd: u32) -> Result<PieceRouting, PieceStop>
    requires columns { All IsColumn columns.now }
    requires few { length columns.now ≤ MOST_COLUMNS }
    requires vdd { vdd ≤ 100 }
{
    match placed(alloc, columns) {
        Ok(row) => routing_of(alloc, &row, vdd),
        Err(_) => Err(PieceStop::NoMemory),
    }
}

// Pins s0 s1 vdd gnd, a cycle of trunks: at line 2 the N place of s0 goes up to track 1, its P place down to track 0.
pub const RING: &str = "Ok(PieceRouting { tracks: 3, pieces: List { items: [\
    Trunk { net: NetNo(0), left: 0, right: 2, track: 2 }, \
    Trunk { net: NetNo(0), left: 2, right: 4, track: 0 }, \
    Trunk { net: NetNo(1), left: 0, right: 4, track: 1 }] } })";

// Pins s0 s1 s2 vdd gnd: trunks need 3 tracks.
pub const FEWER: &str = "Ok(PieceRouting { tracks: 2, pieces: List { items: [\
    Trunk { net: NetNo(0), left: 0, right: 0, track: 0 }, \
    Trunk { net: NetNo(1), left: 4, right: 4, track: 1 }, \
    Trunk { net: NetNo(2), left: 0, right: 2, track: 1 }, \
    Trunk { net: NetNo(2), left: 2, right: 4, track: 0 }] } })";

// Pins s0 s1 vdd gnd: trunks need 2 tracks.
pub const MORE: &str = "Ok(PieceRouting { tracks: 3, pieces: List { items: [\
    Trunk { net: NetNo(0), left: 1, right: 6, track: 1 }, \
    Trunk { net: NetNo(1), left: 0, right: 2, track: 0 }, \
    Trunk { net: NetNo(1), left: 2, right: 4, track: 0 }, \
    Trunk { net: NetNo(1), left: 4, right: 6, track: 2 }] } })";

// Pins s1 vdd gnd, and the inner net 3: no net is above another, and net 3 is on two tracks.
pub const APART: &str = "Ok(PieceRouting { tracks: 2, pieces: List { items: [\
    Trunk { net: NetNo(0), left: 0, right: 2, track: 0 }, \
    Trunk { net: NetNo(3), left: 1, right: 4, track: 1 }, \
    Trunk { net: NetNo(3), left: 4, right: 5, track: 0 }] } })";

#[test]
fn routes_in_pieces(rt: HostRuntime) -> Result<(), Fail> {
    let alloc = rt.alloc();
    let found = routed(
        alloc,
        &[both(1, (0, 0), (1, 0)), both(0, (0, 1), (0, 0))],
        2,
    );
    assert!(rt; prints(alloc, &found, RING)?, "ring");
    let found = routed(
        alloc,
        &[both(2, (2, 2), (0, 2)), both(2, (2, 1), (2, 2))],
        3,
    );
    assert!(rt; prints(alloc, &found, FEWER)?, "fewer");
    let found = routed(
        alloc,
        &[both(0, (1, 1), (3, 1)), both(0, (2, 1), (1, 0))],
        2,
    );
    assert!(rt; prints(alloc, &found, MORE)?, "more");
    let found = routed(
        alloc,
        &[both(3, (1, 0), (0, 0)), both(3, (3, 1), (2, 2))],
        1,
    );
    assert!(rt; prints(alloc, &found, APART)?, "apart");
    Ok(())
}

// A cycle that passes s0 twice, one of three pieces, and one in a column. The first piece is the first in order of
// line.
const TWICE: &str = "Err(Cycle(List { items: [\
    WireAbove { net: NetNo(0), left: 2, line: 4 }, \
    WireAbove { net: NetNo(4), left: 4, line: 10 }, \
    WireAbove { net: NetNo(0), left: 8, line: 8 }, \
    WireAbove { net: NetNo(1), left: 2, line: 2 }] }))";

const THREE: &str = "Err(Cycle(List { items: [\
    WireAbove { net: NetNo(1), left: 0, line: 0 }, \
    WireAbove { net: NetNo(0), left: 0, line: 6 }, \
    WireAbove { net: NetNo(4), left: 2, line: 2 }] }))";

const IN_A_COLUMN: &str = "Err(Cycle(List { items: [\
    WireAbove { net: NetNo(0), left: 0, line: 2 }, \
    WireAbove { net: NetNo(1), left: 0, line: 0 }] }))";

// Pins s0 s1 vdd gnd, and the inner net 4.
#[test]
fn finds_cycles_of_pieces(rt: HostRuntime) -> Result<(), Fail> {
    let alloc = rt.alloc();
    let row = [
        both(0, (1, 1), (1, 0)),
        both(4, (0, 0), (4, 0)),
        both(4, (0, 4), (1, 0)),
    ];
    assert!(rt; prints(alloc, &routed(alloc, &row, 2), TWICE)?, "twice");
    let row = [both(4, (1, 4), (0, 1)), both(0, (2, 0), (1, 4))];
    assert!(rt; prints(alloc, &routed(alloc, &row, 2), THREE)?, "three");
    let row = [both(1, (1, 0), (0, 1))];
    assert!(rt;
        prints(alloc, &routed(alloc, &row, 2), IN_A_COLUMN)?,
        "column"
    );
    Ok(())
}
