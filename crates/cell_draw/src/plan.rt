// The layout of a routed row on its lines.

ghost use Rattle.std.specs.Prelude.{◌≡◌, ◌≤◌, ◌<◌, ◌+◌, ◌*◌, ◌++◌, All, IfOk, OnOk, length};
ghost use Rattle.std.specs.List.{flat_map};
ghost use Rattle.cell_draw.specs.Drawings.{base_of};
ghost use Rattle.cell_draw.specs.Layouts.{strip_of, strips_at, laid_out};
ghost use Rattle.cell_draw.specs.Small.{IsSmallFrame};

use crate::bars::bars;
use crate::contacts::contacts;
use crate::gates::gates;
use crate::labels::tags;
use crate::{Frame, Layout, MOST_TRACKS, Strip};
use cell_num::{List, NoMemory, Pins, Row};
use channel_route::Trunk;
use row_compact::x_of;
use row_model::Placed;
use row_place::{Placement, Seat, seats};
use std::alloc::Global;

fn add_strip(
    strips: &mut List<Strip>,
    xs: &[u32],
    unit: u32,
    row: Row,
    placed: Option<Placed>,
) -> Result<(), NoMemory>
    requires { unit ≤ 64 }
    ensures { OnOk result (strips.new ≡ strips.old ++ strip_of xs.now unit row placed) }
{
    let Some(placed) = placed else {
        return Ok(());
    };
    strips.push(Strip {
        row,
        left: x_of(xs, 2 * unit),
        right: x_of(xs, 2 * unit + 2),
        width: placed.finger.width,
    })
}

fn add_strips(strips: &mut List<Strip>, xs: &[u32], seat: &Seat) -> Result<(), NoMemory>
    requires { seat.now.unit ≤ 64 }
    ensures { OnOk result (strips.new ≡ strips.old ++ strips_at xs.now seat.now) }
{
    add_strip(strips, xs, seat.unit, Row::N, seat.column.n)?;
    add_strip(strips, xs, seat.unit, Row::P, seat.column.p)
}

fn strips(alloc: Global, xs: &[u32], seats: &[Seat]) -> Result<List<Strip>, NoMemory>
    requires { All (λ seat. seat.unit ≤ 64) seats.now }
    ensures { IfOk result (λ strips. strips ≡ flat_map (strips_at xs.now) seats.now) }
{
    let mut strips = List::new(alloc);
    for seat in seats {
        add_strips(&mut strips, xs, seat)?;
    }
    Ok(strips)
}

/// The layout of a placement on lines, with the trunks on their tracks.
pub fn layout(
    alloc: Global,
    frame: &Frame,
    nets: u32,
    pins: &Pins,
    placement: &Placement,
    trunks: &[Trunk],
    xs: &[u32],
) -> Result<Layout, NoMemory>
    requires frame { IsSmallFrame frame.now }
    requires few { length placement.now.row ≤ 32 }
    requires trunks { All (λ trunk. trunk.track ≤ MOST_TRACKS) trunks.now }
    ensures { IfOk result (λ layout. layout ≡ laid_out frame.now nets pins.now placement.now trunks.now xs.now) }
{
    let nodes = placement.nodes.as_slice();
    let seats = seats(alloc, &placement.row)?;
    let strips = strips(alloc, xs, seats.as_slice())?;
    let contacts = contacts(alloc, frame, pins, trunks, xs, nodes)?;
    let gates = gates(alloc, frame, trunks, xs, seats.as_slice())?;
    let bars = bars(alloc, frame, nodes, xs, trunks)?;
    let tags = tags(
        alloc,
        frame,
        nets,
        pins,
        nodes,
        trunks,
        xs,
        gates.as_slice(),
    )?;
    Ok(Layout {
        frame: *frame,
        gnd: pins.gnd,
        vdd: pins.vdd,
        strips,
        contacts,
        gates,
        bars,
        tags,
    })
}

/// The layout of the rows of a placement alone.
pub fn base(
    alloc: Global,
    frame: &Frame,
    pins: &Pins,
    placement: &Placement,
    xs: &[u32],
) -> Result<Layout, NoMemory>
    requires { length placement.now.row ≤ 32 }
    ensures { IfOk result (λ layout. layout ≡ base_of frame.now pins.now placement.now xs.now) }
{
    let seats = seats(alloc, &placement.row)?;
    let strips = strips(alloc, xs, seats.as_slice())?;
    Ok(Layout {
        frame: *frame,
        gnd: pins.gnd,
        vdd: pins.vdd,
        strips,
        contacts: List::new(alloc),
        gates: List::new(alloc),
        bars: List::new(alloc),
        tags: List::new(alloc),
    })
}
