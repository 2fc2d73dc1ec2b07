// The gates of a layout.

ghost use Rattle.std.specs.Prelude.{◌≡◌, ◌≤◌, ◌<◌, All, IfOk, find};
ghost use Rattle.std.specs.Option.{option_copied};
ghost use Rattle.cell_draw.specs.Layouts.{holds, gate_reach, finger_width, gate_at, gates_on};
ghost use Rattle.cell_draw.specs.Small.{IsSmallFrame};

use crate::contacts::holds;
use crate::frame::track_y;
use crate::{Frame, Gate, MOST_TRACKS};
use cell_num::{List, NoMemory};
use channel_route::Trunk;
use row_compact::x_of;
use row_model::Placed;
use row_place::{GatePlace, Seat, seats};
use std::alloc::Global;

fn finger_width(placed: &Option<Placed>) -> Option<u32>
    ensures { result ≡ finger_width placed.now }
{
    match placed {
        Some(placed) => Some(placed.finger.width),
        None => None,
    }
}

fn held_by<'a>(trunks: &'a [Trunk], place: &GatePlace) -> Option<&'a Trunk>
    ensures { option_copied result ≡ find (holds place.now.net place.now.line) trunks.now }
{
    trunks
        .iter()
        .find(|trunk| holds(place.net, place.line, trunk))
}

// The height of the track of the first trunk of a gate's net that holds its line.
#[tactic(auto, using(crate::proofs::Found::held_track))]
fn gate_reach(frame: &Frame, trunks: &[Trunk], place: &GatePlace) -> Option<u32>
    requires frame { IsSmallFrame frame.now }
    requires trunks { All (λ trunk. trunk.track ≤ MOST_TRACKS) trunks.now }
    ensures { result ≡ gate_reach frame.now trunks.now place.now }
{
    match held_by(trunks, place) {
        Some(trunk) => Some(track_y(frame, trunk.track)),
        None => None,
    }
}

fn gate_at(frame: &Frame, trunks: &[Trunk], xs: &[u32], seat: &Seat) -> Option<Gate>
    requires frame { IsSmallFrame frame.now }
    requires trunks { All (λ trunk. trunk.track ≤ MOST_TRACKS) trunks.now }
    requires seat { seat.now.unit ≤ 64 }
    ensures { result ≡ gate_at frame.now trunks.now xs.now seat.now }
{
    let place = seat.gate()?;
    Some(Gate {
        x: x_of(xs, place.line),
        net: place.net,
        n: finger_width(&seat.column.n),
        p: finger_width(&seat.column.p),
        track: gate_reach(frame, trunks, &place),
    })
}

/// The gates of the seats that have one, in their order.
pub fn gates(
    alloc: Global,
    frame: &Frame,
    trunks: &[Trunk],
    xs: &[u32],
    seats: &[Seat],
) -> Result<List<Gate>, NoMemory>
    requires frame { IsSmallFrame frame.now }
    requires trunks { All (λ trunk. trunk.track ≤ MOST_TRACKS) trunks.now }
    requires seats { All (λ seat. seat.unit ≤ 64) seats.now }
    ensures { IfOk result (λ gates. gates ≡ gates_on frame.now trunks.now xs.now seats.now) }
{
    let mut gates = List::new(alloc);
    for seat in seats {
        if let Some(gate) = gate_at(frame, trunks, xs, seat) {
            gates.push(gate)?;
        }
    }
    Ok(gates)
}
