// The contacted node places of a layout.

ghost use Rattle.std.specs.Prelude.{◌≡◌, ◌≤◌, ◌<◌, ◌==◌, All, IfOk, filter_map};
ghost use Rattle.std.specs.Option.{option_copied};
ghost use Rattle.channel_route.specs.Routing.{holds_line};
ghost use Rattle.cell_draw.specs.Layouts.{trunk_of, holds, farther, far, reach_of, contact_of};
ghost use Rattle.cell_draw.specs.Small.{IsSmallFrame};

use crate::frame::track_y;
use crate::{Contact, Frame, MOST_TRACKS};
use cell_num::{List, NetNo, NoMemory, Pins, Row};
use channel_route::Trunk;
use row_compact::x_of;
use row_place::NodePlace;
use std::alloc::Global;

/// The first trunk of a net.
pub fn trunk_of(trunks: &[Trunk], net: NetNo) -> Option<&Trunk>
    ensures { option_copied result ≡ trunk_of trunks.now net }
{
    trunks.iter().find(|trunk| trunk.net.0 == net.0)
}

fn holds_line(line: u32, trunk: &Trunk) -> bool
    ensures { result ≡ holds_line line trunk.now }
{
    trunk.left <= line && line <= trunk.right
}

/// Whether the trunk is of the net and holds the line.
pub fn holds(net: NetNo, line: u32, trunk: &Trunk) -> bool
    ensures { result ≡ holds net line trunk.now }
{
    trunk.net.0 == net.0 && holds_line(line, trunk)
}

// Of two tracks the one farther from the row.
fn farther(row: Row, one: u32, other: u32) -> u32
    ensures { result ≡ farther row one other }
{
    match row {
        Row::N => one.max(other),
        Row::P => one.min(other),
    }
}

// The farthest track of the trunks of a place's net that hold its line.
#[tactic(auto, using(crate::proofs::Wirings::far_ends))]
fn far(trunks: &[Trunk], node: &NodePlace) -> Option<u32>
    ensures { result ≡ far trunks.now node.now }
{
    let mut far = None;
    for trunk in trunks {
        if holds(node.net, node.line, trunk) {
            far = match far {
                Some(other) => Some(farther(node.row, other, trunk.track)),
                None => Some(trunk.track),
            };
        }
    }
    far
}

// The height of that track.
#[tactic(auto, using(crate::proofs::Wirings::far_low))]
fn reach_of(frame: &Frame, trunks: &[Trunk], node: &NodePlace) -> Option<u32>
    requires frame { IsSmallFrame frame.now }
    requires trunks { All (λ trunk. trunk.track ≤ MOST_TRACKS) trunks.now }
    ensures { result ≡ reach_of frame.now trunks.now node.now }
{
    match far(trunks, node) {
        Some(track) => Some(track_y(frame, track)),
        None => None,
    }
}

fn contact_of(
    frame: &Frame,
    pins: &Pins,
    trunks: &[Trunk],
    xs: &[u32],
    node: &NodePlace,
) -> Option<Contact>
    requires frame { IsSmallFrame frame.now }
    requires trunks { All (λ trunk. trunk.track ≤ MOST_TRACKS) trunks.now }
    ensures { result ≡ contact_of frame.now pins.now trunks.now xs.now node.now }
{
    let contact = Contact {
        row: node.row,
        x: x_of(xs, node.line),
        net: node.net,
        reach: None,
    };
    if pins.is_rail(node.net) {
        return Some(contact);
    }
    match reach_of(frame, trunks, node) {
        Some(reach) => Some(Contact {
            reach: Some(reach),
            ..contact
        }),
        None => None,
    }
}

/// The contacts of node places, in their order: of the rails' nets and of nets with a trunk.
pub fn contacts(
    alloc: Global,
    frame: &Frame,
    pins: &Pins,
    trunks: &[Trunk],
    xs: &[u32],
    nodes: &[NodePlace],
) -> Result<List<Contact>, NoMemory>
    requires frame { IsSmallFrame frame.now }
    requires trunks { All (λ trunk. trunk.track ≤ MOST_TRACKS) trunks.now }
    ensures { IfOk result (λ contacts. contacts ≡ filter_map
        (contact_of frame.now pins.now trunks.now xs.now) nodes.now) }
{
    let mut contacts = List::new(alloc);
    for node in nodes {
        if let Some(contact) = contact_of(frame, pins, trunks, xs, node) {
            contacts.push(contact)?;
        }
    }
    Ok(contacts)
}
