// The bars of a layout.

ghost use Rattle.std.specs.Prelude.{◌≡◌, ◌≤◌, ◌<◌, ◌==◌, All, IfOk, map};
ghost use Rattle.std.specs.List.{list_any};
ghost use Rattle.cell_draw.specs.Layouts.{is_p, is_over, has_own_via, begins_before, has_via, vias_of, bar_of};
ghost use Rattle.cell_draw.specs.Small.{IsSmallFrame};

use crate::contacts::holds;
use crate::frame::track_y;
use crate::{Bar, Frame, MOST_TRACKS};
use cell_num::{List, NoMemory, Row};
use channel_route::Trunk;
use row_compact::x_of;
use row_place::NodePlace;
use std::alloc::Global;

fn is_p(row: Row) -> bool
    ensures { result ≡ is_p row }
{
    match row {
        Row::P => true,
        Row::N => false,
    }
}

fn is_over(node: &NodePlace, other: &NodePlace) -> bool
    ensures { result ≡ is_over node.now other.now }
{
    !is_p(other.row) && other.line == node.line && other.net.0 == node.net.0
}

fn has_twin(nodes: &[NodePlace], node: &NodePlace) -> bool
    ensures { result ≡ list_any (is_over node.now) nodes.now }
{
    nodes.iter().any(|other| is_over(node, other))
}

// A place of the P row over one of the N row shares its via.
fn has_own_via(nodes: &[NodePlace], node: &NodePlace) -> bool
    ensures { result ≡ has_own_via nodes.now node.now }
{
    !(is_p(node.row) && has_twin(nodes, node))
}

// A trunk of the same net on the same track holds the line and begins before this one.
fn begins_before(trunk: &Trunk, line: u32, other: &Trunk) -> bool
    ensures { result ≡ begins_before trunk.now line other.now }
{
    holds(trunk.net, line, other) && other.track == trunk.track && other.left < trunk.left
}

fn is_taken(trunks: &[Trunk], trunk: &Trunk, line: u32) -> bool
    ensures { result ≡ list_any (begins_before trunk.now line) trunks.now }
{
    trunks.iter().any(|other| begins_before(trunk, line, other))
}

// The trunk has the via at the line of the place.
fn has_via(nodes: &[NodePlace], trunks: &[Trunk], trunk: &Trunk, node: &NodePlace) -> bool
    ensures { result ≡ has_via nodes.now trunks.now trunk.now node.now }
{
    holds(node.net, node.line, trunk)
        && has_own_via(nodes, node)
        && !is_taken(trunks, trunk, node.line)
}

fn vias(
    alloc: Global,
    nodes: &[NodePlace],
    trunks: &[Trunk],
    xs: &[u32],
    trunk: &Trunk,
) -> Result<List<u32>, NoMemory>
    ensures { IfOk result (λ vias. vias ≡ vias_of nodes.now trunks.now xs.now trunk.now) }
{
    let mut vias = List::new(alloc);
    for node in nodes {
        if has_via(nodes, trunks, trunk, node) {
            vias.push(x_of(xs, node.line))?;
        }
    }
    Ok(vias)
}

fn bar_of(
    alloc: Global,
    frame: &Frame,
    nodes: &[NodePlace],
    trunks: &[Trunk],
    xs: &[u32],
    trunk: &Trunk,
) -> Result<Bar, NoMemory>
    requires frame { IsSmallFrame frame.now }
    requires trunk { trunk.now.track ≤ MOST_TRACKS }
    ensures { IfOk result (λ bar. bar ≡ bar_of frame.now nodes.now trunks.now xs.now trunk.now) }
{
    let vias = vias(alloc, nodes, trunks, xs, trunk)?;
    Ok(Bar {
        left: x_of(xs, trunk.left),
        right: x_of(xs, trunk.right),
        y: track_y(frame, trunk.track),
        net: trunk.net,
        vias,
    })
}

/// The bars of trunks, in their order.
pub fn bars(
    alloc: Global,
    frame: &Frame,
    nodes: &[NodePlace],
    xs: &[u32],
    trunks: &[Trunk],
) -> Result<List<Bar>, NoMemory>
    requires frame { IsSmallFrame frame.now }
    requires trunks { All (λ trunk. trunk.track ≤ MOST_TRACKS) trunks.now }
    ensures { IfOk result (λ bars. bars ≡ map (bar_of frame.now nodes.now trunks.now xs.now) trunks.now) }
{
    let mut bars = List::new(alloc);
    for trunk in trunks {
        bars.push(bar_of(alloc, frame, nodes, trunks, xs, trunk)?)?;
    }
    Ok(bars)
}
