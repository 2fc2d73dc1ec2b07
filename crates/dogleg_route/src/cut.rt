// The spans of nets, cut into pieces.

ghost use Rattle.std.specs.Prelude.{◌≡◌, ◌+◌, ◌*◌, ◌≤◌, ◌++◌, IfOk, OnOk, IsPermutation, IsSorted, length};
ghost use Rattle.dogleg_route.specs.Cuts.{cuts_at, is_left, cuts_of, all_cuts, stretch_cmp, numbered_from};

use cell_num::NetNo;
use channel_route::{MOST_WIRES, Wire};
use row_place::NodePlace;
use std::alloc::{AllocError, Global};

/// A part of a net from one line to another. Stretches are in order of first line, last line and net.
#[derive(Clone, Copy, Debug, PartialEq, Eq, PartialOrd, Ord)]
pub struct Stretch {
    pub left: u32,
    pub right: u32,
    pub net: NetNo,
}

fn is_cut_at(wire: &Wire, from: u32, node: &NodePlace) -> bool
    ensures { result ≡ cuts_at wire.now from node.now }
{
    node.net.0 == wire.net.0 && from < node.line
}

fn is_unfinished(wire: &Wire, from: u32) -> bool
    ensures { result ≡ is_left wire.now from }
{
    from < wire.right || wire.left == wire.right
}

// The parts of a wire between the node places of its net.
fn cut(stretches: &mut Vec<Stretch>, wire: &Wire, nodes: &[NodePlace]) -> Result<(), AllocError>
    ensures cuts { OnOk result (stretches.new.items
        ≡ stretches.old.items ++ cuts_of nodes.now wire.now) }
    ensures few { OnOk result (length stretches.new.items
        ≤ length stretches.old.items + length nodes.now + 1) }
{
    let mut from = wire.left;
    for node in nodes {
        if is_cut_at(wire, from, node) {
            stretches.push(Stretch {
                left: from,
                right: node.line,
                net: wire.net,
            })?;
            from = node.line;
        }
    }
    if is_unfinished(wire, from) {
        stretches.push(Stretch {
            left: from,
            right: wire.right,
            net: wire.net,
        })?;
    }
    Ok(())
}

/// The parts of all wires, wire by wire.
pub fn cut_all(
    alloc: Global,
    wires: &[Wire],
    nodes: &[NodePlace],
) -> Result<Vec<Stretch>, AllocError>
    ensures cuts { IfOk result (λ stretches. stretches.items ≡ all_cuts nodes.now wires.now) }
    ensures few { IfOk result (λ stretches. length stretches.items
        ≤ length wires.now * (length nodes.now + 1)) }
{
    let mut stretches = Vec::new(alloc);
    for wire in wires {
        cut(&mut stretches, wire, nodes)?;
    }
    Ok(stretches)
}

/// Sorts stretches by the order of `stretch_cmp`.
pub fn sort(stretches: &mut Vec<Stretch>)
    ensures moved { IsPermutation stretches.old.items stretches.new.items }
    ensures sorted { IsSorted stretch_cmp stretches.new.items }
{
    stretches.sort_unstable();
}

/// Each stretch as a wire whose key is its place.
pub fn numbered(alloc: Global, stretches: &[Stretch]) -> Result<Vec<Wire>, AllocError>
    requires { length stretches.now ≤ MOST_WIRES }
    ensures { IfOk result (λ wires. wires.items ≡ numbered_from 0 stretches.now) }
{
    let mut wires = Vec::new(alloc);
    for (at, stretch) in stretches.iter().enumerate() {
        wires.push(Wire {
            left: stretch.left,
            key: at as u32,
            right: stretch.right,
            net: stretch.net,
        })?;
    }
    Ok(wires)
}
