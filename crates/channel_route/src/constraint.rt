// Which wires stand above which.

ghost use Rattle.std.specs.Prelude.{◌≡◌, ◌++◌, IfOk, OnOk, flat_map};
ghost use Rattle.channel_route.specs.Turn.{leads};
ghost use Rattle.channel_route.specs.Wires.{holds_place, stands_over, is_over, under, pairs_over, over};
ghost use Rattle.channel_route.specs.Wires.{constraints_of};

use crate::wire::{Wire, holds_key};
use cell_num::Row;
use row_place::NodePlace;
use std::alloc::{AllocError, Global};

/// At a line one wire stands above another. Both are named by their keys.
#[derive(Clone, Copy, Debug, PartialEq, Eq)]
pub struct Constraint {
    pub upper: u32,
    pub lower: u32,
    pub line: u32,
}

/// Whether the constraint puts the wire of the key above one that is left.
pub fn leads_on(constraint: &Constraint, left: &[Wire], key: u32) -> bool
    ensures { result ≡ leads left.now key constraint.now }
{
    constraint.upper == key && holds_key(left, constraint.lower)
}

fn are_p_and_n(p: Row, n: Row) -> bool
    ensures { result ≡ stands_over p n }
{
    matches!((p, n), (Row::P, Row::N))
}

fn is_above(p: &NodePlace, n: &NodePlace) -> bool
    ensures { result ≡ is_over p.now n.now }
{
    are_p_and_n(p.row, n.row) && p.line == n.line && p.net.0 != n.net.0
}

fn is_held_by(node: &NodePlace, wire: &Wire) -> bool
    ensures { result ≡ holds_place node.now wire.now }
{
    wire.net.0 == node.net.0 && wire.left <= node.line && node.line <= wire.right
}

// The constraints of a wire over each of the wires that hold a place.
fn add_lower(
    constraints: &mut Vec<Constraint>,
    wires: &[Wire],
    upper: &Wire,
    n: &NodePlace,
) -> Result<(), AllocError>
    ensures { OnOk result (constraints.new.items
        ≡ constraints.old.items ++ under wires.now n.now upper.now) }
{
    for lower in wires {
        if is_held_by(n, lower) {
            constraints.push(Constraint {
                upper: upper.key,
                lower: lower.key,
                line: n.line,
            })?;
        }
    }
    Ok(())
}

// The constraints of the wires that hold one place over those that hold another.
fn add_pairs(
    constraints: &mut Vec<Constraint>,
    wires: &[Wire],
    p: &NodePlace,
    n: &NodePlace,
) -> Result<(), AllocError>
    ensures { OnOk result (constraints.new.items
        ≡ constraints.old.items ++ pairs_over wires.now p.now n.now) }
{
    for upper in wires {
        if is_held_by(p, upper) {
            add_lower(constraints, wires, upper, n)?;
        }
    }
    Ok(())
}

fn add_constraints(
    constraints: &mut Vec<Constraint>,
    wires: &[Wire],
    p: &NodePlace,
    nodes: &[NodePlace],
) -> Result<(), AllocError>
    ensures { OnOk result (constraints.new.items
        ≡ constraints.old.items ++ flat_map (over wires.now p.now) nodes.now) }
{
    for n in nodes {
        if is_above(p, n) {
            add_pairs(constraints, wires, p, n)?;
        }
    }
    Ok(())
}

/// Where a P place stands over an N place of another net, each wire of the upper net that holds the line
/// stands above each of the lower net that does.
pub fn constraints(
    alloc: Global,
    wires: &[Wire],
    nodes: &[NodePlace],
) -> Result<Vec<Constraint>, AllocError>
    ensures { IfOk result (λ constraints. constraints.items ≡ constraints_of wires.now nodes.now) }
{
    let mut constraints = Vec::new(alloc);
    for p in nodes {
        add_constraints(&mut constraints, wires, p, nodes)?;
    }
    Ok(constraints)
}
