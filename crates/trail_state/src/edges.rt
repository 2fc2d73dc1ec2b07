ghost use Rattle.std.specs.Prelude.{◌≡◌, ◌<◌, ◌++◌, IfOk, OnOk, All, map, not};
ghost use Rattle.std.specs.List.{filter};
ghost use Rattle.trail_state.specs.Edges.{edge_between, edge_of, n_edges, p_edges, pair_edges};
ghost use Rattle.trail_state.specs.Sorted.{inserted, is_below};

use crate::edge::{Choice, Edge, FingerEnds, Node};
use cell_num::{List, NoMemory};
use std::alloc::{AllocError, Global};

/// The edge between two nodes, whichever of them is on the left.
pub fn between(l: u32, r: u32) -> Edge
    ensures { result ≡ edge_between l r }
{
    if l <= r {
        Edge {
            a: Node(l),
            b: Node(r),
        }
    } else {
        Edge {
            a: Node(r),
            b: Node(l),
        }
    }
}

fn edge(p_left: u32, n_left: u32, p_right: u32, n_right: u32) -> Edge
    requires nets { (p_left < 256) × (n_left < 256) × (p_right < 256) × (n_right < 256) }
    ensures { result ≡ edge_of p_left n_left p_right n_right }
{
    between(256 * p_left + n_left, 256 * p_right + n_right)
}

fn is_lower(edge: &Edge, other: &Edge) -> bool
    ensures { result ≡ is_below edge.now other.now }
{
    other.a.0 < edge.a.0 || (other.a == edge.a && other.b.0 < edge.b.0)
}

fn add_lower(all: &mut Vec<Edge>, edge: &Edge, edges: &[Edge]) -> Result<(), AllocError>
    ensures { OnOk result (all.new.items ≡ all.old.items ++ filter (is_below edge.now) edges.now) }
{
    for other in edges {
        if is_lower(edge, other) {
            all.push(*other)?;
        }
    }
    Ok(())
}

fn add_higher(all: &mut Vec<Edge>, edge: &Edge, edges: &[Edge]) -> Result<(), AllocError>
    ensures { OnOk result (all.new.items ≡ all.old.items ++ filter (λ d. not (is_below edge.now d)) edges.now) }
{
    for other in edges {
        if !is_lower(edge, other) {
            all.push(*other)?;
        }
    }
    Ok(())
}

/// Puts the edges with one more, in its place, instead of what is there.
pub(crate) fn put_inserted(
    all: &mut Vec<Edge>,
    edge: &Edge,
    edges: &[Edge],
) -> Result<(), AllocError>
    ensures { OnOk result (all.new.items ≡ inserted edge.now edges.now) }
{
    all.clear();
    add_lower(all, edge, edges)?;
    all.push(*edge)?;
    add_higher(all, edge, edges)
}

/// The edges with one more, in its place.
pub fn insert(alloc: Global, edge: &Edge, edges: &[Edge]) -> Result<Choice, NoMemory>
    ensures { IfOk result (λ all. all ≡ inserted edge.now edges.now) }
{
    let mut all = Vec::with_capacity(alloc, edges.len().saturating_add(1))?;
    put_inserted(&mut all, edge, edges)?;
    Ok(List::from_vec(all))
}

/// The edges of a column of a P and an N finger: turned alike, or not.
pub(crate) fn pair(x: FingerEnds, y: FingerEnds) -> [Edge; 2]
    ensures { result ≡ pair_edges x y }
{
    let (p_lo, p_hi) = (u32::from(x.lo), u32::from(x.hi));
    let (n_lo, n_hi) = (u32::from(y.lo), u32::from(y.hi));
    [edge(p_lo, n_lo, p_hi, n_hi), edge(p_lo, n_hi, p_hi, n_lo)]
}

fn add_p(all: &mut Vec<Edge>, nets: &[u32], x: FingerEnds, left: u32) -> Result<(), AllocError>
    requires left { left < 256 }
    requires nets { All (λ net. net < 256) nets.now }
    ensures { OnOk result (all.new.items ≡ all.old.items ++ map (λ right. edge_of x.lo left x.hi right) nets.now) }
{
    for right in nets {
        all.push(edge(u32::from(x.lo), left, u32::from(x.hi), *right))?;
    }
    Ok(())
}

/// The edges of a P finger that is alone: its empty place has each two of the nets.
pub(crate) fn p_alone(alloc: Global, nets: &[u32], x: FingerEnds) -> Result<Vec<Edge>, AllocError>
    requires nets { All (λ net. net < 256) nets.now }
    ensures { IfOk result (λ all. all.items ≡ p_edges nets.now x) }
{
    let mut all = Vec::new(alloc);
    for left in nets {
        add_p(&mut all, nets, x, *left)?;
    }
    Ok(all)
}

fn add_n(all: &mut Vec<Edge>, nets: &[u32], y: FingerEnds, left: u32) -> Result<(), AllocError>
    requires left { left < 256 }
    requires nets { All (λ net. net < 256) nets.now }
    ensures { OnOk result (all.new.items ≡ all.old.items ++ map (λ right. edge_of left y.lo right y.hi) nets.now) }
{
    for right in nets {
        all.push(edge(left, u32::from(y.lo), *right, u32::from(y.hi)))?;
    }
    Ok(())
}

/// The edges of an N finger that is alone: its empty place has each two of the nets.
pub(crate) fn n_alone(alloc: Global, nets: &[u32], y: FingerEnds) -> Result<Vec<Edge>, AllocError>
    requires nets { All (λ net. net < 256) nets.now }
    ensures { IfOk result (λ all. all.items ≡ n_edges nets.now y) }
{
    let mut all = Vec::new(alloc);
    for left in nets {
        add_n(&mut all, nets, y, *left)?;
    }
    Ok(all)
}
