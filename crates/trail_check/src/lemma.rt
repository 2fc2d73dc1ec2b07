ghost use Rattle.std.specs.Prelude.{◌≡◌, ◌<◌, IfOk, find, option_map, slice_get};
ghost use Rattle.trail_log.specs.declared.class.Class.{Class as ClassOf};
ghost use Rattle.trail_check.specs.Listed.{is_listed, lemma_listed, name_of, nodes_of, number_of, place_listed};
ghost use Rattle.trail_check.specs.Listed.{state_listed};

use cell_num::{List, NoMemory};
use std::alloc::{AllocError, Global};
use trail_log::{Class, LemmaLine, NetPair};
use trail_state::{Level, Node, Place, TrailState};

/// From the state after the first `done` gates on, at least `bound` more ends of trails come.
#[derive(Debug, Drop)]
pub struct TrailLemma {
    pub bound: u32,
    pub done: u32,
    pub state: TrailState,
}

fn number(pair: &NetPair) -> u64
    ensures { result ≡ number_of pair.now }
{
    wide(pair.p.0) * 256 + wide(pair.n.0)
}

fn wide(net: u32) -> u64
    ensures is { result ≡ net }
    ensures few { result < 4294967296 }
{
    u64::from(net)
}

fn is_in(pairs: &[NetPair], node: &Node) -> bool
    ensures { result ≡ is_listed pairs.now node.now }
{
    pairs.iter().any(|pair| number(pair) == u64::from(node.0))
}

fn first(nodes: &[Node], class: &Class) -> Option<Node>
    ensures { result ≡ find (is_listed class.now.nodes) nodes.now }
{
    nodes
        .iter()
        .copied()
        .find(|other| is_in(class.nodes.as_slice(), other))
}

fn name(nodes: &[Node], class: &Class, node: &Node) -> Node
    ensures { result ≡ name_of nodes.now class.now.nodes node.now }
{
    first(nodes, class).unwrap_or(*node)
}

fn class_of<'a>(classes: &'a [Class], node: &Node) -> Option<&'a Class>
    ensures { option_map (λ class. class.now) result ≡
        find (λ (class : ClassOf). is_listed class.nodes node.now) classes.now }
{
    classes
        .iter()
        .find(|class| is_in(class.nodes.as_slice(), node))
}

fn place(nodes: &[Node], line: &LemmaLine, node: &Node) -> Option<Place>
    ensures { result ≡ place_listed nodes.now line.now node.now }
{
    let Some(class) = class_of(line.classes.as_slice(), node) else {
        return None;
    };
    Some(Place {
        node: *node,
        class: name(nodes, class, node),
        odd: is_in(line.odd.as_slice(), node),
        flagged: class.flagged,
    })
}

fn places(alloc: Global, nodes: &[Node], line: &LemmaLine) -> Result<Vec<Place>, AllocError>
    ensures { IfOk result (λ places. places.items ≡ state_listed nodes.now line.now) }
{
    nodes
        .iter()
        .filter_map(|node| place(nodes, line, node))
        .collect(alloc)
}

fn nodes_at(levels: &[Level], done: u32) -> &[Node]
    ensures { result.now ≡ nodes_of (slice_get levels.now done) }
{
    match levels.get(done as usize) {
        Some(level) => level.now.as_slice(),
        None => &[],
    }
}

/// The lemma that the line of a certificate lists: its state has those nodes of the level that a class lists.
pub fn lemma_listed(
    alloc: Global,
    levels: &[Level],
    line: &LemmaLine,
) -> Result<TrailLemma, NoMemory>
    ensures { IfOk result (λ lemma. lemma ≡ lemma_listed levels.now line.now) }
{
    let nodes = nodes_at(levels, line.done);
    let state = places(alloc, nodes, line)?;
    Ok(TrailLemma {
        bound: line.bound,
        done: line.done,
        state: List::from_vec(state),
    })
}
