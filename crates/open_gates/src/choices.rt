ghost use Rattle.std.specs.Prelude.{◌≡◌, ◌++◌, ◌∷◌, [], true, false, All, IfNone, IfOk, IfSome, OnOk, map};
ghost use Rattle.std.specs.Hash as fed;
ghost use Rattle.std.specs.Hash.{same_Alike};
ghost use Rattle.std.specs.List.{filter};
ghost use Rattle.cell_num.specs.Fingers.{AreFingers};
ghost use Rattle.trail_state.specs.Choices.{is_on};
ghost use Rattle.trail_state.specs.Pairings.{HasSmallEnds};
ghost use Rattle.open_gates.specs.Equal.{way_decides};
ghost use Rattle.open_gates.specs.Leveled.{choices_in, open_choice, open_edge};
ghost use Rattle.open_gates.specs.Listed.{edges_of, is_listed, is_long_in, nets_merged, with_way};
ghost use Rattle.open_gates.specs.Merged.{merged_choices, with_choice};

use crate::OpenGates;
use crate::gates::fingers_at;
use crate::merge::{in_order, merged_choice, node_of};
use cell_num::{Finger, Fingers, List, NetNo, NoMemory, Row};
use indexmap::IndexSet;
use std::alloc::{AllocError, Global};
use std::hash::{Hash, Hasher};
use trail_state::{Choice, Edge, between};

/// A choice of a gate, once its nodes are merged.
#[derive(Debug, PartialEq, Eq, Drop)]
pub struct Way {
    pub edges: Choice,
}

impl Hash for Way {
    ghost hash_input = { λ w. fed.slice (λ e. fed.u32 e.a.0 ++ fed.u32 e.b.0) w.edges };

    ghost respects_eq = { (same_Alike (λ w. fed.slice (λ e. fed.u32 e.a.0 ++ fed.u32 e.b.0) w.edges) way_decides).fed };

    fn hash<H: Hasher>(&self, state: &mut H) {
        self.edges.as_slice().hash(state);
    }
}

fn on_gate(alloc: Global, gate: u32, fingers: &[Finger]) -> Result<Vec<Finger>, AllocError>
    ensures { IfOk result (λ on. on.items ≡ filter (is_on gate) fingers.now) }
{
    fingers
        .iter()
        .copied()
        .filter(|finger| finger.gate.0 == gate)
        .collect(alloc)
}

fn open_edge(row: Row, finger: &Finger) -> Edge
    requires { HasSmallEnds finger.now }
    ensures { result ≡ open_edge row finger.now }
{
    between(node_of(row, finger.lo.0), node_of(row, finger.hi.0))
}

fn open_edges(alloc: Global, row: Row, fingers: &[Finger]) -> Result<Vec<Edge>, AllocError>
    requires { All HasSmallEnds fingers.now }
    ensures { IfOk result (λ all. all.items ≡ map (open_edge row) fingers.now) }
{
    let mut all = Vec::new(alloc);
    for finger in fingers {
        all.push(open_edge(row, finger))?;
    }
    Ok(all)
}

// The one choice of a gate that is left open.
#[tactic(auto, using(crate::proofs::Listing::small_on))]
fn open_choice(alloc: Global, row: Row, fingers: &Fingers, gate: u32) -> Result<Choice, NoMemory>
    requires { AreFingers fingers.now }
    ensures { IfOk result (λ choice. choice ≡ open_choice row fingers.now gate) }
{
    let on = on_gate(alloc, gate, fingers_at(row, fingers))?;
    let edges = open_edges(alloc, row, on.as_slice())?;
    in_order(alloc, edges.as_slice())
}

fn one(alloc: Global, choice: Choice) -> Result<List<Choice>, NoMemory>
    ensures { IfOk result (λ all. all ≡ choice ∷ []) }
{
    let mut all = List::new(alloc);
    all.push(choice)?;
    Ok(all)
}

fn put(all: &mut IndexSet<Way>, way: Way) -> Result<(), NoMemory>
    ensures { OnOk result (all.new.keys ≡ with_way all.old.keys way) }
{
    match all.insert_full(way) {
        Ok(_) => Ok(()),
        Err(_) => Err(NoMemory),
    }
}

#[tactic(auto, using(crate::proofs::Listing::edges_added))]
fn add(all: &mut IndexSet<Way>, way: Way) -> Result<(), NoMemory>
    ensures { OnOk result (edges_of all.new.keys ≡ with_choice (edges_of all.old.keys) way.edges) }
{
    match put(all, way) {
        Ok(()) => Ok(()),
        Err(_) => Err(NoMemory),
    }
}

fn ways_of(
    alloc: Global,
    row: Row,
    nets: &[u32],
    choices: &[Choice],
) -> Result<IndexSet<Way>, NoMemory>
    ensures { IfOk result (λ all. edges_of all.keys ≡ merged_choices row (is_listed nets.now) choices.now) }
{
    let mut all = IndexSet::new(alloc);
    for choice in choices {
        let edges = merged_choice(alloc, row, nets, choice.as_slice())?;
        add(&mut all, Way { edges })?;
    }
    Ok(all)
}

fn edges_of(alloc: Global, ways: &[Way]) -> Result<List<Choice>, NoMemory>
    ensures { IfOk result (λ all. all ≡ edges_of ways.now) }
{
    let mut all = List::new(alloc);
    for way in ways {
        all.push(List::from_vec(way.edges.as_slice().to_vec(alloc)?))?;
    }
    Ok(all)
}

// The choices with nodes merged, each once.
fn merged_choices(
    alloc: Global,
    row: Row,
    nets: &[u32],
    choices: &[Choice],
) -> Result<List<Choice>, NoMemory>
    ensures { IfOk result (λ all. all ≡ merged_choices row (is_listed nets.now) choices.now) }
{
    let ways = ways_of(alloc, row, nets, choices)?;
    edges_of(alloc, ways.as_slice())
}

/// The choices of a gate: one that is left open has one. None where it isn't left open and has more than `most`
/// ways to pair the fingers of its first columns.
#[tactic(auto, using(crate::proofs::Closed::choices_rules))]
pub(crate) fn choices_within(
    alloc: Global,
    fingers: &Fingers,
    opened: &OpenGates,
    nets: &[u32],
    gate: NetNo,
    most: usize,
) -> Result<Option<List<Choice>>, NoMemory>
    requires fingers { AreFingers fingers.now }
    requires nets { nets.now ≡ nets_merged fingers.now opened.now }
    ensures all { IfOk result (λ o. IfSome o (λ all. all ≡ choices_in fingers.now opened.now gate.0)) }
    ensures few { IfOk result (λ o. IfSome o (λ _. is_long_in most fingers.now opened.now gate ≡ false)) }
    ensures many { IfOk result (λ o. IfNone o (is_long_in most fingers.now opened.now gate ≡ true)) }
{
    if opened.has(gate.0) {
        let choice = open_choice(alloc, opened.row, fingers, gate.0)?;
        return Ok(Some(one(alloc, choice)?));
    }
    match trail_state::choices_within(alloc, fingers, gate, most)? {
        Some(choices) => Ok(Some(merged_choices(alloc, opened.row, nets, choices.as_slice())?)),
        None => Ok(None),
    }
}
