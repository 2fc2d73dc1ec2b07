ghost use Rattle.std.specs.Prelude.{◌≡◌, ◌<◌, if◌then◌else◌, OnOk, not, take, List as Sequence};
ghost use Rattle.trail_state.specs.declared.edge.FingerEnds.{FingerEnds as EndsOf};
ghost use Rattle.trail_state.specs.declared.gate.Gate.{Gate as GateOf};
ghost use Rattle.trail_state.specs.Fronts.{with_all, with_column};
ghost use Rattle.trail_state.specs.Known.{AreKnown, AreNext, HasAll, parts_of, reached_by, with_reached};
ghost use Rattle.trail_state.specs.Sorted.{inserted};

use crate::edge::Edge;
use crate::edges::put_inserted;
use crate::front::{Part, Reached};
use cell_num::{List, NoMemory};
use indexmap::IndexSet;
use std::alloc::Global;
use std::mem;

/// Adds the part, if it is not there.
pub(crate) fn add(all: &mut IndexSet<Reached>, reached: Reached) -> Result<(), NoMemory>
    ensures { OnOk result (all.new.keys ≡ with_reached all.old.keys reached) }
{
    match all.insert_full(reached) {
        Ok(_) => Ok(()),
        Err(_) => Err(NoMemory),
    }
}

// Adds a copy of the part, if it is not there. Most parts are there, and take no memory.
fn add_copy(alloc: Global, all: &mut IndexSet<Reached>, reached: &Reached) -> Result<(), NoMemory>
    ensures { OnOk result (all.new.keys ≡ with_reached all.old.keys reached.now) }
{
    if all.contains(reached) {
        return Ok(());
    }
    let part = Part {
        edges: List::from_vec(reached.part.edges.as_slice().to_vec(alloc)?),
        left: List::from_vec(reached.part.left.as_slice().to_vec(alloc)?),
    };
    let known = reached.known;
    add(all, Reached { part, known })
}

// Gives the part these edges with one more.
fn put_edges(
    alloc: Global,
    more: &mut Reached,
    edge: &Edge,
    edges: &[Edge],
    number: usize,
) -> Result<(), NoMemory>
    ensures edges { OnOk result (more.new.part.edges ≡ inserted edge.now edges.now) }
    ensures left { OnOk result (more.new.part.left ≡ more.old.part.left) }
    ensures fingers { OnOk result (more.new.known.fingers ≡ more.old.known.fingers) }
    ensures number { OnOk result (more.new.known.edges ≡ number) }
{
    let mut all = mem::replace(&mut more.part.edges, List::new(alloc)).into_vec();
    put_inserted(&mut all, edge, edges)?;
    more.part.edges = List::from_vec(all);
    more.known.edges = number;
    Ok(())
}

// Adds the part with one more edge, in place of those of `more`.
#[tactic(auto, using(crate::proofs::Fronts::edge_added))]
fn add_edge(
    alloc: Global,
    all: &mut IndexSet<Reached>,
    part: &Part,
    more: &mut Reached,
    edge: &Edge,
    number: usize,
) -> Result<(), NoMemory>
    ensures added { OnOk result (all.new.keys ≡ with_reached all.old.keys
        (reached_by part.now more.old.part.left more.old.known.fingers number edge.now)) }
    ensures left { OnOk result (more.new.part.left ≡ more.old.part.left) }
    ensures fingers { OnOk result (more.new.known.fingers ≡ more.old.known.fingers) }
{
    put_edges(alloc, more, edge, part.edges.as_slice(), number)?;
    add_copy(alloc, all, more)?;
    Ok(())
}

fn known_number(again: bool, number: usize) -> usize
    ensures { result ≡ (if again then number else 0) }
{
    if again { number } else { 0 }
}

/// Adds the part with each of the edges, in place of those of `more`. The parts with the first edges are there. Where
/// `again`, those with the edges before one are known of the part with this one.
#[tactic(auto, using(crate::proofs::Rules::column_rules))]
pub(crate) fn add_column(
    alloc: Global,
    all: &mut IndexSet<Reached>,
    part: &Part,
    mut more: Reached,
    edges: &[Edge],
    first: usize,
    again: bool,
) -> Result<(), NoMemory>
    requires known { HasAll (parts_of all.old.keys) (with_column part.now more.part.left (take first edges.now)) }
    ensures parts { OnOk result (parts_of all.new.keys
        ≡ with_all (parts_of all.old.keys) (with_column part.now more.part.left edges.now)) }
    ensures known { OnOk result ((gate : GateOf) (xs : Sequence EndsOf) →
        AreNext gate xs (parts_of all.old.keys) part.now more.part.left more.known.fingers again edges.now →
        AreKnown gate xs all.old.keys → AreKnown gate xs all.new.keys) }
{
    for number in first..edges.len() {
        let known = known_number(again, number);
        add_edge(alloc, all, part, &mut more, &edges[number], known)?;
    }
    Ok(())
}
