ghost use Rattle.std.specs.Prelude.{◌≡◌, ◌<◌, ◌≤◌, ◌==◌, ◌∷◌, true, if◌then◌else◌, OnOk, Some, length, not};
ghost use Rattle.std.specs.Prelude.{slice_get, take, List as Sequence};
ghost use Rattle.std.specs.List.{flat_map, list_any, position_or_len};
ghost use Rattle.trail_state.specs.declared.edge.FingerEnds.{FingerEnds as EndsOf};
ghost use Rattle.trail_state.specs.declared.gate.Gate.{Gate as GateOf};
ghost use Rattle.trail_state.specs.Edges.{pair_edges};
ghost use Rattle.trail_state.specs.Fronts.{paired, paired_with, same_nets, with_all, with_column, without};
ghost use Rattle.trail_state.specs.Known.{AreKnown, HasAll, parts_of};

use crate::columns::add_column;
use crate::edge::FingerEnds;
use crate::edges::pair;
use crate::front::{Known, Part, Reached};
use crate::left::without;
use cell_num::{List, NoMemory};
use indexmap::IndexSet;
use std::alloc::Global;

fn stands_in(y: FingerEnds, left: &[FingerEnds]) -> bool
    ensures { result ≡ list_any (same_nets y) left.now }
{
    left.iter().any(|other| y == *other)
}

fn is_first(y: FingerEnds, at: usize, left: &[FingerEnds]) -> bool
    requires { at ≤ length left.now }
    ensures { result ≡ not (list_any (same_nets y) (take at left.now)) }
{
    !stands_in(y, &left[..at])
}

pub(crate) fn stands_at(y: FingerEnds, at: usize, left: &[FingerEnds]) -> bool
    ensures { result ≡ true → slice_get left.now at ≡ Some y }
{
    match left.get(at) {
        Some(other) => y == *other,
        None => false,
    }
}

// Adds the part with a column of the P finger and this one of the N fingers left, the first with its nets. It stands at
// `at`.
#[tactic(auto, using(crate::proofs::Added::pair_known))]
fn add_pair(
    alloc: Global,
    all: &mut IndexSet<Reached>,
    x: FingerEnds,
    part: &Part,
    y: FingerEnds,
    at: usize,
    first: usize,
) -> Result<(), NoMemory>
    requires at { at ≡ position_or_len (same_nets y) part.now.left }
    requires there { at < length part.now.left }
    requires known { HasAll (parts_of all.old.keys)
        (with_column part.now (without y part.now.left) (take first (pair_edges x y))) }
    ensures parts { OnOk result (parts_of all.new.keys ≡ with_all (parts_of all.old.keys) (paired_with x part.now y)) }
    ensures known { OnOk result ((gate : GateOf) (xs : Sequence EndsOf) →
        HasAll (parts_of all.old.keys) (flat_map (paired_with x part.now) (take at part.now.left)) →
        AreKnown gate (x ∷ xs) all.old.keys → AreKnown gate (x ∷ xs) all.new.keys) }
{
    let others = without(alloc, y, part.left.as_slice())?;
    let again = stands_at(y, at, others.as_slice());
    let more = Reached {
        part: Part {
            edges: List::new(alloc),
            left: List::from_vec(others),
        },
        known: Known {
            fingers: at,
            edges: 0,
        },
    };
    add_column(alloc, all, part, more, &pair(x, y), first, again)?;
    Ok(())
}

// The same with each N finger left: one with the nets of an earlier one leads to no other parts.
#[tactic(auto, using(crate::proofs::Rules::at_rules))]
fn add_at(
    alloc: Global,
    all: &mut IndexSet<Reached>,
    x: FingerEnds,
    part: &Part,
    y: FingerEnds,
    at: usize,
    first: usize,
) -> Result<(), NoMemory>
    requires there { slice_get part.now.left at ≡ Some y }
    requires fingers { HasAll (parts_of all.old.keys) (flat_map (paired_with x part.now) (take at part.now.left)) }
    requires known { HasAll (parts_of all.old.keys)
        (with_column part.now (without y part.now.left) (take first (pair_edges x y))) }
    ensures parts { OnOk result (parts_of all.new.keys ≡ with_all (parts_of all.old.keys) (paired_with x part.now y)) }
    ensures known { OnOk result ((gate : GateOf) (xs : Sequence EndsOf) →
        AreKnown gate (x ∷ xs) all.old.keys → AreKnown gate (x ∷ xs) all.new.keys) }
{
    if is_first(y, at, part.left.as_slice()) {
        add_pair(alloc, all, x, part, y, at, first)?;
    }
    Ok(())
}

fn first_beside(known: Known, at: usize) -> usize
    ensures { result ≡ (if at == known.fingers then known.edges else 0) }
{
    if at == known.fingers { known.edges } else { 0 }
}

/// Adds the part with a column of the P finger and one of the N fingers left.
#[tactic(auto, using(crate::proofs::Rules::paired_rules))]
pub(crate) fn add_paired(
    alloc: Global,
    all: &mut IndexSet<Reached>,
    x: FingerEnds,
    part: &Part,
    known: Known,
) -> Result<(), NoMemory>
    requires fingers { HasAll (parts_of all.old.keys)
        (flat_map (paired_with x part.now) (take known.fingers part.now.left)) }
    requires edges { (y : EndsOf) → slice_get part.now.left known.fingers ≡ Some y → HasAll (parts_of all.old.keys)
        (with_column part.now (without y part.now.left) (take known.edges (pair_edges x y))) }
    ensures parts { OnOk result (parts_of all.new.keys ≡ with_all (parts_of all.old.keys) (paired x part.now)) }
    ensures known { OnOk result ((gate : GateOf) (xs : Sequence EndsOf) →
        AreKnown gate (x ∷ xs) all.old.keys → AreKnown gate (x ∷ xs) all.new.keys) }
{
    let left = part.left.as_slice();
    for at in known.fingers..left.len() {
        add_at(alloc, all, x, part, left[at], at, first_beside(known, at))?;
    }
    Ok(())
}
