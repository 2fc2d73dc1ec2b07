ghost use Rattle.std.specs.Prelude.{◌≡◌, ◌<◌, ◌≤◌, ◌∷◌, [], true, if◌then◌else◌, ltb, All, OnOk, Some, drop, length};
ghost use Rattle.std.specs.Prelude.{List as Sequence};
ghost use Rattle.trail_state.specs.declared.edge.FingerEnds.{FingerEnds as EndsOf};
ghost use Rattle.trail_state.specs.Fronts.{alone, n_alone, next_parts, paired, with_all};
ghost use Rattle.trail_state.specs.Known.{AreKnown, HasAll, is_again, known_alone, known_edges, known_parts};
ghost use Rattle.trail_state.specs.Known.{parts_of};

use crate::beside::{add_paired, stands_at};
use crate::columns::add_column;
use crate::edge::FingerEnds;
use crate::edges::{n_alone, p_alone};
use crate::front::{Known, Part, Reached};
use crate::gate::Gate;
use cell_num::{List, NoMemory};
use indexmap::IndexSet;
use std::alloc::Global;

fn first_alone(known: Known, left: &[FingerEnds]) -> usize
    ensures { result ≡ (if ltb known.fingers (length left.now) then 0 else known.edges) }
{
    if known.fingers < left.len() {
        0
    } else {
        known.edges
    }
}

// Adds the part with a column of the P finger alone, where those after it are as many as the N fingers left.
#[tactic(auto, using(crate::proofs::Rules::alone_rules))]
fn add_alone(
    alloc: Global,
    all: &mut IndexSet<Reached>,
    gate: &Gate,
    x: FingerEnds,
    behind: &[FingerEnds],
    part: &Part,
    known: Known,
) -> Result<(), NoMemory>
    requires net { All (λ net. net < 256) gate.now.n_fill }
    requires known { length part.now.left ≤ known.fingers → HasAll (parts_of all.old.keys)
        (known_edges gate.now x behind.now part.now known.edges []) }
    ensures parts { OnOk result (parts_of all.new.keys
        ≡ with_all (parts_of all.old.keys) (alone gate.now x behind.now part.now)) }
    ensures known { OnOk result ((xs : Sequence EndsOf) → behind.now ≡ x ∷ xs →
        HasAll (parts_of all.old.keys) (paired x part.now) →
        AreKnown gate.now behind.now all.old.keys → AreKnown gate.now behind.now all.new.keys) }
{
    let left = part.left.as_slice();
    if left.len() > behind.len() {
        return Ok(());
    }
    let edges = p_alone(alloc, gate.n_fill.as_slice(), x)?;
    let first = if known.fingers < left.len() {
        0
    } else {
        known.edges
    };
    let more = Reached {
        part: Part {
            edges: List::new(alloc),
            left: List::from_vec(left.to_vec(alloc)?),
        },
        known: Known {
            fingers: left.len(),
            edges: 0,
        },
    };
    add_column(alloc, all, part, more, edges.as_slice(), first, true)?;
    Ok(())
}

// Adds the part with a column of the first of the N fingers left.
#[tactic(auto, using(crate::proofs::Added::n_known))]
fn add_n(
    alloc: Global,
    all: &mut IndexSet<Reached>,
    gate: &Gate,
    part: &Part,
    known: Known,
) -> Result<(), NoMemory>
    requires net { All (λ net. net < 256) gate.now.p_fill }
    requires known { HasAll (parts_of all.old.keys) (known_alone gate.now part.now known.edges part.now.left) }
    ensures parts { OnOk result (parts_of all.new.keys
        ≡ with_all (parts_of all.old.keys) (n_alone gate.now part.now part.now.left)) }
    ensures known { OnOk result (AreKnown gate.now [] all.old.keys → AreKnown gate.now [] all.new.keys) }
{
    let Some((y, left)) = part.left.as_slice().split_first() else {
        return Ok(());
    };
    let edges = n_alone(alloc, gate.p_fill.as_slice(), *y)?;
    let again = stands_at(*y, 0, left);
    let more = Reached {
        part: Part {
            edges: List::new(alloc),
            left: List::from_vec(left.to_vec(alloc)?),
        },
        known: Known {
            fingers: 0,
            edges: 0,
        },
    };
    add_column(alloc, all, part, more, edges.as_slice(), known.edges, again)?;
    Ok(())
}

/// Adds the part with its next column in each way, where these P fingers are in none yet. Those that are known are
/// there.
#[tactic(auto, using(crate::proofs::Rules::next_rules))]
pub(crate) fn add_next(
    alloc: Global,
    all: &mut IndexSet<Reached>,
    gate: &Gate,
    xs: &[FingerEnds],
    part: &Part,
    known: Known,
) -> Result<(), NoMemory>
    requires p { All (λ net. net < 256) gate.now.p_fill }
    requires n { All (λ net. net < 256) gate.now.n_fill }
    requires known { HasAll (parts_of all.old.keys) (known_parts gate.now xs.now part.now known) }
    ensures parts { OnOk result (parts_of all.new.keys
        ≡ with_all (parts_of all.old.keys) (next_parts gate.now xs.now part.now)) }
    ensures known { OnOk result (is_again xs.now ≡ true →
        AreKnown gate.now (drop 1 xs.now) all.old.keys → AreKnown gate.now (drop 1 xs.now) all.new.keys) }
{
    let Some((x, behind)) = xs.split_first() else {
        add_n(alloc, all, gate, part, known)?;
        return Ok(());
    };
    add_paired(alloc, all, *x, part, known)?;
    add_alone(alloc, all, gate, *x, behind, part, known)?;
    Ok(())
}
