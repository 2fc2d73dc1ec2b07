ghost use Rattle.std.specs.Prelude.{◌≡◌, ◌<◌, ◌≤◌, ◌++◌, true, All, IfNone, IfOk, IfSome, drop, length};
ghost use Rattle.std.specs.Cmp.{on_equiv, on_per};
ghost use Rattle.std.specs.Hash as fed;
ghost use Rattle.std.specs.Hash.{on_Alike, same_Alike};
ghost use Rattle.trail_state.specs.Fronts.{first_front, next_front};
ghost use Rattle.trail_state.specs.Known.{AreKnown, is_again, is_reached, known_now, parts_of};
ghost use Rattle.trail_state.specs.Same.{part_decides, parts_equiv, parts_per};

use crate::alone::add_next;
use crate::columns::add;
use crate::edge::{Edge, FingerEnds};
use crate::gate::Gate;
use cell_num::{List, NoMemory};
use indexmap::IndexSet;
use std::alloc::Global;
use std::hash::{Hash, Hasher};

/// Some columns of a gate, the first that are listed: their edges in ascending order, and the N fingers that are in
/// none of them.
#[derive(Debug, PartialEq, Eq, Drop)]
pub struct Part {
    pub edges: List<Edge>,
    pub left: List<FingerEnds>,
}

impl Hash for Part {
    ghost hash_input = { λ p. fed.slice (λ e. fed.u32 e.a.0 ++ fed.u32 e.b.0) p.edges
        ++ fed.slice (λ x. fed.u8 x.lo ++ fed.u8 x.hi) p.left };

    ghost respects_eq = { (same_Alike (λ p. fed.slice (λ e. fed.u32 e.a.0 ++ fed.u32 e.b.0) p.edges
        ++ fed.slice (λ x. fed.u8 x.lo ++ fed.u8 x.hi) p.left) part_decides).fed };

    fn hash<H: Hasher>(&self, state: &mut H) {
        self.edges.as_slice().hash(state);
        self.left.as_slice().hash(state);
    }
}

/// How many of the next columns of a part lead only to parts that earlier ones lead to, where the next P finger has the
/// nets of the last one, or the next N finger does where no P finger is left: those with the first of the N fingers
/// left, and the first edges of the column after these.
#[derive(Clone, Copy, Debug, PartialEq)]
pub struct Known {
    pub fingers: usize,
    pub edges: usize,
}

/// A part of a front, and what is known of its next columns. Equal parts are one, whatever is known.
#[derive(Debug, Drop)]
pub struct Reached {
    pub part: Part,
    pub known: Known,
}

impl PartialEq for Reached {
    ghost use Rattle.trail_state.specs.declared.front.Reached.{Reached};

    ghost eq = { is_reached };

    ghost laws = { on_per (λ (r : Reached). r.part) parts_per };

    fn eq(&self, other: &Self) -> bool {
        self.part == other.part
    }
}

impl Eq for Reached {
    ghost use Rattle.trail_state.specs.declared.front.Reached.{Reached};

    ghost laws = { on_equiv (λ (r : Reached). r.part) parts_equiv };
}

impl Hash for Reached {
    ghost use Rattle.trail_state.specs.declared.front.Reached.{Reached};

    ghost hash_input = { λ r. fed.slice (λ e. fed.u32 e.a.0 ++ fed.u32 e.b.0) r.part.edges
        ++ fed.slice (λ x. fed.u8 x.lo ++ fed.u8 x.hi) r.part.left };

    ghost respects_eq = { (on_Alike (λ (r : Reached). r.part)
        (same_Alike (λ p. fed.slice (λ e. fed.u32 e.a.0 ++ fed.u32 e.b.0) p.edges
        ++ fed.slice (λ x. fed.u8 x.lo ++ fed.u8 x.hi) p.left) part_decides)).fed };

    fn hash<H: Hasher>(&self, state: &mut H) {
        self.part.hash(state);
    }
}

/// Whether what is known of parts serves for their next columns, where the last ones had the first of these P fingers.
pub(crate) fn is_again(xs: &[FingerEnds]) -> bool
    ensures { result ≡ is_again xs.now }
{
    match xs {
        [x, y, ..] => *x == *y,
        [_] => false,
        [] => true,
    }
}

/// No column yet.
pub(crate) fn first_front(alloc: Global, gate: &Gate) -> Result<IndexSet<Reached>, NoMemory>
    ensures { IfOk result (λ front. parts_of front.keys ≡ first_front gate.now) }
{
    let mut front = IndexSet::new(alloc);
    let part = Part {
        edges: List::new(alloc),
        left: List::from_vec(gate.n.as_slice().to_vec(alloc)?),
    };
    let known = Known {
        fingers: 0,
        edges: 0,
    };
    add(&mut front, Reached { part, known })?;
    Ok(front)
}

fn known_now(again: bool, reached: &Reached) -> Known
    ensures { result ≡ known_now again reached.now }
{
    if again {
        reached.known
    } else {
        Known {
            fingers: 0,
            edges: 0,
        }
    }
}

/// The parts with a column more, each once. These P fingers are in none of their columns. Where `again`, what is known
/// of the parts serves.
pub(crate) fn next_front(
    alloc: Global,
    gate: &Gate,
    xs: &[FingerEnds],
    front: &[Reached],
    again: bool,
) -> Result<IndexSet<Reached>, NoMemory>
    requires p { All (λ net. net < 256) gate.now.p_fill }
    requires n { All (λ net. net < 256) gate.now.n_fill }
    requires known { again ≡ true → AreKnown gate.now xs.now front.now }
    ensures parts { IfOk result (λ all. parts_of all.keys ≡ next_front gate.now xs.now (parts_of front.now)) }
    ensures known { IfOk result (λ all. is_again xs.now ≡ true → AreKnown gate.now (drop 1 xs.now) all.keys) }
{
    let mut all = IndexSet::new(alloc);
    for reached in front {
        let known = known_now(again, reached);
        add_next(alloc, &mut all, gate, xs, &reached.part, known)?;
    }
    Ok(all)
}

/// The same, where they are at most `most`. It stops once they are more.
#[tactic(auto, using(crate::proofs::Parts::longer_yet))]
pub(crate) fn next_short(
    alloc: Global,
    gate: &Gate,
    xs: &[FingerEnds],
    front: &[Reached],
    again: bool,
    most: usize,
) -> Result<Option<IndexSet<Reached>>, NoMemory>
    requires p { All (λ net. net < 256) gate.now.p_fill }
    requires n { All (λ net. net < 256) gate.now.n_fill }
    requires known { again ≡ true → AreKnown gate.now xs.now front.now }
    ensures short { IfOk result (λ o. IfSome o (λ all.
        parts_of all.keys ≡ next_front gate.now xs.now (parts_of front.now))) }
    ensures known { IfOk result (λ o. IfSome o (λ all.
        is_again xs.now ≡ true → AreKnown gate.now (drop 1 xs.now) all.keys)) }
    ensures few { IfOk result (λ o. IfSome o (λ all. length all.keys ≤ most)) }
    ensures long { IfOk result (λ o. IfNone o (most < length (next_front gate.now xs.now (parts_of front.now)))) }
{
    let mut all = IndexSet::new(alloc);
    for reached in front {
        let known = known_now(again, reached);
        add_next(alloc, &mut all, gate, xs, &reached.part, known)?;
        if all.len() > most {
            return Ok(None);
        }
    }
    Ok(Some(all))
}
