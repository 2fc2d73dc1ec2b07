ghost use Rattle.std.specs.Prelude.{◌≡◌, ◌<◌, true, false, All, IfNone, IfOk, IfSome, drop};
ghost use Rattle.std.specs.List.{list_any, range_with_len};
ghost use Rattle.trail_state.specs.Fronts.{choices_of, columns_in, edges_of, front_at, has_long_front, is_long_at};
ghost use Rattle.trail_state.specs.Known.{parts_of};

use crate::edge::{Choice, FingerEnds};
use crate::front::{Reached, first_front, is_again, next_front, next_short};
use crate::gate::Gate;
use cell_num::{List, NoMemory};
use indexmap::IndexSet;
use std::alloc::Global;

fn columns(gate: &Gate) -> usize
    ensures { result ≡ columns_in gate.now }
{
    gate.p.len().max(gate.n.len())
}

// The P fingers that are in none of the first columns.
fn behind(gate: &Gate, at: usize) -> &[FingerEnds]
    ensures { result.now ≡ drop at gate.now.p }
{
    gate.p.as_slice().get(at..).unwrap_or(&[])
}

// The front after all columns.

fn last_front(alloc: Global, gate: &Gate) -> Result<IndexSet<Reached>, NoMemory>
    requires p { All (λ net. net < 256) gate.now.p_fill }
    requires n { All (λ net. net < 256) gate.now.n_fill }
    ensures { IfOk result (λ front. parts_of front.keys ≡ front_at gate.now (columns_in gate.now)) }
{
    let mut front = first_front(alloc, gate)?;
    let mut again = false;
    for at in 0..columns(gate) {
        let xs = behind(gate, at);
        front = next_front(alloc, gate, xs, front.as_slice(), again)?;
        again = is_again(xs);
    }
    Ok(front)
}

// The same, where no front has more than `most` parts. It stops at one that has.
#[tactic(auto, using(crate::proofs::Parts::long_some, crate::proofs::Parts::long_none))]
fn short_front(
    alloc: Global,
    gate: &Gate,
    most: usize,
) -> Result<Option<IndexSet<Reached>>, NoMemory>
    requires p { All (λ net. net < 256) gate.now.p_fill }
    requires n { All (λ net. net < 256) gate.now.n_fill }
    ensures parts { IfOk result (λ o. IfSome o (λ front.
        parts_of front.keys ≡ front_at gate.now (columns_in gate.now))) }
    ensures short { IfOk result (λ o. IfSome o (λ _.
        list_any (is_long_at most gate.now) (range_with_len 0 (columns_in gate.now)) ≡ false)) }
    ensures long { IfOk result (λ o. IfNone o (
        list_any (is_long_at most gate.now) (range_with_len 0 (columns_in gate.now)) ≡ true)) }
{
    let mut front = first_front(alloc, gate)?;
    let mut again = false;
    for at in 0..columns(gate) {
        let xs = behind(gate, at);
        match next_short(alloc, gate, xs, front.as_slice(), again, most)? {
            Some(next) => front = next,
            None => return Ok(None),
        }
        again = is_again(xs);
    }
    Ok(Some(front))
}

fn edges_of(alloc: Global, all: &[Reached]) -> Result<List<Choice>, NoMemory>
    ensures { IfOk result (λ choices. choices ≡ edges_of (parts_of all.now)) }
{
    let mut choices = List::new(alloc);
    for reached in all {
        choices.push(List::from_vec(reached.part.edges.as_slice().to_vec(alloc)?))?;
    }
    Ok(choices)
}

/// The choices of the gate, each once. A place that stays empty is filled with each two of the nets of its row.
#[tactic(auto, unfolding(crate::specs::Fronts::choices_of))]
pub(crate) fn choices(alloc: Global, gate: &Gate) -> Result<List<Choice>, NoMemory>
    requires p { All (λ net. net < 256) gate.now.p_fill }
    requires n { All (λ net. net < 256) gate.now.n_fill }
    ensures { IfOk result (λ all. all ≡ choices_of gate.now) }
{
    let front = last_front(alloc, gate)?;
    edges_of(alloc, front.as_slice())
}

/// The choices of the gate, where after none of its columns there are more than `most` ways to pair its fingers so far.
/// It takes memory for `most` of these, and those with one column more of one of them.
#[tactic(auto, unfolding(crate::specs::Fronts::choices_of, crate::specs::Fronts::has_long_front))]
pub(crate) fn choices_within(
    alloc: Global,
    gate: &Gate,
    most: usize,
) -> Result<Option<List<Choice>>, NoMemory>
    requires p { All (λ net. net < 256) gate.now.p_fill }
    requires n { All (λ net. net < 256) gate.now.n_fill }
    ensures all { IfOk result (λ o. IfSome o (λ all. all ≡ choices_of gate.now)) }
    ensures few { IfOk result (λ o. IfSome o (λ _. has_long_front most gate.now ≡ false)) }
    ensures many { IfOk result (λ o. IfNone o (has_long_front most gate.now ≡ true)) }
{
    match short_front(alloc, gate, most)? {
        Some(front) => Ok(Some(edges_of(alloc, front.as_slice())?)),
        None => Ok(None),
    }
}

/// Whether after one of the columns of the gate there are more than `most` ways to pair its fingers so far: the edges
/// of the columns with the N fingers that are left, each once. It takes memory for `most` of them, and those with one
/// column more of one of them.
#[tactic(auto, unfolding(crate::specs::Fronts::has_long_front))]
pub(crate) fn has_long_front(alloc: Global, gate: &Gate, most: usize) -> Result<bool, NoMemory>
    requires p { All (λ net. net < 256) gate.now.p_fill }
    requires n { All (λ net. net < 256) gate.now.n_fill }
    ensures { IfOk result (λ long. long ≡ has_long_front most gate.now) }
{
    match short_front(alloc, gate, most)? {
        Some(_) => Ok(false),
        None => Ok(true),
    }
}
