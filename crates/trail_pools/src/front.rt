ghost use Rattle.std.specs.Prelude.{◌≡◌, IfOk, OnOk};
ghost use Rattle.trail_pools.specs.Choices.{beside, beside_one, first_front, front_of, next_front, with_all};
ghost use Rattle.trail_pools.specs.Choices.{with_column, with_new};

use crate::fingers::column_edges;
use cell_num::{List, NoMemory, Row};
use indexmap::IndexSet;
use std::alloc::Global;
use trail_halves::OpenChoice;
use trail_state::edge::FingerEnds;
use trail_state::left::without;
use trail_state::{Edge, insert};

fn add(all: &mut IndexSet<OpenChoice>, choice: OpenChoice) -> Result<(), NoMemory>
    ensures { OnOk result (all.new.keys ≡ with_new all.old.keys choice) }
{
    match all.insert_full(choice) {
        Ok(_) => Ok(()),
        Err(_) => Err(NoMemory),
    }
}

// Adds the choice with each of the edges, and these half edges left.
fn add_column(
    alloc: Global,
    all: &mut IndexSet<OpenChoice>,
    choice: &OpenChoice,
    halves: &[FingerEnds],
    edges: &[Edge],
) -> Result<(), NoMemory>
    ensures { OnOk result (all.new.keys ≡ with_all all.old.keys (with_column choice.now halves.now edges.now)) }
{
    for edge in edges {
        let more = OpenChoice {
            edges: insert(alloc, edge, choice.edges.as_slice())?,
            halves: List::from_vec(halves.to_vec(alloc)?),
        };
        add(all, more)?;
    }
    Ok(())
}

// Adds the choice with the finger of the other row beside this one of the half edges.
fn add_one(
    alloc: Global,
    all: &mut IndexSet<OpenChoice>,
    row: Row,
    y: FingerEnds,
    choice: &OpenChoice,
    x: FingerEnds,
) -> Result<(), NoMemory>
    ensures { OnOk result (all.new.keys ≡ with_all all.old.keys (beside_one row y choice.now x)) }
{
    let left = without(alloc, x, choice.halves.as_slice())?;
    add_column(
        alloc,
        all,
        choice,
        left.as_slice(),
        &column_edges(row, x, y),
    )
}

/// Adds the choice with the finger of the other row beside each of the half edges.
#[tactic(auto, using(crate::proofs::Fronts::each_added))]
pub(crate) fn add_beside(
    alloc: Global,
    all: &mut IndexSet<OpenChoice>,
    row: Row,
    y: FingerEnds,
    choice: &OpenChoice,
) -> Result<(), NoMemory>
    ensures { OnOk result (all.new.keys ≡ with_all all.old.keys (beside row y choice.now)) }
{
    for x in choice.halves.as_slice() {
        add_one(alloc, all, row, y, choice, *x)?;
    }
    Ok(())
}

/// All fingers of the row alone.
pub(crate) fn first_front(
    alloc: Global,
    xs: &[FingerEnds],
) -> Result<IndexSet<OpenChoice>, NoMemory>
    ensures { IfOk result (λ front. front.keys ≡ first_front xs.now) }
{
    let mut front = IndexSet::new(alloc);
    let choice = OpenChoice {
        edges: List::new(alloc),
        halves: List::from_vec(xs.to_vec(alloc)?),
    };
    add(&mut front, choice)?;
    Ok(front)
}

fn next_front(
    alloc: Global,
    row: Row,
    front: &[OpenChoice],
    y: FingerEnds,
) -> Result<IndexSet<OpenChoice>, NoMemory>
    ensures { IfOk result (λ all. all.keys ≡ next_front row front.now y) }
{
    let mut all = IndexSet::new(alloc);
    for choice in front {
        add_beside(alloc, &mut all, row, y, choice)?;
    }
    Ok(all)
}

/// The fingers of the row, with those of the other row beside some of them: each way once.
pub(crate) fn front_of(
    alloc: Global,
    row: Row,
    xs: &[FingerEnds],
    ys: &[FingerEnds],
) -> Result<IndexSet<OpenChoice>, NoMemory>
    ensures { IfOk result (λ front. front.keys ≡ front_of row xs.now ys.now) }
{
    let mut front = first_front(alloc, xs)?;
    for y in ys {
        front = next_front(alloc, row, front.as_slice(), *y)?;
    }
    Ok(front)
}
