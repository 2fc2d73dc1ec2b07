ghost use Rattle.std.specs.Prelude.{◌≡◌, ◌↔◌, All, IsTrue, IfOk, IfErr};
ghost use Rattle.std.specs.List.{list_all};
ghost use Rattle.cell_num.specs.Fingers.{AreFingers};
ghost use Rattle.log_check.specs.Accepted.{columns_listed, IsListed, IsRow, RowPasses};
ghost use Rattle.log_check.specs.Refusal.{RowRefuses};
ghost use Rattle.log_check.specs.Tests.{place_test, listed_test};

use crate::Refused;
use bound_log::{Best, LogStep};
use cell_num::{Fingers, List, NetNo, NoMemory};
use row_model::{Arrangement, Column, gaps, is_arrangement};
use row_state::{Kind, Kinds, Side, column};
use std::alloc::{AllocError, Global};

// Whether the place is empty, or its kind is one of the kinds and has the gate.
fn has_gate(kinds: &[Kind], gate: NetNo, side: &Option<Side>) -> bool
    ensures { result ≡ place_test kinds.now gate side.now }
{
    match side {
        Some(side) => match kinds.get(side.kind as usize) {
            Some(kind) => kind.gate == gate,
            None => false,
        },
        None => true,
    }
}

fn is_listed(kinds: &Kinds, listed: &LogStep) -> bool
    ensures { result ≡ listed_test kinds.now listed.now }
{
    has_gate(kinds.p.as_slice(), listed.gate, &listed.step.p)
        && has_gate(kinds.n.as_slice(), listed.gate, &listed.step.n)
}

fn all_listed(kinds: &Kinds, steps: &[LogStep]) -> bool
    ensures { result ≡ list_all (listed_test kinds.now) steps.now }
{
    steps.iter().all(|listed| is_listed(kinds, listed))
}

#[tactic(auto, using(crate::proofs::Places::listed_decide))]
fn are_listed(kinds: &Kinds, steps: &[LogStep]) -> bool
    ensures { IsTrue result ↔ All (IsListed kinds.now) steps.now }
{
    all_listed(kinds, steps)
}

fn columns(alloc: Global, kinds: &Kinds, steps: &[LogStep]) -> Result<Vec<Column>, AllocError>
    ensures { IfOk result (λ columns. columns.items ≡ columns_listed kinds.now steps.now) }
{
    steps
        .iter()
        .map(|listed| column(&listed.step, kinds))
        .collect(alloc)
}

/// The columns of a listed row, by the kinds of its fingers.
pub fn arrangement(alloc: Global, kinds: &Kinds, steps: &[LogStep]) -> Result<Arrangement, NoMemory>
    ensures { IfOk result (λ row. row ≡ columns_listed kinds.now steps.now) }
{
    Ok(List::from_vec(columns(alloc, kinds, steps)?))
}

fn is_row(kinds: &Kinds, steps: &[LogStep], row: &Arrangement, fingers: &Fingers) -> bool
    requires fingers { AreFingers fingers.now }
    requires row { row.now ≡ columns_listed kinds.now steps.now }
    ensures { IsTrue result ↔ IsRow kinds.now fingers.now steps.now }
{
    are_listed(kinds, steps) && is_arrangement(row, fingers)
}

// The gaps of the listed row, where the lemmas prove that each row has at least `best` of them.
pub(crate) fn check_row(
    alloc: Global,
    fingers: &Fingers,
    kinds: &Kinds,
    listed: &Best,
    best: u32,
) -> Result<u32, Refused>
    requires fingers { AreFingers fingers.now }
    ensures passes { IfOk result (RowPasses kinds.now fingers.now best listed.now) }
    ensures refuses { IfErr result (RowRefuses kinds.now fingers.now best listed.now) }
{
    let steps = listed.steps.as_slice();
    let row = arrangement(alloc, kinds, steps)?;
    if !is_row(kinds, steps, &row, fingers) {
        return Err(Refused::NotArrangement);
    }
    let counted = gaps(&row);
    let said = listed.gaps;
    if said != counted {
        return Err(Refused::Gaps { said, counted });
    }
    if best < said {
        return Err(Refused::NotLeast { best, said });
    }
    Ok(said)
}
