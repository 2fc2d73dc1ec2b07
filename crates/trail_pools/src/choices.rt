ghost use Rattle.std.specs.Prelude.{◌≡◌, IfOk, map};
ghost use Rattle.cell_num.specs.Fingers.{AreFingers};
ghost use Rattle.open_gates.specs.Open.{fingers_at, fingers_beside, is_left_open};
ghost use Rattle.trail_state.specs.Pairings.{choices_of};
ghost use Rattle.trail_pools.specs.Choices.{ends_on, filled_choice, first_front, front_of, has_long_front};
ghost use Rattle.trail_pools.specs.Choices.{is_long_front, open_choices_of};
ghost use Rattle.trail_pools.specs.Meeting.{stays_open};

use crate::fingers::ends_on;
use crate::front::front_of;
use crate::short::is_long_front;
use cell_num::{Fingers, List, NetNo, NoMemory, Row};
use open_gates::gates::{fingers_at, fingers_beside};
use open_gates::{OpenGates, has_more};
use std::alloc::Global;
use trail_halves::OpenChoice;
use trail_state as filled;
use trail_state::{Choice, choices};

/// Whether the gate has half columns in the counted row, and they stay open.
pub fn stays_open(fingers: &Fingers, counted: &OpenGates, gate: NetNo) -> bool
    ensures { result ≡ stays_open fingers.now counted.now.row (is_left_open counted.now) gate.0 }
{
    counted.has(gate.0) && has_more(counted.row, fingers, &gate)
}

fn copy(choice: &OpenChoice) -> Result<OpenChoice, NoMemory>
    ensures { IfOk result (λ it. it ≡ choice.now) }
{
    Ok(OpenChoice {
        edges: choice.edges.clone()?,
        halves: choice.halves.clone()?,
    })
}

fn copy_all(alloc: Global, front: &[OpenChoice]) -> Result<List<OpenChoice>, NoMemory>
    ensures { IfOk result (λ all. all ≡ front.now) }
{
    let mut all = List::new(alloc);
    for choice in front {
        all.push(copy(choice)?)?;
    }
    Ok(all)
}

fn fill(alloc: Global, edges: &Choice) -> Result<OpenChoice, NoMemory>
    ensures { IfOk result (λ it. it ≡ filled_choice edges.now) }
{
    Ok(OpenChoice {
        edges: edges.clone()?,
        halves: List::new(alloc),
    })
}

fn fill_all(alloc: Global, lists: &[Choice]) -> Result<List<OpenChoice>, NoMemory>
    ensures { IfOk result (λ all. all ≡ map filled_choice lists.now) }
{
    let mut all = List::new(alloc);
    for edges in lists {
        all.push(fill(alloc, edges)?)?;
    }
    Ok(all)
}

fn filled(alloc: Global, fingers: &Fingers, gate: NetNo) -> Result<List<OpenChoice>, NoMemory>
    requires { AreFingers fingers.now }
    ensures { IfOk result (λ all. all ≡ map filled_choice (choices_of fingers.now gate.0)) }
{
    let lists = choices(alloc, fingers, gate)?;
    fill_all(alloc, lists.as_slice())
}

#[tactic(auto, using(crate::proofs::Fronts::at_small, crate::proofs::Fronts::beside_small))]
fn half_open(
    alloc: Global,
    fingers: &Fingers,
    row: Row,
    gate: NetNo,
) -> Result<List<OpenChoice>, NoMemory>
    requires { AreFingers fingers.now }
    ensures { IfOk result (λ all. all ≡ front_of row (ends_on gate.0 (fingers_at row fingers.now))
        (ends_on gate.0 (fingers_beside row fingers.now))) }
{
    let xs = ends_on(alloc, gate.0, fingers_at(row, fingers))?;
    let ys = ends_on(alloc, gate.0, fingers_beside(row, fingers))?;
    let front = front_of(alloc, row, xs.as_slice(), ys.as_slice())?;
    copy_all(alloc, front.as_slice())
}

/// The open choices of the gate, each once. Where the gate is counted, fingers of its longer row that stand alone are
/// half edges. Elsewhere an empty place is filled with each two nets of its row. It takes memory for all ways to pair
/// the gate's fingers column by column, so see first that they are not too many ([`has_long_front`]).
#[tactic(auto, unfolding(crate::specs::Choices::open_choices_of))]
pub fn open_choices(
    alloc: Global,
    fingers: &Fingers,
    counted: &OpenGates,
    gate: NetNo,
) -> Result<List<OpenChoice>, NoMemory>
    requires { AreFingers fingers.now }
    ensures { IfOk result (λ all. all ≡
        open_choices_of fingers.now counted.now.row (is_left_open counted.now) gate.0) }
{
    if stays_open(fingers, counted, gate) {
        half_open(alloc, fingers, counted.row, gate)
    } else {
        filled(alloc, fingers, gate)
    }
}

#[tactic(auto, using(crate::proofs::Fronts::at_small, crate::proofs::Fronts::beside_small))]
fn is_long_open(
    alloc: Global,
    fingers: &Fingers,
    row: Row,
    gate: NetNo,
    most: usize,
) -> Result<bool, NoMemory>
    requires { AreFingers fingers.now }
    ensures { IfOk result (λ long. long ≡ is_long_front most row
        (first_front (ends_on gate.0 (fingers_at row fingers.now))) (ends_on gate.0 (fingers_beside row fingers.now))) }
{
    let xs = ends_on(alloc, gate.0, fingers_at(row, fingers))?;
    let ys = ends_on(alloc, gate.0, fingers_beside(row, fingers))?;
    is_long_front(alloc, row, xs.as_slice(), ys.as_slice(), most)
}

/// Whether there are more than `most` ways to pair the first fingers of the gate, after one of them. It takes memory
/// for `most` ways, and those with one finger more of one of them.
#[tactic(auto, unfolding(crate::specs::Choices::has_long_front))]
pub fn has_long_front(
    alloc: Global,
    fingers: &Fingers,
    counted: &OpenGates,
    gate: NetNo,
    most: usize,
) -> Result<bool, NoMemory>
    requires { AreFingers fingers.now }
    ensures { IfOk result (λ long. long ≡
        has_long_front most fingers.now counted.now.row (is_left_open counted.now) gate.0) }
{
    if stays_open(fingers, counted, gate) {
        is_long_open(alloc, fingers, counted.row, gate, most)
    } else {
        filled::has_long_front(alloc, fingers, gate, most)
    }
}
