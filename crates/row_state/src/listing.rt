ghost use Rattle.std.specs.Prelude.{None, [], if◌then◌else◌, ◌≡◌, ◌≤◌, ◌++◌, ltb, Some, IfOk, OnOk, length};
ghost use Rattle.std.specs.List.{flat_map};
ghost use Rattle.row_state.specs.Start.{IsState};
ghost use Rattle.row_state.specs.Steps.{AreSuccessors, Unfolds};
ghost use Rattle.row_state.specs.Runs.{IsOnGate, IsRun};
ghost use Rattle.row_state.specs.Tests.{columns_on, next_columns, sides_on, turns_left, with_each, with_side};

use crate::gate::{OnGate, Run, on_gate};
use crate::{Kind, Kinds, Side, State, Step, Steps};
use cell_num::{MOST_COLUMNS, NoMemory};
use std::alloc::Global;

// The step with an N finger of the kind, in each orientation of its own, where one is left.
fn push_turns(
    steps: &mut Steps,
    p: Option<Side>,
    at: u32,
    kind: &Kind,
    count: u32,
) -> Result<(), NoMemory>
    ensures { OnOk result (steps.new ≡ steps.old ++ with_each p (turns_left at kind.now count)) }
{
    if count == 0 {
        return Ok(());
    }
    steps.push(Step {
        p,
        n: Some(Side {
            kind: at,
            flipped: false,
        }),
    })?;
    if kind.lo != kind.hi {
        steps.push(Step {
            p,
            n: Some(Side {
                kind: at,
                flipped: true,
            }),
        })?;
    }
    Ok(())
}

// The step with each N side on the gate.
fn push_each(
    steps: &mut Steps,
    p: Option<Side>,
    kinds: &[Kind],
    left: &[u32],
    gate: u32,
    run: Run,
) -> Result<(), NoMemory>
    requires few { length kinds.now ≤ MOST_COLUMNS }
    requires same { length left.now ≡ length kinds.now }
    requires run { IsRun kinds.now left.now gate run }
    ensures { OnOk result (steps.new ≡ steps.old ++ with_each p (sides_on kinds.now left.now gate)) }
{
    for at in run.from..run.to {
        push_turns(steps, p, at as u32, &kinds[at], left[at])?;
    }
    Ok(())
}

// The columns with the P side: a half one may stand where the gate has more fingers left in the P row.
#[tactic(auto, using(crate::proofs::Valid::kinds_few_n))]
fn push_side(
    steps: &mut Steps,
    p: Side,
    state: &State,
    kinds: &Kinds,
    on: &OnGate,
) -> Result<(), NoMemory>
    requires state { IsState kinds.now state.now }
    requires on { IsOnGate kinds.now state.now on.now }
    ensures { OnOk result (steps.new ≡ steps.old ++ with_side (sides_on kinds.now.n state.now.n_left on.now.gate)
        (ltb on.now.n.left on.now.p.left) p) }
{
    let n_kinds = kinds.n.as_slice();
    let n_left = state.n_left.as_slice();
    push_each(steps, Some(p), n_kinds, n_left, on.gate, on.n)?;
    if on.n.left < on.p.left {
        steps.push(Step {
            p: Some(p),
            n: None,
        })?;
    }
    Ok(())
}

// The columns with a P finger of the kind, in each orientation of its own, where one is left.
fn push_kind(
    steps: &mut Steps,
    at: u32,
    kind: &Kind,
    count: u32,
    state: &State,
    kinds: &Kinds,
    on: &OnGate,
) -> Result<(), NoMemory>
    requires state { IsState kinds.now state.now }
    requires on { IsOnGate kinds.now state.now on.now }
    ensures { OnOk result (steps.new ≡ steps.old ++ flat_map (with_side
        (sides_on kinds.now.n state.now.n_left on.now.gate) (ltb on.now.n.left on.now.p.left))
        (turns_left at kind.now count)) }
{
    if count == 0 {
        return Ok(());
    }
    let side = Side {
        kind: at,
        flipped: false,
    };
    push_side(steps, side, state, kinds, on)?;
    if kind.lo != kind.hi {
        let side = Side {
            kind: at,
            flipped: true,
        };
        push_side(steps, side, state, kinds, on)?;
    }
    Ok(())
}

// The columns with a P finger on the gate.
#[tactic(auto, using(crate::proofs::Valid::kinds_few_p))]
fn push_filled(steps: &mut Steps, state: &State, kinds: &Kinds, on: &OnGate) -> Result<(), NoMemory>
    requires state { IsState kinds.now state.now }
    requires on { IsOnGate kinds.now state.now on.now }
    ensures { OnOk result (steps.new ≡ steps.old ++ flat_map (with_side
        (sides_on kinds.now.n state.now.n_left on.now.gate) (ltb on.now.n.left on.now.p.left))
        (sides_on kinds.now.p state.now.p_left on.now.gate)) }
{
    let p_kinds = kinds.p.as_slice();
    let p_left = state.p_left.as_slice();
    for at in on.p.from..on.p.to {
        push_kind(steps, at as u32, &p_kinds[at], p_left[at], state, kinds, on)?;
    }
    Ok(())
}

// The columns with an N finger alone: they may stand where the gate has more fingers left in the N row.
#[tactic(auto, using(crate::proofs::Valid::kinds_few_n))]
fn push_alone(steps: &mut Steps, state: &State, kinds: &Kinds, on: &OnGate) -> Result<(), NoMemory>
    requires state { IsState kinds.now state.now }
    requires on { IsOnGate kinds.now state.now on.now }
    ensures { OnOk result (steps.new ≡ steps.old ++ (if ltb on.now.p.left on.now.n.left then with_each None
        (sides_on kinds.now.n state.now.n_left on.now.gate) else [])) }
{
    if on.p.left < on.n.left {
        let n_kinds = kinds.n.as_slice();
        let n_left = state.n_left.as_slice();
        push_each(steps, None, n_kinds, n_left, on.gate, on.n)?;
    }
    Ok(())
}

#[tactic(auto, using(crate::proofs::Calls::on_gate_is))]
fn push_on_gate(
    steps: &mut Steps,
    state: &State,
    kinds: &Kinds,
    on: &OnGate,
) -> Result<(), NoMemory>
    requires state { IsState kinds.now state.now }
    requires on { IsOnGate kinds.now state.now on.now }
    ensures { OnOk result (steps.new ≡ steps.old ++ columns_on kinds.now state.now on.now.gate) }
{
    push_filled(steps, state, kinds, on)?;
    push_alone(steps, state, kinds, on)?;
    Ok(())
}

#[tactic(auto, using(crate::proofs::Runs::first_gates, crate::proofs::Valid::p_fits, crate::proofs::Valid::n_fits))]
fn list_next(alloc: Global, state: &State, kinds: &Kinds) -> Result<Steps, NoMemory>
    requires state { IsState kinds.now state.now }
    ensures { IfOk result (λ steps. steps ≡ next_columns kinds.now state.now) }
{
    let mut steps = Steps::new(alloc);
    let mut p_from = 0;
    let mut n_from = 0;
    for gate in 0..kinds.nets {
        let on = on_gate(state, kinds, gate, p_from, n_from);
        push_on_gate(&mut steps, state, kinds, &on)?;
        p_from = on.p.to;
        n_from = on.n.to;
    }
    Ok(steps)
}

/// All possible next columns, each once: by gate, P kind, P orientation, N kind and N orientation, an
/// empty place after all kinds and unflipped before flipped.
#[tactic(auto, using(crate::proofs::Calls::next_succeed, crate::proofs::Calls::next_unfold))]
pub fn successors(alloc: Global, state: &State, kinds: &Kinds) -> Result<Steps, NoMemory>
    requires state { IsState kinds.now state.now }
    ensures steps { IfOk result (λ steps. AreSuccessors kinds.now state.now steps) }
    ensures unfolds { IfOk result (λ steps. Unfolds kinds.now state.now steps) }
{
    kinds.show_limits();
    let steps = list_next(alloc, state, kinds)?;
    Ok(steps)
}
