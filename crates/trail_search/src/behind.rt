ghost use Rattle.std.specs.Prelude.{◌≡◌, ◌++◌, IfOk, OnOk, length, replicate};
ghost use Rattle.row_state.specs.Completion.{finger_of, fingers_left};
ghost use Rattle.row_state.specs.Start.{IsState};
ghost use Rattle.trail_search.specs.Behind.{before, fingers_behind, front_finger};

use cell_num::{Finger, FingerList, Fingers, NetNo, NoMemory, Row};
use row_state::{Kind, Kinds, State};
use std::alloc::Global;

// The finger that stands for the last one of the row, by the open end that it leaves: on a gate of its own.
fn front(row: Row, own: u32, end: &NetNo) -> Finger
    ensures { result ≡ front_finger row own end.now }
{
    Finger {
        row,
        gate: NetNo(own),
        lo: *end,
        hi: NetNo(own),
        width: 0,
    }
}

fn put_front(
    fingers: &mut FingerList,
    row: Row,
    own: u32,
    end: &Option<NetNo>,
) -> Result<(), NoMemory>
    ensures { OnOk result (fingers.new ≡ fingers.old ++ before row own end.now) }
{
    if let Some(net) = end {
        fingers.push(front(row, own, net))?;
    }
    Ok(())
}

fn finger(row: Row, kind: &Kind) -> Finger
    ensures { result ≡ finger_of row kind.now }
{
    Finger {
        row,
        gate: kind.gate,
        lo: kind.lo,
        hi: kind.hi,
        width: kind.width,
    }
}

fn put_kind(fingers: &mut FingerList, row: Row, kind: &Kind, count: u32) -> Result<(), NoMemory>
    ensures { OnOk result (fingers.new ≡ fingers.old ++ replicate count (finger_of row kind.now)) }
{
    for _ in 0..count {
        fingers.push(finger(row, kind))?;
    }
    Ok(())
}

#[tactic(auto, using(crate::proofs::Listed::kind_put, crate::proofs::Listed::kinds_put))]
fn put_left(
    fingers: &mut FingerList,
    row: Row,
    kinds: &[Kind],
    left: &[u32],
) -> Result<(), NoMemory>
    requires { length left.now ≡ length kinds.now }
    ensures { OnOk result (fingers.new ≡ fingers.old ++ fingers_left row kinds.now left.now) }
{
    for at in 0..kinds.len() {
        put_kind(fingers, row, &kinds[at], left[at])?;
    }
    Ok(())
}

fn row_behind(
    alloc: Global,
    row: Row,
    own: u32,
    end: &Option<NetNo>,
    kinds: &[Kind],
    left: &[u32],
) -> Result<FingerList, NoMemory>
    requires { length left.now ≡ length kinds.now }
    ensures { IfOk result (λ fingers. fingers ≡ before row own end.now ++ fingers_left row kinds.now left.now) }
{
    let mut fingers = FingerList::new(alloc);
    put_front(&mut fingers, row, own, end)?;
    put_left(&mut fingers, row, kinds, left)?;
    Ok(fingers)
}

/// The fingers that the state has left, and those of a column before them that leaves its open ends.
pub(crate) fn behind(alloc: Global, kinds: &Kinds, state: &State) -> Result<Fingers, NoMemory>
    requires { IsState kinds.now state.now }
    ensures { IfOk result (λ fingers. fingers ≡ fingers_behind kinds.now state.now) }
{
    kinds.show_limits();
    let own = kinds.nets;
    Ok(Fingers {
        nets: own + 1,
        p: row_behind(
            alloc,
            Row::P,
            own,
            &state.p_end,
            kinds.p.as_slice(),
            state.p_left.as_slice(),
        )?,
        n: row_behind(
            alloc,
            Row::N,
            own,
            &state.n_end,
            kinds.n.as_slice(),
            state.n_left.as_slice(),
        )?,
    })
}
