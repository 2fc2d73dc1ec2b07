// Which gates are left open, and what lemmas are checked along then.
ghost use Rattle.std.specs.Prelude.{◌≡◌, IfErr, IfOk};
ghost use Rattle.cell_num.specs.Fingers.{AreFingers};
ghost use Rattle.pool_check.specs.Along.{IsAlong};
ghost use Rattle.pool_trails.specs.Ended.{HasManyOpen};
ghost use Rattle.pool_trails.specs.Inner.{ArePoolGates, Stops, stop_of};
ghost use Rattle.pool_trails.specs.Opening.{opened_of};

use crate::opening::opened_by;
use crate::{Opening, PoolStop};
use cell_num::{Fingers, NoMemory};
use open_gates::OpenGates;
use pool_check::{PoolOrder, PoolRefusal};
use std::alloc::Global;
use trail_log::NetList;
use trail_search::{fill, opened, order};

/// An order of the gates, those with half columns that are filled, and the others of these, which are left open.
#[derive(Debug, Drop)]
pub(crate) struct PoolGates {
    pub opening: Opening,
    pub order: NetList,
    pub fill: NetList,
    pub opened: OpenGates,
    /// No gate with half columns has too many ways to be filled.
    pub uncrowded: bool,
}

/// The gates in the order of trail_search, and which of them are left open.
#[tactic(auto, using(crate::proofs::Rules::gates_rules))]
pub(crate) fn pool_gates(
    alloc: Global,
    fingers: &Fingers,
    opening: Opening,
) -> Result<PoolGates, NoMemory>
    requires { AreFingers fingers.now }
    ensures gates { IfOk result (ArePoolGates fingers.now) }
    ensures opening { IfOk result (λ gates. gates.opening ≡ opening) }
{
    let order = order(alloc, fingers)?;
    let crowded = opened(alloc, fingers, &order)?;
    let uncrowded = crowded.len() == 0;
    let left_open = opened_by(alloc, opening, fingers, order.as_slice(), crowded)?;
    let fill = fill(alloc, fingers, &left_open)?;
    let opened = OpenGates::unfilled(alloc, fingers, fill.as_slice(), order.as_slice())?;
    Ok(PoolGates {
        opening,
        order,
        fill,
        opened,
        uncrowded,
    })
}

// Along an order of the gates no other cause is left.
fn stop_of(cause: &PoolRefusal) -> PoolStop
    ensures { result ≡ stop_of cause.now }
{
    match cause {
        PoolRefusal::NoMemory => PoolStop::NoMemory,
        _ => PoolStop::Crowded,
    }
}

/// The steps and levels of the order, where no gate has too many ways.
pub(crate) fn along(
    alloc: Global,
    fingers: &Fingers,
    gates: &PoolGates,
) -> Result<PoolOrder, PoolStop>
    requires fingers { AreFingers fingers.now }
    requires gates { ArePoolGates fingers.now gates.now }
    ensures along { IfOk result
        (IsAlong fingers.now (opened_of gates.now.opening fingers.now gates.now.order) gates.now.order) }
    ensures stopped { IfErr result (Stops (HasManyOpen gates.now.opening fingers.now)) }
{
    match PoolOrder::of(alloc, fingers, &gates.opened, gates.order.as_slice()) {
        Ok(along) => Ok(along),
        Err(cause) => Err(stop_of(&cause)),
    }
}
