ghost use Rattle.std.specs.Prelude.{◌≡◌, ◌≤◌, ◌<◌, ◌+◌, ℕ, false, None, All, IfOk, IfErr, IsTrue, List as Sequence};
ghost use Rattle.cell_num.specs.Fingers.{AreFingers};
ghost use Rattle.row_model.specs.declared.column.Column.{Column};
ghost use Rattle.row_model.specs.Arrangement.{IsArrangement};
ghost use Rattle.row_model.specs.Gaps.{gaps_of};
ghost use Rattle.trail_state.specs.Levels.{AreLevels, IsOrder};
ghost use Rattle.open_gates.specs.Leveled.{levels_of};
ghost use Rattle.open_gates.specs.Listed.{HasFewNodes};
ghost use Rattle.trail_check.specs.Gates.{first_with_many};
ghost use Rattle.trail_search.specs.Lists.{AreRight};
ghost use Rattle.trail_search.specs.Proof.{AttemptsOnce, AttemptsStopped, EndsRefuting, HasMost};
ghost use Rattle.trail_search.specs.Units.{listed_units};

use crate::gate_order::order;
use crate::kept::Kept;
use crate::limits::{MOST_LIMIT, most_ends};
use crate::lists::ChoiceLists;
use crate::proof::RefuteStop;
use crate::relisted::filled_levels;
use crate::units::{CROWDED_UNITS, listed_units, take};
use crate::visit::visit;
use cell_num::{Fingers, Halt, List, NetNo};
use std::alloc::Global;
use trail_state::{Level, LevelStop, TrailState};

// The levels of the order, where no gate has too many ways and the units left are enough to list the choices of all.
#[tactic(auto, using(crate::proofs::Rules::listed_rules))]
fn listed(
    alloc: Global,
    fingers: &Fingers,
    order: &[NetNo],
    lists: &mut ChoiceLists,
    left: &mut u64,
) -> Result<List<Level>, RefuteStop>
    requires fingers { AreFingers fingers.now }
    requires order { IsOrder fingers.now order.now }
    requires right { AreRight lists.old }
    ensures right { AreRight lists.new }
    ensures are { IfOk result (AreLevels fingers.now order.now) }
    ensures is { IfOk result (λ levels. levels ≡ levels_of fingers.now order.now) }
    ensures nodes { IfOk result (All HasFewNodes) }
    ensures few_ways { IfOk result (λ _. first_with_many fingers.now order.now ≡ None) }
    ensures taken { IfOk result (λ levels. left.new + listed_units None levels ≡ left.old) }
    ensures left { left.new ≤ left.old }
    ensures halted { IfErr result (EndsRefuting fingers.now left.new) }
    ensures attempt { IfErr result (λ why. (limit : ℕ) → AttemptsStopped fingers.now limit left.old left.new why) }
{
    match filled_levels(alloc, fingers, order, lists) {
        Ok(levels) => {
            if !take(left, listed_units(&levels)) {
                return Err(RefuteStop::Spent);
            }
            Ok(levels)
        }
        Err(LevelStop::Long { gate }) => {
            if !take(left, CROWDED_UNITS) {
                return Err(RefuteStop::Spent);
            }
            Err(RefuteStop::Choices { gate })
        }
        Err(LevelStop::NoMemory) => Err(RefuteStop::NoMemory),
    }
}

/// Whether it is proved that every arrangement of the fingers has more than `limit` gaps: a limit up to 30 is refuted
/// where lemmas in the order that is tried can refute it. It takes at most `left` units, and leaves there how many are
/// left for later calls: those of a list of all choices, and of a visit of each state of which no lemma says so much.
#[tactic(auto, using(crate::proofs::Rules::is_refuted_rules))]
pub(crate) fn is_refuted(
    alloc: Global,
    fingers: &Fingers,
    limit: u32,
    lists: &mut ChoiceLists,
    left: &mut u64,
) -> Result<bool, RefuteStop>
    requires fingers { AreFingers fingers.now }
    requires right { AreRight lists.old }
    ensures right { AreRight lists.new }
    ensures refuted { IfOk result (λ yes. IsTrue yes → (row : Sequence Column) → IsArrangement row fingers.now →
        limit < gaps_of row) }
    ensures most { IfOk result (λ yes. yes ≡ false → limit ≤ 30 → HasMost fingers.now limit) }
    ensures left { left.new ≤ left.old }
    ensures halted { IfErr result (EndsRefuting fingers.now left.new) }
    ensures attempt { IfOk result (λ _. AttemptsOnce fingers.now limit left.old left.new) }
    ensures attempt_stopped { IfErr result (AttemptsStopped fingers.now limit left.old left.new) }
{
    if limit > MOST_LIMIT {
        return Ok(false);
    }
    let order = order(alloc, fingers)?;
    let levels = match listed(alloc, fingers, order.as_slice(), lists, left) {
        Ok(levels) => levels,
        Err(why) => return Err(why),
    };
    let mut kept = Kept::new(alloc);
    match visit(
        alloc,
        &levels,
        &mut kept,
        left,
        0,
        &TrailState::new(alloc),
        most_ends(limit),
    ) {
        Ok(_) => Ok(limit < kept.gaps()),
        Err(Halt::Spent) => Err(RefuteStop::Spent),
        Err(Halt::NoMemory) => Err(RefuteStop::NoMemory),
    }
}
