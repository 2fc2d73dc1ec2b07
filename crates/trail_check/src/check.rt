ghost use Rattle.std.specs.Prelude.{◌≡◌, ◌≢◌, ◌≤◌, All, IfErr, IfOk, length, ℕ};
ghost use Rattle.cell_num.specs.Fingers.{AreFingers};
ghost use Rattle.trail_check.specs.Accepted.{AreTrueOf, IsAccepted, IsLow, IsNeverAccepted};
ghost use Rattle.trail_check.specs.Gates.{AreGates, HasFewWays};
ghost use Rattle.trail_check.specs.Leveled.{closed_of, levels_for, open_of};
ghost use Rattle.trail_state.specs.Levels.{StopsAt};
ghost use Rattle.open_gates.specs.Listed.{HasFewNodes};
ghost use Rattle.trail_check.specs.Refusal.{IsFault, Proves, Refuses};
ghost use Rattle.trail_check.specs.declared.refusal.TrailRefusal.TheVariants as refusal;

use crate::gates::are_gates;
use crate::{MOST_CHOICES, TrailRefusal, check_lemmas, check_row};
use cell_num::{Fingers, List, MOST_BYTES, NoMemory};
use open_gates::{OpenGates, open_levels_within};
use std::alloc::Global;
use trail_log::TrailCertificate;
use trail_state::{Level, LevelStop};

// The gates that are left open.
fn open_of(
    alloc: Global,
    fingers: &Fingers,
    trails: &TrailCertificate,
) -> Result<OpenGates, NoMemory>
    ensures { IfOk result (λ opened. opened ≡ open_of fingers.now trails.now) }
{
    OpenGates::unfilled(
        alloc,
        fingers,
        trails.fill.as_slice(),
        trails.order.as_slice(),
    )
}

// The levels of the order. It stops at the first gate with too many ways that is not left open.
#[tactic(auto, using(crate::proofs::Rules::levels_rules))]
fn levels_for(
    alloc: Global,
    fingers: &Fingers,
    trails: &TrailCertificate,
    opened: &OpenGates,
) -> Result<List<Level>, LevelStop>
    requires fingers { AreFingers fingers.now }
    requires opened { opened.now ≡ open_of fingers.now trails.now }
    ensures is { IfOk result (λ levels. levels ≡ levels_for fingers.now trails.now) }
    ensures nodes { IfOk result (All HasFewNodes) }
    ensures few_ways { IfOk result (λ _. HasFewWays fingers.now trails.now) }
    ensures stops { IfErr result (StopsAt MOST_CHOICES fingers.now (closed_of fingers.now trails.now)) }
{
    match open_levels_within(
        alloc,
        fingers,
        opened,
        trails.order.as_slice(),
        MOST_CHOICES,
    ) {
        Ok(levels) => Ok(levels),
        Err(why) => Err(why),
    }
}

// The levels, the lemmas and the row, where the gates are as asked.
#[tactic(auto, using(crate::proofs::Rules::check_listed_rules))]
fn check_listed(
    alloc: Global,
    fingers: &Fingers,
    trails: &TrailCertificate,
    opened: &OpenGates,
) -> Result<u32, TrailRefusal>
    requires fingers { AreFingers fingers.now }
    requires opened { opened.now ≡ open_of fingers.now trails.now }
    requires gates { AreGates fingers.now trails.now }
    requires few { length trails.now.lemmas ≤ MOST_BYTES }
    ensures accepted { IfOk result (IsAccepted fingers.now trails.now) }
    ensures refused { IfErr result (λ cause. cause ≢ refusal.NoMemory → Refuses fingers.now trails.now cause) }
    ensures few_ways { IfOk result (λ _. HasFewWays fingers.now trails.now) }
    ensures least { IfOk result (IsLow fingers.now) }
    ensures low { IfErr result (Proves (IsLow fingers.now)) }
{
    let levels = match levels_for(alloc, fingers, trails, opened) {
        Ok(levels) => levels,
        Err(LevelStop::Long { gate }) => return Err(TrailRefusal::Choices { gate }),
        Err(LevelStop::NoMemory) => return Err(TrailRefusal::NoMemory),
    };
    let ends = check_lemmas(alloc, levels.as_slice(), trails.lemmas.as_slice())?;
    check_row(alloc, fingers, &trails.best, ends.saturating_sub(1) / 2)
}

/// The gaps of the row that the certificate lists, where it is accepted: no arrangement of the fingers has fewer. Else
/// the first cause to refuse it. A gate with too many ways is no fault of the certificate, nor is a lack of memory.
/// Each lemma of an accepted certificate is true. At most [`MOST_BYTES`] lemmas.
#[tactic(auto, using(crate::proofs::Rules::check_trails_rules))]
pub fn check_trails(
    alloc: Global,
    fingers: &Fingers,
    trails: &TrailCertificate,
) -> Result<u32, TrailRefusal>
    requires fingers { AreFingers fingers.now }
    requires few { length trails.now.lemmas ≤ MOST_BYTES }
    ensures accepted { IfOk result (IsAccepted fingers.now trails.now) }
    ensures refused { IfErr result (λ cause. cause ≢ refusal.NoMemory → Refuses fingers.now trails.now cause) }
    ensures few_ways { IfOk result (λ _. HasFewWays fingers.now trails.now) }
    ensures never { IfErr result (λ cause. IsFault cause → IsNeverAccepted fingers.now trails.now) }
    ensures least { IfOk result (IsLow fingers.now) }
    ensures low { IfErr result (Proves (IsLow fingers.now)) }
    ensures law { (gaps : ℕ) → IsAccepted fingers.now trails.now gaps → IsLow fingers.now gaps }
    ensures lemmas { IfOk result (λ _. AreTrueOf fingers.now trails.now) }
{
    let opened = open_of(alloc, fingers, trails)?;
    if !are_gates(fingers, trails, &opened) {
        return Err(TrailRefusal::Gates);
    }
    check_listed(alloc, fingers, trails, &opened)
}
