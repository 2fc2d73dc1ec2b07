ghost use Rattle.std.specs.Prelude.{◌≡◌, ◌≤◌, ◌<◌, ◌+◌, ◌*◌, [], true, false, IfOk, IfErr, length};
ghost use Rattle.cell_num.specs.Fingers.{AreFingers};
ghost use Rattle.trail_state.specs.Levels.{Ends};
ghost use Rattle.trail_check.specs.Justified.{ends_proved, gaps_proved};
ghost use Rattle.trail_check.specs.Leveled.{levels_for};
ghost use Rattle.trail_search.specs.Proof.{AreSpent, IsMostOf, IsProof, StopsProving, gate_units};
ghost use Rattle.trail_search.specs.Reached.{AreReached};
ghost use Rattle.trail_search.specs.Search.{AreChained, AreKept, AreSmall, AreTied, IsFurther};
ghost use Rattle.trail_search.specs.Units.{path_units};

use crate::gate_order::order;
use crate::kept::Kept;
use crate::listing::listing;
use crate::proof::{Proof, ProveStop};
use crate::visit::visit;
use cell_num::{Fingers, Halt, List, NoMemory};
use std::alloc::Global;
use trail_log::TrailCertificate;
use trail_state::{Level, LevelStop, TrailState};

/// The greatest limit that is tried: a row of 32 columns has no more gaps than 31.
pub(crate) const MOST_LIMIT: u32 = 30;

/// The ends of trails of a row with this number of gaps.
pub(crate) fn most_ends(limit: u32) -> u32
    requires { limit ≤ MOST_LIMIT }
    ensures { result ≡ 2 * (limit + 1) }
{
    2 * (limit + 1)
}

// Refutes the limits in turn, from 0 on; whether it came to one that it does not refute before the units were spent.
#[tactic(auto, using(crate::proofs::Grown::further_same, crate::proofs::Grown::further_then))]
fn refute_limits(
    alloc: Global,
    levels: &List<Level>,
    kept: &mut Kept,
    left: &mut u64,
) -> Result<bool, NoMemory>
    requires small { AreSmall levels.now }
    requires few { length levels.now ≤ 32 }
    requires chained { AreChained levels.now }
    requires kept { AreKept levels.now kept.old }
    requires none { kept.old.lemmas ≡ [] }
    ensures further { IfOk result (λ _. IsFurther levels.now kept.old kept.new) }
    ensures most { IfOk result (λ whole. whole ≡ true → gaps_proved (ends_proved kept.new.lemmas) < 31 →
        Ends levels.now [] (2 * (gaps_proved (ends_proved kept.new.lemmas) + 1) + 1) → ⊥) }
    ensures left { left.new ≤ left.old }
    ensures path { IfOk result (λ _.
        AreTied levels.now kept.old kept.new left.old left.new (path_units levels.now + 1)) }
    ensures spent { IfOk result (λ whole. whole ≡ false → left.new ≡ 0) }
    ensures spent_path { IfOk result (λ whole. whole ≡ false →
        AreTied levels.now kept.old kept.new left.old left.new (path_units levels.now)) }
    ensures reached { IfOk result (λ _.
        AreReached levels.now (gaps_proved (ends_proved kept.new.lemmas)) kept.new.lemmas) }
{
    let start = TrailState::new(alloc);
    for limit in 0..MOST_LIMIT + 1 {
        match visit(alloc, levels, kept, left, 0, &start, most_ends(limit)) {
            Ok(true) => return Ok(true),
            Ok(false) => {}
            Err(Halt::Spent) => return Ok(false),
            Err(Halt::NoMemory) => return Err(NoMemory),
        }
    }
    Ok(true)
}

/// Lemmas that prove how many gaps every arrangement of the fingers has: 31, or the greatest number that lemmas in this
/// order can prove. It takes at most `left` units, and leaves there how many are left for later calls: it takes those
/// of a visit for each lemma, and at most those of one visit more at each gate and one at the end.
#[tactic(auto, using(crate::proofs::Rules::prove_rules))]
pub(crate) fn prove(alloc: Global, fingers: &Fingers, left: &mut u64) -> Result<Proof, ProveStop>
    requires fingers { AreFingers fingers.now }
    ensures proof { IfOk result (IsProof fingers.now) }
    ensures most { IfOk result (λ proof. proof.gaps < 31 → IsMostOf (levels_for fingers.now proof.trails) proof.gaps) }
    ensures left { left.new ≤ left.old }
    ensures units { IfOk result (λ proof.
        AreSpent fingers.now left.old left.new (gate_units fingers.now proof.trails + 1) proof.trails) }
    ensures stopped { IfErr result (StopsProving fingers.now left.old left.new) }
{
    let order = order(alloc, fingers)?;
    let listing = match listing(alloc, fingers, &order) {
        Ok(listing) => listing,
        Err(LevelStop::Long { gate }) => return Err(ProveStop::Choices { gate }),
        Err(LevelStop::NoMemory) => return Err(ProveStop::NoMemory),
    };
    let mut kept = Kept::new(alloc);
    let whole = refute_limits(alloc, &listing.levels, &mut kept, left)?;
    let proof = Proof {
        gaps: kept.gaps(),
        opened: listing.opened,
        trails: TrailCertificate {
            fill: listing.fill,
            order,
            lemmas: kept.lines,
            best: None,
        },
    };
    if whole {
        Ok(proof)
    } else {
        Err(ProveStop::Unfinished(proof))
    }
}
