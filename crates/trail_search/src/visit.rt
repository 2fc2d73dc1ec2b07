ghost use Rattle.std.specs.Prelude.{◌≡◌, ◌≤◌, ◌+◌, true, false, IfOk, IfErr, IsTrue, drop};
ghost use Rattle.std.specs.Prelude.{◌<◌, length, slice_get};
ghost use Rattle.trail_state.specs.Levels.{Ends};
ghost use Rattle.trail_state.specs.Settling.{ends_after, state_after};
ghost use Rattle.trail_check.specs.Closing.{odd_ends};
ghost use Rattle.trail_check.specs.Justified.{is_known};
ghost use Rattle.trail_check.specs.Listed.{nodes_of};
ghost use Rattle.cell_num.specs.declared.halt.Halt.TheVariants as halt;
ghost use Rattle.trail_search.specs.Search.{AreChained, AreKept, AreSmall, AreTied, IsFurther, IsStateOf, StayAs};
ghost use Rattle.trail_search.specs.Search.{StayWithin};
ghost use Rattle.trail_search.specs.Units.{path_units};

use crate::kept::Kept;
use crate::units::{take, units_at};
use cell_num::{Halt, List, NoMemory};
use std::alloc::Global;
use trail_check::{ClosingNodes, closing_nodes, odd_ends};
use trail_state::{Choice, Level, Settled, TrailState, after};

// Whether more ends than are allowed are certain at the nodes that close.
fn exceeds(closing: &ClosingNodes, choice: &Choice, allowed: u32) -> bool
    ensures { IsTrue result → allowed < odd_ends closing.now choice.now }
{
    (allowed as usize) < odd_ends(closing, choice)
}

// The state after a choice of the level's gate, and the ends that it leaves behind.
fn settle(
    alloc: Global,
    level: &Level,
    state: &TrailState,
    choice: &Choice,
) -> Result<Settled, NoMemory>
    requires { length level.now.now ≤ 65536 }
    ensures state { IfOk result (λ settled. settled.state ≡
        state_after level.entry.now.now level.entry.now.next state.now choice.now) }
    ensures ends { IfOk result (λ settled. settled.ends ≡
        ends_after level.entry.now.now level.entry.now.next state.now choice.now) }
{
    let (nodes, next) = (level.now.as_slice(), level.next.as_slice());
    after(alloc, nodes, next, state, choice.as_slice())
}

/// Whether some choices of the gates left have at most `allowed` more ends; else a kept lemma says that none do.
/// A visit takes the units of its state from those left. It leaves a lemma, unless such choices are found or no unit is
/// left.
#[tactic(auto, using(crate::proofs::Rules::visit_rules))]
pub(crate) fn visit(
    alloc: Global,
    levels: &List<Level>,
    kept: &mut Kept,
    left: &mut u64,
    done: u32,
    state: &TrailState,
    allowed: u32,
) -> Result<bool, Halt>
    requires small { AreSmall levels.now }
    requires few { length levels.now ≤ 32 }
    requires allowed { allowed ≤ 63 }
    requires chained { AreChained levels.now }
    requires state { IsStateOf (nodes_of (slice_get levels.now done)) state.now }
    requires kept { AreKept levels.now kept.old }
    requires new { is_known kept.old.lemmas done state.now (allowed + 1) ≡ false }
    ensures further { IfOk result (λ _. IsFurther levels.now kept.old kept.new) }
    ensures failed { IfOk result (λ found. found ≡ false →
        is_known kept.new.lemmas done state.now (allowed + 1) ≡ true) }
    ensures found { IfOk result (λ found. found ≡ true → Ends (drop done levels.now) state.now (allowed + 1) → ⊥) }
    ensures others { IfOk result (λ _. StayAs done (allowed + 1) kept.old kept.new) }
    ensures left { left.new ≤ left.old }
    ensures each { IfOk result (λ found. found ≡ false → AreTied levels.now kept.old kept.new left.old left.new 0) }
    ensures path { IfOk result (λ _.
        AreTied levels.now kept.old kept.new left.old left.new (path_units (drop done levels.now) + 1)) }
    ensures spent { IfErr result (λ why. why ≡ halt.Spent → left.new ≡ 0) }
    ensures spent_kept { IfErr result (λ why. why ≡ halt.Spent → IsFurther levels.now kept.old kept.new) }
    ensures within { IfOk result (λ _. StayWithin levels.now done state.now (allowed + 1) kept.old kept.new) }
    ensures spent_within { IfErr result (λ why. why ≡ halt.Spent →
        StayWithin levels.now done state.now (allowed + 1) kept.old kept.new) }
    ensures spent_path { IfErr result (λ why. why ≡ halt.Spent →
        AreTied levels.now kept.old kept.new left.old left.new (path_units (drop done levels.now))) }
{
    if !take(left, units_at(levels, done)) {
        return Err(Halt::Spent);
    }
    let Some(level) = levels.get(done as usize) else {
        return Ok(true);
    };
    let closing = closing_nodes(alloc, level, state)?;
    for choice in level.choices.as_slice() {
        if exceeds(&closing, choice, allowed) {
            continue;
        }
        let settled = settle(alloc, level, state, choice)?;
        if allowed < settled.ends {
            continue;
        }
        let rest = allowed - settled.ends;
        if kept.knows(done + 1, &settled.state, rest + 1) {
            continue;
        }
        let found = match visit(alloc, levels, kept, left, done + 1, &settled.state, rest) {
            Ok(found) => found,
            Err(halt) => return Err(halt),
        };
        if found {
            return Ok(true);
        }
    }
    kept.keep(alloc, levels, done, state, allowed + 1)?;
    Ok(false)
}
