ghost use Rattle.std.specs.Prelude.{◌≡◌, ◌≢◌, ◌≤◌, ◌<◌, [], All, IfErr, IfOk, None, Some, length};
ghost use Rattle.std.specs.List.{list_all};
ghost use Rattle.trail_state.specs.declared.level.Level.{Level as LevelOf};
ghost use Rattle.trail_state.specs.Levels.{Ends};
ghost use Rattle.trail_check.specs.Closing.{closing_nodes};
ghost use Rattle.trail_check.specs.Indexed.{IsIndexOf};
ghost use Rattle.trail_check.specs.Justified.{choice_reaches, ends_proved, is_justified, unproved};
ghost use Rattle.trail_check.specs.Listed.{lemmas_listed};
ghost use Rattle.trail_check.specs.Refusal.{LemmasRefused};
ghost use Rattle.trail_check.specs.declared.refusal.TrailRefusal.TheVariants as refusal;

use crate::{
    ClosingNodes, LemmaIndex, TrailLemma, TrailRefusal, closing_nodes, ends_proved, lemma_listed,
    odd_ends,
};
use cell_num::{List, MOST_BYTES, NoMemory};
use std::alloc::Global;
use trail_log::LemmaLine;
use trail_state::{Choice, Level, after};

fn reaches_by_lemmas(
    alloc: Global,
    earlier: &[TrailLemma],
    index: &LemmaIndex,
    level: &Level,
    lemma: &TrailLemma,
    choice: &Choice,
) -> Result<bool, NoMemory>
    requires nodes { length level.now.now ≤ 65536 }
    requires index { IsIndexOf earlier.now index.now }
    ensures { IfOk result (λ ok. ok ≡ choice_reaches earlier.now level.entry.now lemma.now choice.now) }
{
    let settled = after(
        alloc,
        level.now.as_slice(),
        level.next.as_slice(),
        &lemma.state,
        choice.as_slice(),
    )?;
    let need = lemma.bound.saturating_sub(settled.ends);
    Ok(index.knows(earlier, u64::from(lemma.done) + 1, &settled.state, need))
}

// Whether the choice reaches the lemma's bound. Where as many nodes that close are odd, no lemma is looked up.
fn reaches(
    alloc: Global,
    earlier: &[TrailLemma],
    index: &LemmaIndex,
    level: &Level,
    lemma: &TrailLemma,
    closing: &ClosingNodes,
    choice: &Choice,
) -> Result<bool, NoMemory>
    requires nodes { length level.now.now ≤ 65536 }
    requires index { IsIndexOf earlier.now index.now }
    requires closing { closing.now ≡ closing_nodes level.now lemma.now.state }
    ensures { IfOk result (λ ok. ok ≡ choice_reaches earlier.now level.entry.now lemma.now choice.now) }
{
    if lemma.bound as usize <= odd_ends(closing, choice) {
        return Ok(true);
    }
    reaches_by_lemmas(alloc, earlier, index, level, lemma, choice)
}

// Whether each choice reaches the lemma's bound.
#[tactic(auto, using(crate::proofs::Each::all_pass))]
fn each_reaches(
    alloc: Global,
    earlier: &[TrailLemma],
    index: &LemmaIndex,
    level: &Level,
    lemma: &TrailLemma,
) -> Result<bool, NoMemory>
    requires nodes { length level.now.now ≤ 65536 }
    requires index { IsIndexOf earlier.now index.now }
    ensures { IfOk result (λ ok. ok ≡
        list_all (choice_reaches earlier.now level.entry.now lemma.now) level.entry.now.choices) }
{
    let closing = closing_nodes(alloc, level, &lemma.state)?;
    let choices = level.choices.as_slice();
    for choice in choices {
        if !reaches(alloc, earlier, index, level, lemma, &closing, choice)? {
            return Ok(false);
        }
    }
    Ok(true)
}

fn justifies(
    alloc: Global,
    levels: &[Level],
    earlier: &[TrailLemma],
    index: &LemmaIndex,
    lemma: &TrailLemma,
) -> Result<bool, NoMemory>
    requires nodes { All (λ (level : LevelOf). length level.now ≤ 65536) levels.now }
    requires index { IsIndexOf earlier.now index.now }
    ensures { IfOk result (λ ok. ok ≡ is_justified levels.now earlier.now lemma.now) }
{
    match levels.get(lemma.done as usize) {
        Some(level) => each_reaches(alloc, earlier, index, level, lemma),
        None => Ok(false),
    }
}

/// The ends that the lemmas of a certificate prove of every row, where each is justified by those before it; else the
/// line of the first that is not; the first lemma stands at line 5 of the text. The levels are those of the order: at
/// most 65,536 nodes each.
#[tactic(auto, using(crate::proofs::Rules::check_lemmas_rules))]
pub fn check_lemmas(
    alloc: Global,
    levels: &[Level],
    lines: &[LemmaLine],
) -> Result<u32, TrailRefusal>
    requires nodes { All (λ (level : LevelOf). length level.now ≤ 65536) levels.now }
    requires few { length lines.now ≤ MOST_BYTES }
    ensures proved { IfOk result (λ ends. unproved levels.now [] 5 (lemmas_listed levels.now lines.now) ≡ None) }
    ensures ends { IfOk result (λ ends. ends ≡ ends_proved (lemmas_listed levels.now lines.now)) }
    ensures refused { IfErr result (λ cause. cause ≢ refusal.NoMemory →
        LemmasRefused (unproved levels.now [] 5 (lemmas_listed levels.now lines.now)) cause) }
    ensures true_of { IfOk result (Ends levels.now []) }
{
    let mut known = List::new(alloc);
    let mut index = LemmaIndex::new(alloc);
    let mut line = 5;
    for listed in lines {
        let lemma = lemma_listed(alloc, levels, listed)?;
        if !justifies(alloc, levels, known.as_slice(), &index, &lemma)? {
            return Err(TrailRefusal::Unproved { line });
        }
        index.add(alloc, known.as_slice(), &lemma)?;
        known.push(lemma)?;
        line += 1;
    }
    Ok(ends_proved(known.as_slice()))
}
