ghost use Rattle.std.specs.Prelude.{◌≡◌, ◌≤◌, ◌++◌, length, option_to_list, IfOk, IfErr, OnOk};
ghost use Rattle.scmos_rules.specs.Cells.{AreCells};
ghost use Rattle.scmos_rules.specs.Rules.{Fails};
ghost use Rattle.scmos_rules.specs.Violations.{IsVerdict, AreViolations, IsFaultOf};

use crate::apart::spacing;
use crate::composite::{
    contact_edge, diffusion_edge, gate_distance, select_edge, tap_edge, via_over_edge, well_edge,
};
use crate::gates::{active_end, field_distance, poly_end};
use crate::lengths::{size, width};
use crate::nearby::{layer_not_away, layer_not_surrounded};
use crate::rules::Deck;
use crate::{RuleFault, RuleNo, Rules, Violation, Violations};
use box_geom::{Layer, Region, Shapes};
use cell_num::NoMemory;
use std::alloc::Global;

// The cells that fail a rule.
fn failing(alloc: Global, shapes: &Shapes, deck: Deck, rule: RuleNo) -> Result<Region, NoMemory>
    ensures { IfOk result (λ r. AreCells (Fails deck rule shapes.now.rects) r) }
{
    match rule {
        RuleNo::N1_1 => width(alloc, shapes, Layer::Well, 24),
        RuleNo::N2_1 => width(alloc, shapes, Layer::Active, 6),
        RuleNo::N2_2 => spacing(alloc, shapes, Layer::Active, 6),
        RuleNo::N2_3 => well_edge(alloc, shapes, deck),
        RuleNo::N2_4 => tap_edge(alloc, shapes),
        RuleNo::N3_1 => width(alloc, shapes, Layer::Poly, 4),
        RuleNo::N3_2 => spacing(alloc, shapes, Layer::Poly, 6),
        RuleNo::N3_3 => poly_end(alloc, shapes),
        RuleNo::N3_4 => active_end(alloc, shapes),
        RuleNo::N3_5 => field_distance(alloc, shapes),
        RuleNo::N4_2 => select_edge(alloc, shapes, deck),
        RuleNo::N5_1 => size(alloc, shapes, Layer::Contact, 4),
        RuleNo::N5_2 => contact_edge(alloc, shapes),
        RuleNo::N5_3 => spacing(alloc, shapes, Layer::Contact, 6),
        RuleNo::N5_4 => gate_distance(alloc, shapes),
        RuleNo::N6_2 => diffusion_edge(alloc, shapes),
        RuleNo::N7_1 => width(alloc, shapes, Layer::Metal1, 6),
        RuleNo::N7_2 => spacing(alloc, shapes, Layer::Metal1, 6),
        RuleNo::N7_3 => layer_not_surrounded(alloc, shapes, Layer::Contact, Layer::Metal1, 2),
        RuleNo::N8_1 => size(alloc, shapes, Layer::Via, 4),
        RuleNo::N8_2 => spacing(alloc, shapes, Layer::Via, 6),
        RuleNo::N8_3 => layer_not_surrounded(alloc, shapes, Layer::Via, Layer::Metal1, 2),
        RuleNo::N8_4 => layer_not_away(alloc, shapes, Layer::Via, Layer::Contact, 4),
        RuleNo::N8_5 => via_over_edge(alloc, shapes),
        RuleNo::N9_1 => width(alloc, shapes, Layer::Metal2, 6),
        RuleNo::N9_2 => spacing(alloc, shapes, Layer::Metal2, 8),
        RuleNo::N9_3 => layer_not_surrounded(alloc, shapes, Layer::Via, Layer::Metal2, 2),
    }
}

// The violation of a rule, where some cell fails it.
fn verdict(
    alloc: Global,
    shapes: &Shapes,
    deck: Deck,
    rule: RuleNo,
) -> Result<Option<Violation>, NoMemory>
    ensures { IfOk result (IsVerdict deck shapes.now.rects rule) }
{
    let region = failing(alloc, shapes, deck, rule)?;
    match region.first_cell() {
        Some(place) => Ok(Some(Violation {
            rule,
            x: place.x,
            y: place.y,
        })),
        None => Ok(None),
    }
}

fn add(found: &mut Violations, verdict: Option<Violation>) -> Result<(), NoMemory>
    ensures { OnOk result (found.new ≡ found.old ++ option_to_list verdict) }
{
    match verdict {
        Some(violation) => found.push(violation),
        None => Ok(()),
    }
}

fn all_broken(alloc: Global, shapes: &Shapes, rules: &Rules) -> Result<Violations, NoMemory>
    ensures { IfOk result (λ vs. AreViolations rules.now shapes.now.rects vs) }
{
    let mut found = Violations::new(alloc);
    for rule in rules.numbers() {
        let violation = verdict(alloc, shapes, rules.deck(), *rule)?;
        add(&mut found, violation)?;
    }
    Ok(found)
}

/// The rules that a layout breaks, in the table's order, each with the first cell that fails it by y,
/// then x. Err where there are more than 10,000 rectangles.
pub fn violations(alloc: Global, shapes: &Shapes, rules: &Rules) -> Result<Violations, RuleFault>
    ensures found { IfOk result (λ vs. AreViolations rules.now shapes.now.rects vs) }
    ensures few { IfOk result (λ _. length shapes.now.rects ≤ 10000) }
    ensures fault { IfErr result (IsFaultOf shapes.now.rects) }
{
    let count = shapes.rects.len();
    if count > 10_000 {
        return Err(RuleFault::TooMany {
            count: count as u64,
        });
    }
    match all_broken(alloc, shapes, rules) {
        Ok(found) => Ok(found),
        Err(_) => Err(RuleFault::NoMemory),
    }
}
