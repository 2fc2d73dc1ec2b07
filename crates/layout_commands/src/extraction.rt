ghost use Rattle.std.specs.Prelude.{◌≡◌, ◌≢◌, ◌≤◌, IfOk, length};
ghost use Rattle.scmos_rules.specs.Rules.{Obeys};
ghost use Rattle.scmos_rules.specs.declared.rules.Deck.TheVariants as deck;
ghost use Rattle.scmos_rules.specs.declared.violation.RuleFault.TheVariants as rules;
ghost use Rattle.net_extract.specs.declared.fault.ExtractFault.TheVariants as no_netlist;
ghost use Rattle.layout_commands.specs.declared.extraction.ExtractAnswer.TheVariants as outcome;
ghost use Rattle.layout_commands.specs.Extract.{ExtractsTo, IsDrawingAnswer, extract_end};

use crate::gds_cell::GdsCell;
use box_geom::Shapes;
use call_end::{End, Status};
use cell_num::{Name, NoMemory};
use cell_report::{put_extract, put_netlist, put_rules, put_violations};
use net_extract::{BodyList, BodyNetlist, ExtractFault, Netlist, extract_bodies};
use scmos_rules::{Deck, RuleFault, Rules, Violations, violations};
use std::alloc::Global;

/// What the extraction of a cell resulted in.
#[derive(Drop)]
pub enum ExtractAnswer {
    /// With the net of each device's body, where the deck has taps.
    Extracted(Netlist, Option<BodyList>),
    /// The rules that the drawing breaks, one at least.
    Broken(Violations),
    /// The rules were not checked.
    Unchecked(RuleFault),
    /// The drawing obeys all rules and has no netlist.
    Refused(ExtractFault),
}

fn unchecked(fault: RuleFault) -> Result<ExtractAnswer, NoMemory>
    ensures { IfOk result (λ told. (fault ≢ rules.NoMemory) × (told ≡ outcome.Unchecked fault)) }
{
    match fault {
        RuleFault::NoMemory => Err(NoMemory),
        fault => Ok(ExtractAnswer::Unchecked(fault)),
    }
}

fn refused(fault: ExtractFault) -> Result<ExtractAnswer, NoMemory>
    ensures { IfOk result (λ told. (fault ≢ no_netlist.NoMemory) × (told ≡ outcome.Refused fault)) }
{
    match fault {
        ExtractFault::NoMemory => Err(NoMemory),
        fault => Ok(ExtractAnswer::Refused(fault)),
    }
}

// The netlist of a drawing that obeys all rules, or why it has none.
#[tactic(auto, using(crate::proofs::Extracted::refused_answers))]
fn extract_plain(alloc: Global, shapes: &Shapes) -> Result<ExtractAnswer, NoMemory>
    requires small { length shapes.now.rects ≤ 10000 }
    requires obeys { Obeys deck.Plain shapes.now.rects }
    ensures { IfOk result (IsDrawingAnswer deck.Plain shapes.now) }
{
    match net_extract::extract(alloc, shapes) {
        Ok(netlist) => Ok(ExtractAnswer::Extracted(netlist, None)),
        Err(fault) => refused(fault),
    }
}

// The same of a drawing with taps, with the bodies of its devices.
#[tactic(auto, using(crate::proofs::Extracted::refused_answers, crate::proofs::Extracted::bodied_answers))]
fn extract_tapped(alloc: Global, shapes: &Shapes) -> Result<ExtractAnswer, NoMemory>
    requires small { length shapes.now.rects ≤ 10000 }
    requires obeys { Obeys deck.Taps shapes.now.rects }
    ensures { IfOk result (IsDrawingAnswer deck.Taps shapes.now) }
{
    match extract_bodies(alloc, shapes) {
        Ok(BodyNetlist { netlist, bodies }) => {
            Ok(ExtractAnswer::Extracted(netlist, Some(bodies)))
        }
        Err(fault) => refused(fault),
    }
}

#[tactic(auto, using(crate::proofs::Extracted::obeys_same, crate::proofs::Extracted::answers_same))]
fn extract_legal(alloc: Global, shapes: &Shapes, rules: Deck) -> Result<ExtractAnswer, NoMemory>
    requires small { length shapes.now.rects ≤ 10000 }
    requires obeys { Obeys rules shapes.now.rects }
    ensures { IfOk result (IsDrawingAnswer rules shapes.now) }
{
    match rules {
        Deck::Plain => extract_plain(alloc, shapes),
        Deck::Taps => extract_tapped(alloc, shapes),
    }
}

fn rules_of(deck: Deck) -> Rules
    ensures { result ≡ deck }
{
    match deck {
        Deck::Plain => Rules::profile(),
        Deck::Taps => Rules::with_taps(),
    }
}

#[tactic(auto, using(crate::proofs::Rules::drawing_answer_rules))]
fn drawing_answer(alloc: Global, shapes: &Shapes, rules: Deck) -> Result<ExtractAnswer, NoMemory>
    ensures { IfOk result (IsDrawingAnswer rules shapes.now) }
{
    let found = match violations(alloc, shapes, &rules_of(rules)) {
        Ok(found) => found,
        Err(fault) => return unchecked(fault),
    };
    if found.as_slice().is_empty() {
        return extract_legal(alloc, shapes, rules);
    }
    Ok(ExtractAnswer::Broken(found))
}

fn end_of(alloc: Global, name: &Name, answer: &ExtractAnswer) -> Result<End, NoMemory>
    ensures { IfOk result (λ end. end ≡ extract_end name.now answer.now) }
{
    match answer {
        ExtractAnswer::Extracted(netlist, bodies) => {
            let mut report = Status::Done.report(alloc)?;
            put_netlist(&mut report, name, netlist, bodies)?;
            Ok(End::says(alloc, Status::Done, report))
        }
        ExtractAnswer::Broken(found) => {
            let mut report = Status::Rejected.report(alloc)?;
            put_violations(&mut report, found)?;
            Ok(End::says(alloc, Status::Rejected, report))
        }
        ExtractAnswer::Unchecked(fault) => {
            let mut report = Status::Layout.report(alloc)?;
            put_rules(&mut report, fault)?;
            Ok(End::says(alloc, Status::Layout, report))
        }
        ExtractAnswer::Refused(fault) => {
            let mut report = Status::Layout.report(alloc)?;
            put_extract(&mut report, fault)?;
            Ok(End::says(alloc, Status::Layout, report))
        }
    }
}

/// The netlist of a cell of a GDSII file, or the rules that it breaks, or why it has no netlist.
pub fn extract(alloc: Global, cell: &GdsCell) -> Result<End, NoMemory>
    ensures { IfOk result (ExtractsTo cell.now) }
{
    let answer = drawing_answer(alloc, &cell.shapes, cell.rules)?;
    end_of(alloc, &cell.name, &answer)
}
