ghost use Rattle.std.specs.Prelude.{◌≡◌, true, false, All, IfNone, IfOk, IfSome, IsTrue};
ghost use Rattle.cell_num.specs.Fingers.{AreFingers};
ghost use Rattle.trail_state.specs.Pairings.{choices_of, gate_of, has_long_front};
ghost use Rattle.trail_search.specs.Lists.{AreChoicesOf, AreRight, IsRight, same_gate};

use crate::nets::gate_of;
use cell_num::{Fingers, List, NetNo, NoMemory};
use std::alloc::Global;
use trail_check::{MOST_CHOICES, mixed};
use trail_state::gate::Gate;
use trail_state::{Choice, choices_within};

/// How many choices are kept in all.
const MOST_KEPT: usize = 262_144;

/// A gate, and its choices where it has not too many ways.
#[derive(Drop)]
pub(crate) struct ListedGate {
    pub number: u64,
    pub gate: Gate,
    pub choices: Option<List<Choice>>,
}

/// The choices of gates that are listed already. They depend on the nets of a gate's fingers, and on those of the rows.
#[derive(Drop)]
pub(crate) struct ChoiceLists {
    pub gates: List<ListedGate>,
    pub kept: usize,
}

fn with_nets(number: u64, nets: &[u32]) -> u64 {
    let mut all = mixed(number, nets.len() as u64);
    for net in nets {
        all = mixed(all, u64::from(*net));
    }
    all
}

// A number of the gate. Other gates may share it.
fn number_of(gate: &Gate) -> u64 {
    let mut number = gate.p.len() as u64;
    for ends in gate.p.as_slice() {
        number = mixed(mixed(number, u64::from(ends.lo)), u64::from(ends.hi));
    }
    for ends in gate.n.as_slice() {
        number = mixed(mixed(number, u64::from(ends.lo)), u64::from(ends.hi));
    }
    with_nets(
        with_nets(number, gate.p_fill.as_slice()),
        gate.n_fill.as_slice(),
    )
}

fn same_gate(a: &Gate, b: &Gate) -> bool
    ensures { result ≡ same_gate a.now b.now }
{
    *a == *b
}

#[tactic(auto, using(crate::proofs::Choices::gate_same))]
fn is_of(one: &ListedGate, number: u64, gate: &Gate) -> bool
    ensures { IsTrue result → one.now.gate ≡ gate.now }
{
    one.number == number && same_gate(&one.gate, gate)
}

#[tactic(auto, using(crate::proofs::Choices::right_at))]
fn find<'a>(listed: &'a [ListedGate], number: u64, gate: &Gate) -> Option<&'a ListedGate>
    requires { All IsRight listed.now }
    ensures { IfSome result (λ found. AreChoicesOf gate.now found.now.choices) }
{
    for one in listed {
        if is_of(one, number, gate) {
            return Some(one);
        }
    }
    None
}

fn copies(alloc: Global, choices: &[Choice]) -> Result<List<Choice>, NoMemory>
    ensures { IfOk result (λ all. all ≡ choices.now) }
{
    let mut all = List::new(alloc);
    for choice in choices {
        all.push(List::from_vec(choice.as_slice().to_vec(alloc)?))?;
    }
    Ok(all)
}

fn copied(alloc: Global, choices: &Option<List<Choice>>) -> Result<Option<List<Choice>>, NoMemory>
    ensures { IfOk result (λ all. all ≡ choices.now) }
{
    match choices {
        Some(choices) => Ok(Some(copies(alloc, choices.as_slice())?)),
        None => Ok(None),
    }
}

fn count(choices: &Option<List<Choice>>) -> usize {
    match choices {
        Some(choices) => choices.len(),
        None => 0,
    }
}

// The choices of the gate, listed now.
fn listed_now(
    alloc: Global,
    fingers: &Fingers,
    gate: NetNo,
    key: &Gate,
) -> Result<Option<List<Choice>>, NoMemory>
    requires fingers { AreFingers fingers.now }
    requires key { key.now ≡ gate_of fingers.now gate.0 }
    ensures { IfOk result (AreChoicesOf key.now) }
{
    let choices = choices_within(alloc, fingers, gate, MOST_CHOICES)?;
    Ok(choices)
}

impl ChoiceLists {
    pub(crate) fn new(alloc: Global) -> Self
        ensures { AreRight result }
    {
        ChoiceLists {
            gates: List::new(alloc),
            kept: 0,
        }
    }

    // Keeps one gate more, where not too many choices are kept.
    #[tactic(auto, using(crate::proofs::Choices::right_more))]
    fn keep(&mut self, one: ListedGate) -> Result<(), NoMemory>
        requires right { AreRight self.old }
        requires one { IsRight one }
        ensures { AreRight self.new }
    {
        self.kept = self.kept.saturating_add(count(&one.choices));
        if self.kept > MOST_KEPT {
            return Ok(());
        }
        match self.gates.push(one) {
            Ok(()) => Ok(()),
            Err(_) => Err(NoMemory),
        }
    }

    fn of(
        &mut self,
        alloc: Global,
        fingers: &Fingers,
        gate: NetNo,
        key: Gate,
    ) -> Result<Option<List<Choice>>, NoMemory>
        requires fingers { AreFingers fingers.now }
        requires key { key ≡ gate_of fingers.now gate.0 }
        requires right { AreRight self.old }
        ensures right { AreRight self.new }
        ensures are { IfOk result (AreChoicesOf key) }
    {
        let number = number_of(&key);
        if let Some(found) = find(self.gates.as_slice(), number, &key) {
            return copied(alloc, &found.choices);
        }
        let choices = listed_now(alloc, fingers, gate, &key)?;
        let one = ListedGate {
            number,
            gate: key,
            choices: copied(alloc, &choices)?,
        };
        self.keep(one)?;
        Ok(choices)
    }

    /// The choices of the gate, or none where it has too many ways. They are listed where they are not kept.
    pub(crate) fn choices(
        &mut self,
        alloc: Global,
        fingers: &Fingers,
        gate: NetNo,
    ) -> Result<Option<List<Choice>>, NoMemory>
        requires fingers { AreFingers fingers.now }
        requires right { AreRight self.old }
        ensures right { AreRight self.new }
        ensures all { IfOk result (λ o. IfSome o (λ all. all ≡ choices_of fingers.now gate.0)) }
        ensures few { IfOk result (λ o. IfSome o (λ _. has_long_front MOST_CHOICES fingers.now gate.0 ≡ false)) }
        ensures many { IfOk result (λ o. IfNone o (has_long_front MOST_CHOICES fingers.now gate.0 ≡ true)) }
    {
        let key = gate_of(alloc, fingers, gate.0)?;
        match self.of(alloc, fingers, gate, key) {
            Ok(Some(choices)) => Ok(Some(choices)),
            Ok(None) => Ok(None),
            Err(_) => Err(NoMemory),
        }
    }
}
