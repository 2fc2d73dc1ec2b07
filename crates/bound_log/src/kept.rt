ghost use Rattle.std.specs.Prelude.{◌≡◌, ◌≤◌, ◌<◌, ◌++◌, ◌∷◌, [], All, IfOk, OnOk, OnErr, Some, length, slice_get};
ghost use Rattle.bound_log.specs.Kept.{HasRoom, lemma_of, number_of};
ghost use Rattle.row_state.specs.Candidates.{IsNumbered};

use crate::log::{Lemma, Rule};
use cell_num::{List, NoMemory};
use row_state::{Kinds, Numbered, decode, start};
use std::alloc::Global;
use std::marker::Model;

// How many numbers the lower bits make.
const LOW_NUMBERS: u128 = 18_446_744_073_709_551_616;

/// A lemma as it is kept, its state by the higher and the lower bits of its number.
#[derive(Clone, Copy, Debug)]
struct Packed {
    low: u64,
    high: u32,
    bound: u8,
    rule: Rule,
}

impl Packed {
    #[tactic(auto, using(crate::proofs::Rules::new_rules))]
    fn new(state: u128, bound: u32, rule: Rule) -> Packed
        requires state { state < 79228162514264337593543950336 }
        requires bound { bound ≤ 255 }
        ensures state { number_of result.high result.low ≡ state }
        ensures bound { result.bound ≡ bound }
        ensures rule { result.rule ≡ rule }
    {
        Packed {
            low: (state % LOW_NUMBERS) as u64,
            high: (state / LOW_NUMBERS) as u32,
            bound: bound as u8,
            rule,
        }
    }

    fn state(&self) -> u128
        ensures { result ≡ number_of self.now.high self.now.low }
    {
        u128::from(self.high) * LOW_NUMBERS + u128::from(self.low)
    }
}

/// The lemmas of a search, 16 bytes each, that contracts see as their list.
#[derive(Debug, Drop)]
pub struct Kept {
    kinds: Kinds,
    packed: List<Packed>,
}

impl Model for Kept {
    ghost use Rattle.std.specs.Prelude.{All, List as Sequence, map};
    ghost use Rattle.bound_log.specs.declared.log.Lemma.{Lemma as LemmaOf};
    ghost use Rattle.row_state.specs.Code.{IsCode};
    ghost use Rattle.bound_log.specs.Kept.{number_of, numbered_lemma};

    ghost Value = { Sequence LemmaOf };

    ghost view = { λ kept. map (λ x. numbered_lemma kept.kinds (number_of x.high x.low) x.bound x.rule) kept.packed };

    ghost invariant = { λ kept. All (λ x. IsCode kept.kinds (number_of x.high x.low)) kept.packed };
}

impl Kept {
    /// The number of lemmas.
    pub fn len(&self) -> u64
        ensures { result ≡ length self.now }
    {
        self.packed.len() as u64
    }

    /// A lemma that has room for each of the kept ones.
    pub fn room(&self, alloc: Global) -> Result<Lemma, NoMemory>
        ensures { IfOk result (λ lemma. All (HasRoom lemma) self.now) }
    {
        Ok(Lemma {
            state: start(alloc, &self.kinds)?,
            bound: 0,
            rule: Rule::Branch,
        })
    }

    /// Writes the lemma at the place into one that has room. It takes no memory.
    pub fn fetch(&self, at: u64, into: &mut Lemma)
        requires place { at < length self.now }
        requires room { All (HasRoom into.old) self.now }
        ensures lemma { slice_get self.now at ≡ Some into.new }
        ensures room { All (HasRoom into.new) self.now }
    {
        let packed = self.packed.as_slice()[at as usize];
        decode(packed.state(), &self.kinds, &mut into.state);
        into.bound = u32::from(packed.bound);
        into.rule = packed.rule;
    }
}

/// Keeps the lemmas of a search, one after another. Contracts see the kinds, and the list of the lemmas so far.
#[derive(Drop)]
pub struct Keeper {
    kinds: Kinds,
    packed: List<Packed>,
}

impl Model for Keeper {
    ghost use Rattle.std.specs.Prelude.{All, map};
    ghost use Rattle.row_state.specs.Code.{IsCode};
    ghost use Rattle.bound_log.specs.Kept.{KeptSoFar, number_of, numbered_lemma};

    ghost Value = { KeptSoFar };

    ghost view = { λ keeper. record {
      kinds = keeper.kinds;
      lemmas = map (λ x. numbered_lemma keeper.kinds (number_of x.high x.low) x.bound x.rule) keeper.packed;
    } };

    ghost invariant = { λ keeper. All (λ x. IsCode keeper.kinds (number_of x.high x.low)) keeper.packed };
}

impl Keeper {
    /// Keeps lemmas on the states of these kinds: none so far.
    pub fn new(alloc: Global, kinds: &Kinds) -> Result<Keeper, NoMemory>
        ensures kinds { IfOk result (λ keeper. keeper.kinds ≡ kinds.now) }
        ensures lemmas { IfOk result (λ keeper. keeper.lemmas ≡ []) }
    {
        Ok(Keeper {
            kinds: kinds.clone()?,
            packed: List::new(alloc),
        })
    }

    /// Keeps one lemma more, in 16 bytes.
    pub fn keep(&mut self, at: &Numbered, bound: u32, rule: Rule) -> Result<(), NoMemory>
        requires state { IsNumbered self.old.kinds at.now }
        requires bound { bound ≤ 255 }
        ensures kinds { self.new.kinds ≡ self.old.kinds }
        ensures ok { OnOk result (self.new.lemmas ≡ self.old.lemmas ++ lemma_of at.now.state bound rule ∷ []) }
        ensures err { OnErr result (self.new.lemmas ≡ self.old.lemmas) }
    {
        self.kinds.show_limits();
        self.packed.push(Packed::new(at.code, bound, rule))?;
        Ok(())
    }

    /// The lemmas, when no other one comes.
    pub fn into_kept(self) -> Kept
        ensures { result ≡ self.lemmas }
    {
        Kept {
            kinds: self.kinds,
            packed: self.packed,
        }
    }
}
