ghost use Rattle.std.specs.Prelude.{◌≡◌, ◌≤◌, ◌<◌, ◌+◌, ◌++◌, ◌∷◌, [], IfOk, OnOk, OnErr};
ghost use Rattle.row_state.specs.declared.kind.Kinds.{Kinds as KindsOf};
ghost use Rattle.row_state.specs.declared.state.State.{State as StateOf};
ghost use Rattle.row_state.specs.Candidates.{IsNumbered};
ghost use Rattle.row_state.specs.Code.{state_code};
ghost use Rattle.bound_log.specs.Kept.{lemma_of};
ghost use Rattle.lemma_check.specs.Known.{best_known};
ghost use Rattle.row_search.specs.SoFar.{KnowsAll, one_node};

use bound_log::{Keeper, Kept, Rule};
use cell_num::NoMemory;
use lemma_check::Known;
use row_state::{Kinds, Numbered};
use std::alloc::Global;
use std::marker::Model;

/// What a search has found so far.
#[derive(Drop)]
pub(crate) struct Progress {
    nodes: u64,
    // The best bound of each state that the lemmas speak of.
    known: Known,
    kept: Keeper,
}

impl Model for Progress {
    ghost use Rattle.lemma_check.specs.contracts.known.Known.{the_row as known_row};
    ghost use Rattle.row_search.specs.SoFar.{SoFar};
    ghost use Rattle.std.specs.Coded.{codes};

    ghost Value = { SoFar };

    ghost coded = { Prim.hlevel (codes, known_row.coded) };

    ghost view = { λ p. record { nodes = p.nodes; known = p.known; kinds = p.kept.kinds; lemmas = p.kept.lemmas } };
}

impl Progress {
    pub(crate) fn new(alloc: Global, kinds: &Kinds) -> Result<Progress, NoMemory>
        ensures nodes { IfOk result (λ progress. progress.nodes ≡ 0) }
        ensures lemmas { IfOk result (λ progress. progress.lemmas ≡ []) }
        ensures knows { IfOk result (KnowsAll kinds.now) }
    {
        Ok(Progress {
            nodes: 0,
            known: Known::new(alloc),
            kept: Keeper::new(alloc, kinds)?,
        })
    }

    pub(crate) fn nodes(&self) -> u64
        ensures { result ≡ self.now.nodes }
    {
        self.nodes
    }

    pub(crate) fn count_node(&mut self)
        requires { self.old.nodes < 18446744073709551615 }
        ensures { self.new ≡ one_node self.old }
    {
        self.nodes += 1;
    }

    /// The best bound of the state with the number.
    pub(crate) fn best_at(&self, code: u128) -> u32
        ensures { (k : KindsOf) (s : StateOf) → state_code k s ≡ code → result ≡ best_known self.now.known k s }
    {
        self.known.best_at(code)
    }

    /// Keeps one lemma more.
    pub(crate) fn keep(&mut self, at: &Numbered, bound: u32, rule: Rule) -> Result<(), NoMemory>
        requires state { IsNumbered self.old.kinds at.now }
        requires bound { bound ≤ 255 }
        ensures nodes { self.new.nodes ≡ self.old.nodes }
        ensures ok { OnOk result (self.new.lemmas ≡ self.old.lemmas ++ lemma_of at.now.state bound rule ∷ []) }
        ensures err { OnErr result (self.new.lemmas ≡ self.old.lemmas) }
        ensures knows { OnOk result ((k : KindsOf) → KnowsAll k self.old → KnowsAll k self.new) }
    {
        self.known.note_at(at.code, bound)?;
        self.kept.keep(at, bound, rule)?;
        Ok(())
    }

    pub(crate) fn into_kept(self) -> Kept
        ensures { result ≡ self.lemmas }
    {
        self.kept.into_kept()
    }
}
