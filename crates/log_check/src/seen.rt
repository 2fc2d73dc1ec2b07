ghost use Rattle.std.specs.Prelude.{◌≡◌, ◌<◌, ◌+◌, ◌∷◌, [], IfOk, OnErr, OnOk, ℕ};
ghost use Rattle.cell_num.specs.declared.finger.Row.{Row as RowOf};
ghost use Rattle.cell_num.specs.Fingers.{AreFingers};
ghost use Rattle.row_state.specs.declared.kind.Kinds.{Kinds as KindsOf};
ghost use Rattle.row_state.specs.declared.state.State.{State as StateOf};
ghost use Rattle.row_state.specs.Start.{IsState};
ghost use Rattle.bound_log.specs.declared.log.Lemma.{Lemma as LemmaOf};
ghost use Rattle.lemma_check.specs.Noted.{AreNoted};
ghost use Rattle.log_check.specs.Accepted.{WithKinds};
ghost use Rattle.log_check.specs.Items.{ForSeen, HasSeen, empty_log, with_lemmas};

use bound_log::{Best, Lemma};
use cell_num::{Fingers, MOST_BYTES, NoMemory};
use lemma_check::{Known, Premises, RowTrails, reaches};
use row_state::{Candidates, Kinds, Numbered, RowBound, candidates, is_state, kinds};
use std::alloc::{AllocError, Global};
use std::marker::Model;

fn copied(fingers: &Fingers) -> Result<Fingers, AllocError>
    ensures { IfOk result (λ copy. copy ≡ fingers.now) }
{
    Ok(Fingers {
        nets: fingers.nets,
        p: fingers.p.clone()?,
        n: fingers.n.clone()?,
    })
}

fn copied_lemma(lemma: &Lemma) -> Result<Lemma, AllocError>
    ensures { IfOk result (λ copy. copy ≡ lemma.now) }
{
    Ok(Lemma {
        state: lemma.state.clone()?,
        bound: lemma.bound,
        rule: lemma.rule,
    })
}

/// What a checker has found so far: the best bounds, how many lemmas there were and the first that was
/// not justified, and the row whose gaps and columns came.
#[derive(Drop)]
pub struct Seen {
    pub(crate) alloc: Global,
    // The version of the log.
    version: u32,
    pub(crate) fingers: Fingers,
    pub(crate) kinds: Kinds,
    // All columns that may ever come next.
    candidates: Candidates,
    pub(crate) known: Known,
    lemmas: u32,
    // The line of the first lemma that was not justified.
    pub(crate) unproved: Option<u32>,
    pub(crate) row: Option<Best>,
}

impl Model for Seen {
    ghost use Rattle.cell_num.specs.Fingers.{AreFingers};
    ghost use Rattle.row_state.specs.Candidates.{AreCandidates};
    ghost use Rattle.row_state.specs.Start.{AreKinds};
    ghost use Rattle.lemma_check.specs.Known.{noted};
    ghost use Rattle.log_check.specs.Items.{Checked};

    ghost Value = { Checked };

    ghost view = { λ c. record {
      version = c.version;
      fingers = c.fingers;
      kinds = c.kinds;
      known = noted c.known;
      lemmas = c.lemmas;
      unproved = c.unproved;
      row = c.row;
    } };

    ghost invariant = { λ c.
        AreFingers c.fingers × AreKinds c.fingers c.kinds × AreCandidates c.kinds c.candidates };
}

impl Seen {
    #[tactic(auto, using(crate::proofs::Items::seen_none))]
    pub(crate) fn new(alloc: Global, fingers: &Fingers, version: u32) -> Result<Seen, NoMemory>
        requires { AreFingers fingers.now }
        ensures fingers { IfOk result (λ c. c.fingers ≡ fingers.now) }
        ensures version { IfOk result (λ c. c.version ≡ version) }
        ensures count { IfOk result (λ c. c.lemmas ≡ 0) }
        ensures seen { IfOk result (λ c. (value : RowOf → StateOf → KindsOf → ℕ) →
            HasSeen value c (empty_log version)) }
    {
        let own = copied(fingers)?;
        let kinds = kinds(alloc, fingers)?;
        let candidates = candidates(alloc, &kinds)?;
        Ok(Seen {
            alloc,
            version,
            fingers: own,
            kinds,
            candidates,
            known: Known::new(alloc),
            lemmas: 0,
            unproved: None,
            row: None,
        })
    }

    // Another log begins.
    #[tactic(auto, using(crate::proofs::Items::seen_none))]
    pub(crate) fn begin(&mut self, version: u32)
        ensures kinds { self.new.kinds ≡ self.old.kinds }
        ensures fingers { self.new.fingers ≡ self.old.fingers }
        ensures version { self.new.version ≡ version }
        ensures count { self.new.lemmas ≡ 0 }
        ensures seen { (value : RowOf → StateOf → KindsOf → ℕ) → HasSeen value self.new (empty_log version) }
    {
        self.version = version;
        self.known = Known::new(self.alloc);
        self.lemmas = 0;
        self.unproved = None;
        self.row = None;
    }

    pub(crate) fn count(&self) -> u32
        ensures { result ≡ self.now.lemmas }
    {
        self.lemmas
    }

    pub(crate) fn lemma<B: RowBound>(
        &mut self,
        bound: &B,
        trails: &mut RowTrails,
        lemma: &Lemma,
    ) -> Result<(), NoMemory>
        requires few { self.old.lemmas < MOST_BYTES }
        requires noted { AreNoted (B.trails_of bound.now) self.old.kinds trails.old }
        ensures noted { AreNoted (B.trails_of bound.now) self.old.kinds trails.new }
        ensures kinds { self.new.kinds ≡ self.old.kinds }
        ensures fingers { self.new.fingers ≡ self.old.fingers }
        ensures version { self.new.version ≡ self.old.version }
        ensures count { OnOk result (self.new.lemmas ≡ self.old.lemmas + 1) }
        ensures seen { OnOk result (ForSeen (B.value bound.now) self.old (λ log.
            HasSeen (B.value bound.now) self.new (with_lemmas log (lemma.now ∷ [])))) }
        ensures unchanged { OnErr result (self.new ≡ self.old) }
    {
        self.kinds.show_limits();
        if !is_state(&lemma.state, &self.kinds) {
            self.refuse();
            return Ok(());
        }
        let own = copied_lemma(lemma)?;
        self.valid_lemma(bound, trails, own)
    }

    // One lemma more, on no valid state.
    fn refuse(&mut self)
        requires few { self.old.lemmas < MOST_BYTES }
        ensures kinds { self.new.kinds ≡ self.old.kinds }
        ensures fingers { self.new.fingers ≡ self.old.fingers }
        ensures version { self.new.version ≡ self.old.version }
        ensures count { self.new.lemmas ≡ self.old.lemmas + 1 }
        ensures seen { (value : RowOf → StateOf → KindsOf → ℕ) (lemma : LemmaOf) →
            (IsState self.old.kinds lemma.state → ⊥) → ForSeen value self.old (λ log.
            HasSeen value self.new (with_lemmas log (lemma ∷ []))) }
    {
        self.kinds.show_limits();
        let count = self.lemmas + 1;
        if self.unproved.is_some() {
            self.lemmas = count;
            return;
        }
        self.unproved = Some(self.lemmas + 3);
        self.lemmas = count;
    }

    pub(crate) fn valid_lemma<B: RowBound>(
        &mut self,
        bound: &B,
        trails: &mut RowTrails,
        lemma: Lemma,
    ) -> Result<(), NoMemory>
        requires few { self.old.lemmas < MOST_BYTES }
        requires state { WithKinds self.old.fingers (λ k. IsState k lemma.state) }
        requires noted { AreNoted (B.trails_of bound.now) self.old.kinds trails.old }
        ensures noted { AreNoted (B.trails_of bound.now) self.old.kinds trails.new }
        ensures kinds { self.new.kinds ≡ self.old.kinds }
        ensures fingers { self.new.fingers ≡ self.old.fingers }
        ensures version { self.new.version ≡ self.old.version }
        ensures count { OnOk result (self.new.lemmas ≡ self.old.lemmas + 1) }
        ensures seen { OnOk result (ForSeen (B.value bound.now) self.old (λ log.
            HasSeen (B.value bound.now) self.new (with_lemmas log (lemma ∷ [])))) }
        ensures unchanged { OnErr result (self.new ≡ self.old) }
    {
        self.kinds.show_limits();
        let count = self.lemmas + 1;
        if self.unproved.is_some() {
            self.lemmas = count;
            return Ok(());
        }
        let Lemma {
            state,
            bound: reached,
            rule,
        } = lemma;
        let at = Numbered::new(state, &self.kinds);
        let premises = Premises {
            kinds: &self.kinds,
            candidates: &self.candidates,
            known: &self.known,
            bound,
        };
        let holds = reaches(&premises, trails, &at, rule, reached)?;
        if !holds {
            self.unproved = Some(self.lemmas + 3);
            self.lemmas = count;
            return Ok(());
        }
        self.known.note_at(at.code, reached)?;
        self.lemmas = count;
        Ok(())
    }
}
