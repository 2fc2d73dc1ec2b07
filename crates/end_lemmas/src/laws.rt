// The calls do nothing: their contracts are the laws.
ghost use Rattle.std.specs.Prelude.{ℕ, List, All};
ghost use Rattle.end_lemmas.specs.declared.lemma.EndLemma.{EndLemma};
ghost use Rattle.end_lemmas.specs.Justified.{AreEndsProved, AreJustified, IsTrueOf};
ghost use Rattle.end_lemmas.specs.Steps.{Ends};

use crate::EndSteps;

/// Each justified lemma is true. It does nothing: its contract is the law.
pub fn true_lemmas<E: EndSteps>(_steps: &E)
    ensures { (levels : List E.Level) (lemmas : List (EndLemma E.State))
        → AreJustified (E.steps _steps.now) levels lemmas → All (IsTrueOf (E.steps _steps.now) levels) lemmas }
{}

/// From the start state on, every list of choices results in as many ends as justified lemmas prove. It does nothing:
/// its contract is the law.
pub fn proved_ends<E: EndSteps>(_steps: &E)
    ensures { (levels : List E.Level) (lemmas : List (EndLemma E.State)) (start : E.State) (ends : ℕ)
        → AreJustified (E.steps _steps.now) levels lemmas → AreEndsProved start lemmas ends
        → Ends (E.steps _steps.now) levels start ends }
{}
