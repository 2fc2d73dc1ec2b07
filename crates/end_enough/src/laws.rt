// The calls do nothing: their contracts are the laws.
ghost use Rattle.std.specs.Prelude.{◌≡◌, ◌≢◌, ◌≤◌, ◌<◌, ◌+◌, ◌*◌, ℕ, List, All, length, take};
ghost use Rattle.cell_num.specs.Fingers.{sum_below};
ghost use Rattle.end_lemmas.specs.declared.lemma.EndLemma.{EndLemma};
ghost use Rattle.end_lemmas.specs.Justified.{AreJustified};
ghost use Rattle.end_search.specs.declared.proof.EndProof.{EndProof};
ghost use Rattle.end_search.specs.declared.proof.SearchEnd.TheVariants as ended;
ghost use Rattle.end_search.specs.New.{AreNew};
ghost use Rattle.end_search.specs.Proof.{IsEndProof, gaps_proved};
ghost use Rattle.end_search.specs.Reached.{IsReached};
ghost use Rattle.end_search.specs.Units.{units_of};
ghost use Rattle.end_enough.specs.Enough.{AreAllStates, choice_lists, enough, enough_of, state_units, states_after};

use end_lemmas::EndSteps;

/// Justified lemmas that all say more than those before them are few: one of each bound for each state that choices
/// lead to before a level. `states` lists these states by the levels that are done. It does nothing: its contract is
/// the law.
pub fn few_lemmas<E: EndSteps>(_steps: &E)
    ensures count { (levels : List E.Level) (start : E.State) (states : ℕ → List E.State) (most : ℕ)
        (lemmas : List (EndLemma E.State)) → AreAllStates (E.steps _steps.now) levels start states
        → AreJustified (E.steps _steps.now) levels lemmas → AreNew lemmas
        → All (IsReached (E.steps _steps.now) levels 0 start most) lemmas
        → length lemmas ≤ most * sum_below (λ done. length (states done)) (length levels) }
    ensures units { (levels : List E.Level) (start : E.State) (states : ℕ → List E.State) (most : ℕ)
        (lemmas : List (EndLemma E.State)) → AreAllStates (E.steps _steps.now) levels start states
        → AreJustified (E.steps _steps.now) levels lemmas → AreNew lemmas
        → All (IsReached (E.steps _steps.now) levels 0 start most) lemmas
        → units_of (E.steps _steps.now) levels lemmas ≤ most * state_units (E.steps _steps.now) levels states }
{}

/// A search whose budget is more than enough never spends it. Enough is known where all states that choices lead to
/// are listed, and they are listed by going through all choices. It does nothing: its contract is the law.
pub fn never_spent<E: EndSteps>(_steps: &E)
    // where lists have all states, it takes at most what is enough for one gap more than it proves
    ensures left { (levels : List E.Level) (start : E.State) (states : ℕ → List E.State) (gaps budget : ℕ)
        (proof : EndProof E.State) → AreAllStates (E.steps _steps.now) levels start states
        → IsEndProof (E.steps _steps.now) levels start gaps budget proof
        → budget ≤ proof.left + enough (E.steps _steps.now) levels states (gaps_proved proof.ends + 1) }
    // where the budget is more than enough for those asked for, it is not spent
    ensures listed { (levels : List E.Level) (start : E.State) (states : ℕ → List E.State) (gaps budget : ℕ)
        (proof : EndProof E.State) → AreAllStates (E.steps _steps.now) levels start states
        → IsEndProof (E.steps _steps.now) levels start gaps budget proof
        → enough (E.steps _steps.now) levels states gaps < budget → proof.end ≢ ended.Spent }
    // the states after all choices are such lists
    ensures all { (levels : List E.Level) (start : E.State)
        → AreAllStates (E.steps _steps.now) levels start (states_after (E.steps _steps.now) levels start) }
    // there are as many as lists of choices, so their number is known without them
    ensures number { (levels : List E.Level) (start : E.State) (done : ℕ) → done ≤ length levels
        → length (states_after (E.steps _steps.now) levels start done)
        ≡ choice_lists (E.steps _steps.now) (take done levels) }
    // so a number that is enough is known of every search
    ensures ends { (levels : List E.Level) (start : E.State) (gaps budget : ℕ) (proof : EndProof E.State)
        → IsEndProof (E.steps _steps.now) levels start gaps budget proof
        → enough_of (E.steps _steps.now) levels start gaps < budget → proof.end ≢ ended.Spent }
{}
