ghost use Rattle.std.specs.Prelude.{◌≡◌, ◌↔◌, ℕ, true, Contains, IfOk, IsTrue};
ghost use Rattle.end_lemmas.specs.Steps.{Steps};

use cell_num::NoMemory;
use std::alloc::Global;

/// What a choice results in.
#[derive(Debug, PartialEq, Drop)]
pub struct Settled<S> {
    pub state: S,
    /// How many ends are certain now that were not before.
    pub ends: u64,
}

/// Steps of states along levels, and the ends that they make certain.
pub trait EndSteps {
    type Level;

    type Choice;

    type State: Drop;

    /// What a choice of a level makes of a state.
    ghost steps: { Self → Steps Self.Level Self.Choice Self.State };

    /// What is asked of a level. The call that lists levels says so of them.
    ghost takes: { Self → Self.Level → Type 0 };

    /// A number of a state after so many levels.
    ghost number_of: { ℕ → Self.State → ℕ };

    /// All choices of the level.
    fn choices<'a>(&self, level: &'a Self::Level) -> &'a [Self::Choice]
        ensures { result.now ≡ (steps self.now).choices level.now };

    /// Whether `after` takes the state.
    fn fits(&self, state: &Self::State) -> bool
        ensures { result ≡ (steps self.now).fits state.now };

    /// The state after a choice of the level, and the ends that it makes certain.
    fn after(
        &self,
        alloc: Global,
        level: &Self::Level,
        state: &Self::State,
        choice: &Self::Choice,
    ) -> Result<Settled<Self::State>, NoMemory>
        requires level { takes self.now level.now }
        requires state { (steps self.now).fits state.now ≡ true }
        requires choice { Contains ((steps self.now).choices level.now) choice.now }
        ensures state { IfOk result (λ r. r.state ≡ (steps self.now).next level.now state.now choice.now) }
        ensures ends { IfOk result (λ r. r.ends ≡ (steps self.now).ends level.now state.now choice.now) };

    /// Whether two states are equal.
    fn is_same(&self, a: &Self::State, b: &Self::State) -> bool
        ensures { IsTrue result ↔ (a.now ≡ b.now) };

    /// A number of the state after the first `done` levels, by which lemmas on it are looked up. Other states may share
    /// it.
    fn number(&self, done: u64, state: &Self::State) -> u64
        ensures { result ≡ number_of done state.now };
}
