// States of which each completion has a crowded line: for all tracks at once.
ghost use Rattle.std.specs.Prelude.{ℕ, ◌≡◌, ◌+◌, ◌≤◌, [], ◌∷◌, All, Any};
ghost use Rattle.std.specs.Prelude.{IfErr, IfNone, IfOk, IfSome, IsTrue, OnOk, false};
ghost use Rattle.row_state.specs.Candidates.{AreCandidates, IsCandidate, IsNumbered};
ghost use Rattle.row_state.specs.Start.{HasFingers, IsState, columns_left, start_of};
ghost use Rattle.lemma_check.specs.Noted.{AreNoted};
ghost use Rattle.track_ways.specs.Certificate.{CoversAll};
ghost use Rattle.track_ways.specs.Paths.{EndsFit};
ghost use Rattle.track_ways.specs.States.{is_behind};
ghost use Rattle.track_ways.specs.Tables.{marked};
ghost use Rattle.track_check.specs.Touches.{AreTouches};
ghost use Rattle.track_search.specs.Kept.{IsSpentBelowBy};
ghost use Rattle.track_search.specs.Uncrowded.{HasUncrowded};
ghost use Rattle.track_search.specs.Visit.{ColumnFails, EndsFail, IsAhead, IsGrown, IsKept};
ghost use Rattle.cell_num.specs.declared.halt.Halt.TheVariants.{Spent};

use crate::ahead::{Ahead, Task, nets_before, state_ahead};
use crate::progress::Progress;
use cell_num::{Halt, NoMemory};
use lemma_check::RowTrails;
use row_state::{Candidate, Numbered, RowBound, State, has_fingers};
use row_trails::NETS;
use track_ways::{NetTracks, TrackRule, end_uncrowded};

// Whether no finger is left and the last line is not crowded. `before` has the nets with a place before it.
fn ends_open<R: TrackRule, B: RowBound>(
    task: &Task<B>,
    state: &State,
    before: &[bool; NETS],
) -> Result<bool, NoMemory>
    requires state { IsState task.now.kinds.now state.now }
    requires before { marked before.now ≡ is_behind task.now.kinds.now state.now }
    ensures no { IfOk result (λ r. r ≡ false → (HasFingers task.now.kinds.now state.now → ⊥)
        → All (EndsFail R.ways task.now.pins.now task.now.limit task.now.kinds.now state.now) ([] ∷ [])) }
    ensures yes { IfOk result (λ r. IsTrue r → (gaps : ℕ) → HasUncrowded task.now.pins.now task.now.limit
        task.now.kinds.now state.now gaps) }
{
    if has_fingers(state) {
        return Ok(false);
    }
    task.kinds.show_limits();
    let open = end_uncrowded(task.alloc, task.pins, task.limit, task.kinds, state, before)?;
    Ok(open)
}

/// Whether a kept lemma without tracks is about the state and as many gaps as are allowed. It asks for one and keeps
/// it where each completion has a crowded line. Where it answers false, some completion with that many gaps has none.
#[cycle(closing)]
pub(crate) fn closes<R: TrackRule, B: RowBound>(
    task: &Task<B>,
    progress: &mut Progress,
    trails: &mut RowTrails,
    at: &Numbered,
    allowed: u32,
) -> Result<bool, Halt>
    requires candidates { AreCandidates task.now.kinds.now task.now.candidates.now }
    requires all { AreTouches task.now.kinds.now (start_of task.now.kinds.now) task.now.all.now }
    requires numbered { IsNumbered task.now.kinds.now at.now }
    requires ends { EndsFit task.now.kinds.now at.now.state }
    requires gaps { allowed ≤ task.now.gaps }
    requires kept { IsKept R.fits (B.value task.now.bound.now) task.now.pins.now task.now.limit task.now.kinds.now
        task.now.gaps task.now.budget progress.old }
    requires trails { AreNoted (B.trails_of task.now.bound.now) task.now.kinds.now trails.old }
    ensures trails { AreNoted (B.trails_of task.now.bound.now) task.now.kinds.now trails.new }
    ensures grown { OnOk result (IsGrown R.fits (B.value task.now.bound.now) task.now.pins.now task.now.limit
        task.now.kinds.now task.now.gaps task.now.budget (columns_left task.now.kinds.now at.now.state + 1)
        progress.old progress.new) }
    ensures closed { IfOk result (λ closed. IsTrue closed → Any (CoversAll at.now.state allowed) progress.new.lemmas) }
    ensures free { IfOk result (λ closed. closed ≡ false → HasUncrowded task.now.pins.now task.now.limit
        task.now.kinds.now at.now.state allowed) }
    ensures spent { IfErr result (λ halt. halt ≡ Spent → IsSpentBelowBy R.fits (B.value task.now.bound.now)
        task.now.pins.now task.now.limit task.now.kinds.now task.now.gaps task.now.budget) }
{
    task.kinds.show_limits();
    if progress.is_free(task, at, allowed) {
        return Ok(false);
    }
    if progress.is_closed(task, at, allowed) {
        return Ok(true);
    }
    let before = nets_before(task, &at.state);
    if ends_open::<R, B>(task, &at.state, &before)? {
        progress.note_free(task, at, allowed)?;
        return Ok(false);
    }
    for next in task.candidates {
        let opened = match open_ahead::<R, B>(task, progress, trails, at, &before, next, allowed) {
            Ok(opened) => opened,
            Err(halt) => return Err(halt),
        };
        if opened.is_some() {
            progress.note_free(task, at, allowed)?;
            return Ok(false);
        }
    }
    let none = NetTracks::new(task.alloc);
    match progress.keep_one(task, at, allowed, &none) {
        Ok(()) => Ok(true),
        Err(halt) => Err(halt),
    }
}

/// The state after the column with a completion that has no crowded line, or none where the column fails whatever the
/// tracks are. `before` has the nets with a place before the state.
#[cycle(closing)]
pub(crate) fn open_ahead<R: TrackRule, B: RowBound>(
    task: &Task<B>,
    progress: &mut Progress,
    trails: &mut RowTrails,
    at: &Numbered,
    before: &[bool; NETS],
    next: &Candidate,
    allowed: u32,
) -> Result<Option<Ahead>, Halt>
    requires candidates { AreCandidates task.now.kinds.now task.now.candidates.now }
    requires all { AreTouches task.now.kinds.now (start_of task.now.kinds.now) task.now.all.now }
    requires numbered { IsNumbered task.now.kinds.now at.now }
    requires ends { EndsFit task.now.kinds.now at.now.state }
    requires before { marked before.now ≡ is_behind task.now.kinds.now at.now.state }
    requires next { IsCandidate task.now.kinds.now next.now }
    requires gaps { allowed ≤ task.now.gaps }
    requires kept { IsKept R.fits (B.value task.now.bound.now) task.now.pins.now task.now.limit task.now.kinds.now
        task.now.gaps task.now.budget progress.old }
    requires trails { AreNoted (B.trails_of task.now.bound.now) task.now.kinds.now trails.old }
    ensures trails { AreNoted (B.trails_of task.now.bound.now) task.now.kinds.now trails.new }
    ensures grown { OnOk result (IsGrown R.fits (B.value task.now.bound.now) task.now.pins.now task.now.limit
        task.now.kinds.now task.now.gaps task.now.budget (columns_left task.now.kinds.now at.now.state)
        progress.old progress.new) }
    ensures none { IfOk result (λ ahead. IfNone ahead (ColumnFails R.ways (B.value task.now.bound.now) task.now.pins.now
        task.now.limit task.now.kinds.now progress.new.lemmas at.now.state allowed next.now.step)) }
    ensures some { IfOk result (λ ahead. IfSome ahead (IsAhead task.now.pins.now task.now.limit task.now.kinds.now
        at.now.state allowed next.now.step)) }
    ensures free { IfOk result (λ ahead. IfSome ahead (λ _. HasUncrowded task.now.pins.now task.now.limit
        task.now.kinds.now at.now.state allowed)) }
    ensures spent { IfErr result (λ halt. halt ≡ Spent → IsSpentBelowBy R.fits (B.value task.now.bound.now)
        task.now.pins.now task.now.limit task.now.kinds.now task.now.gaps task.now.budget) }
{
    task.kinds.show_limits();
    let Some(ahead) = state_ahead::<R, B>(task, progress, trails, at, before, next, allowed)? else {
        return Ok(None);
    };
    let closed = match closes::<R, B>(task, progress, trails, &ahead.state, ahead.left) {
        Ok(closed) => closed,
        Err(halt) => return Err(halt),
    };
    if closed {
        return Ok(None);
    }
    Ok(Some(ahead))
}
