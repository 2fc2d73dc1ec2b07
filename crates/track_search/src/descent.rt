ghost use Rattle.std.specs.Prelude.{◌≡◌, ◌+◌, ◌≤◌, All, IfErr, IfNone, IfOk, IfSome, OnOk, reverse};
ghost use Rattle.row_state.specs.Candidates.{AreCandidates, IsNumbered};
ghost use Rattle.row_state.specs.Start.{columns_left, start_of};
ghost use Rattle.lemma_check.specs.Noted.{AreNoted};
ghost use Rattle.track_ways.specs.Paths.{EndsFit};
ghost use Rattle.track_check.specs.Touches.{AreTouches};
ghost use Rattle.track_search.specs.First.{IsFirstRouted};
ghost use Rattle.track_search.specs.Kept.{IsSpentBelowBy};
ghost use Rattle.track_search.specs.Visit.{AreBelow, AreCovered, AreFresh, AreWaysAt, IsGrown, IsKept};
ghost use Rattle.cell_num.specs.declared.halt.Halt.TheVariants.{Spent};

use crate::ahead::{Task, nets_before};
use crate::closed::open_ahead;
use crate::ends::ends;
use crate::onward::onward_ways;
use crate::progress::Progress;
use cell_num::Halt;
use lemma_check::RowTrails;
use row_state::{Numbered, RowBound, Steps};
use track_ways::{TrackRule, TrackWays};

/// The first completion of the state with at most as many gaps as are allowed along which tracks of one of the ways go,
/// by the rule, its last step first; or none: then a kept lemma says so of each way.
pub(crate) fn visit<R: TrackRule, B: RowBound>(
    task: &Task<B>,
    progress: &mut Progress,
    trails: &mut RowTrails,
    at: &Numbered,
    ways: &TrackWays,
    allowed: u32,
) -> Result<Option<Steps>, Halt>
    requires candidates { AreCandidates task.now.kinds.now task.now.candidates.now }
    requires all { AreTouches task.now.kinds.now (start_of task.now.kinds.now) task.now.all.now }
    requires numbered { IsNumbered task.now.kinds.now at.now }
    requires ends { EndsFit task.now.kinds.now at.now.state }
    requires ways { AreWaysAt task.now.pins.now task.now.kinds.now at.now.state ways.now }
    requires below { All (AreBelow task.now.limit) ways.now }
    requires fresh { AreFresh progress.old.lemmas at.now.state allowed ways.now }
    requires gaps { allowed ≤ task.now.gaps }
    requires kept { IsKept R.fits (B.value task.now.bound.now) task.now.pins.now task.now.limit task.now.kinds.now
        task.now.gaps task.now.budget progress.old }
    requires trails { AreNoted (B.trails_of task.now.bound.now) task.now.kinds.now trails.old }
    ensures trails { AreNoted (B.trails_of task.now.bound.now) task.now.kinds.now trails.new }
    ensures grown { OnOk result (IsGrown R.fits (B.value task.now.bound.now) task.now.pins.now task.now.limit
        task.now.kinds.now task.now.gaps task.now.budget (columns_left task.now.kinds.now at.now.state + 1)
        progress.old progress.new) }
    ensures none { IfOk result (λ r. IfNone r (AreCovered progress.new.lemmas at.now.state allowed ways.now)) }
    ensures first { IfOk result (λ r. IfSome r (λ steps. IsFirstRouted R.fits task.now.pins.now task.now.limit
        task.now.kinds.now at.now.state ways.now allowed (reverse steps))) }
    ensures spent { IfErr result (λ halt. halt ≡ Spent → IsSpentBelowBy R.fits (B.value task.now.bound.now)
        task.now.pins.now task.now.limit task.now.kinds.now task.now.gaps task.now.budget) }
{
    task.kinds.show_limits();
    if ways.len() == 0 {
        return Ok(None);
    }
    let before = nets_before(task, &at.state);
    if ends::<R, B>(task, &at.state, &before, ways)? {
        return Ok(Some(Steps::new(task.alloc)));
    }
    for next in task.candidates {
        let opened = match open_ahead::<R, B>(task, progress, trails, at, &before, next, allowed) {
            Ok(opened) => opened,
            Err(halt) => return Err(halt),
        };
        let Some(ahead) = opened else {
            continue;
        };
        let onward = onward_ways::<R, B>(
            task,
            &progress.noted(),
            &at.state,
            &before,
            next,
            &ahead,
            ways,
        )?;
        let tried = match visit::<R, B>(task, progress, trails, &ahead.state, &onward, ahead.left) {
            Ok(tried) => tried,
            Err(halt) => return Err(halt),
        };
        if let Some(mut rest) = tried {
            rest.push(next.step)?;
            return Ok(Some(rest));
        }
    }
    match progress.keep(task, at, allowed, ways.as_slice()) {
        Ok(()) => Ok(None),
        Err(halt) => Err(halt),
    }
}
