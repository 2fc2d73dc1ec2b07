// The first row with tracks below a limit, or a certificate that none has.
ghost use Rattle.std.specs.Prelude.{◌≡◌, ◌≤◌, [], ◌∷◌, IfErr, IfNone, IfOk, IfSome, length};
ghost use Rattle.row_state.specs.Candidates.{AreCandidates, IsNumbered};
ghost use Rattle.row_state.specs.Start.{start_of};
ghost use Rattle.lemma_check.specs.Noted.{AreNoted};
ghost use Rattle.track_check.specs.Touches.{AreTouches};
ghost use Rattle.track_ways.specs.Certificate.{CertifiesBy};
ghost use Rattle.cell_num.specs.declared.halt.Halt.TheVariants.{Spent};
ghost use Rattle.track_search.specs.Bare.{IsNoted};
ghost use Rattle.track_search.specs.Kept.{AreKeptBy, IsSpentBelowBy};
ghost use Rattle.track_search.specs.Limit.{HasReason, IsEnd, NeedsMoreTracks};
ghost use Rattle.track_search.specs.LimitBy.{HasReasonBy, IfRefutedBy, IsEndBy, IsFirstRowBy};

use crate::ahead::Task;
use crate::descent::visit;
use crate::progress::Progress;
use cell_num::{Halt, NoMemory, Pins};
use lemma_check::RowTrails;
use row_cycles::{numbered_start, row_of};
use row_model::Arrangement;
use row_state::{Kinds, Numbered, RowBound, candidates};
use std::alloc::Global;
use track_check::touches;
use track_ways::{NetTracks, Straight, TrackLemmas, TrackRule, TrackWays};

/// What the search for a row with tracks below a limit ends with.
#[derive(Debug, Drop)]
pub enum Limit {
    /// The first row that has such tracks.
    Found { row: Arrangement },
    /// They certify that no row has.
    Refuted { lemmas: TrackLemmas },
    /// There is a lemma more than the budget allows.
    Spent,
}

// At the start no net has a track.
fn no_tracks(alloc: Global) -> Result<TrackWays, NoMemory>
    ensures { IfOk result (λ ways. ways ≡ [] ∷ []) }
{
    let mut ways = TrackWays::new(alloc);
    ways.push(NetTracks::new(alloc))?;
    Ok(ways)
}

// The first row from the start, or none: then the lemmas are a certificate.
fn search_start<R: TrackRule, B: RowBound>(
    task: &Task<B>,
    first: &Numbered,
    progress: &mut Progress,
    trails: &mut RowTrails,
) -> Result<Option<Arrangement>, Halt>
    requires candidates { AreCandidates task.now.kinds.now task.now.candidates.now }
    requires all { AreTouches task.now.kinds.now (start_of task.now.kinds.now) task.now.all.now }
    requires state { first.now.state ≡ start_of task.now.kinds.now }
    requires numbered { IsNumbered task.now.kinds.now first.now }
    requires lemmas { progress.old.lemmas ≡ [] }
    requires noted { IsNoted (B.value task.now.bound.now) task.now.pins.now task.now.limit task.now.kinds.now
        progress.old }
    requires trails { AreNoted (B.trails_of task.now.bound.now) task.now.kinds.now trails.old }
    ensures trails { AreNoted (B.trails_of task.now.bound.now) task.now.kinds.now trails.new }
    ensures found { IfOk result (λ r. IfSome r (IsFirstRowBy R.fits task.now.pins.now task.now.limit
        task.now.kinds.now task.now.gaps)) }
    ensures none { IfOk result (λ r. IfNone r (CertifiesBy R.fits (B.value task.now.bound.now) task.now.pins.now
        task.now.limit task.now.kinds.now task.now.gaps progress.new.lemmas)) }
    ensures kept { IfOk result (λ r. IfNone r (AreKeptBy R.fits (B.value task.now.bound.now) task.now.pins.now
        task.now.limit task.now.kinds.now task.now.gaps progress.new.lemmas)) }
    ensures few { IfOk result (λ r. IfNone r (length progress.new.lemmas ≤ task.now.budget)) }
    ensures spent { IfErr result (λ halt. halt ≡ Spent → IsSpentBelowBy R.fits (B.value task.now.bound.now)
        task.now.pins.now task.now.limit task.now.kinds.now task.now.gaps task.now.budget) }
{
    task.kinds.show_limits();
    let ways = no_tracks(task.alloc)?;
    let found = match visit::<R, B>(task, progress, trails, first, &ways, task.gaps) {
        Ok(found) => found,
        Err(halt) => return Err(halt),
    };
    if let Some(steps) = found {
        let row = row_of(task.alloc, steps.as_slice(), task.kinds)?;
        return Ok(Some(row));
    }
    Ok(None)
}

/// The search from the start by a rule. The trails of rows are those by the bound, whatever the limit.
pub(crate) fn search_task<R: TrackRule, B: RowBound>(
    task: &Task<B>,
    first: &Numbered,
    trails: &mut RowTrails,
) -> Result<Limit, NoMemory>
    requires candidates { AreCandidates task.now.kinds.now task.now.candidates.now }
    requires all { AreTouches task.now.kinds.now (start_of task.now.kinds.now) task.now.all.now }
    requires state { first.now.state ≡ start_of task.now.kinds.now }
    requires numbered { IsNumbered task.now.kinds.now first.now }
    requires trails { AreNoted (B.trails_of task.now.bound.now) task.now.kinds.now trails.old }
    ensures trails { AreNoted (B.trails_of task.now.bound.now) task.now.kinds.now trails.new }
    ensures end { IfOk result (IsEndBy R.fits (B.value task.now.bound.now) task.now.pins.now task.now.limit
        task.now.kinds.now task.now.gaps) }
    ensures kept { IfOk result (HasReasonBy R.fits (B.value task.now.bound.now) task.now.pins.now task.now.limit
        task.now.kinds.now task.now.gaps task.now.budget) }
{
    let mut progress = Progress::new(task.alloc);
    match search_start::<R, B>(task, first, &mut progress, trails) {
        Ok(Some(row)) => Ok(Limit::Found { row }),
        Ok(None) => Ok(Limit::Refuted {
            lemmas: progress.lemmas,
        }),
        Err(Halt::Spent) => Ok(Limit::Spent),
        Err(Halt::NoMemory) => Err(NoMemory),
    }
}

/// The first row of the kinds' fingers with at most that many gaps that has tracks below the limit by the rule; or a
/// certificate that no such row has; or neither, where the search needs more lemmas than the budget.
pub fn search_limit_by<R: TrackRule, B: RowBound>(
    alloc: Global,
    bound: &B,
    pins: &Pins,
    limit: u32,
    kinds: &Kinds,
    gaps: u32,
    budget: u64,
) -> Result<Limit, NoMemory>
    ensures end { IfOk result (IsEndBy R.fits (B.value bound.now) pins.now limit kinds.now gaps) }
    // a certificate is true: no row has such tracks
    ensures refuted { IfOk result (IfRefutedBy R.fits pins.now limit kinds.now gaps) }
    // none of its lemmas is idle, and they are no more than the budget; where it is spent, more of them are kept
    ensures kept { IfOk result (HasReasonBy R.fits (B.value bound.now) pins.now limit kinds.now gaps budget) }
{
    kinds.show_limits();
    let first = numbered_start(alloc, kinds)?;
    let candidates = candidates(alloc, kinds)?;
    let all = touches(kinds, &first.state);
    let task = Task {
        alloc,
        kinds,
        pins,
        limit,
        candidates: candidates.as_slice(),
        bound,
        all: &all,
        gaps,
        budget,
    };
    let mut trails = RowTrails::new(alloc);
    let ended = search_task::<R, B>(&task, &first, &mut trails)?;
    Ok(ended)
}

/// The first row of the kinds' fingers with at most that many gaps that has tracks below the limit; or a certificate
/// that no such row has a legal routing on that many tracks; or neither, where the search needs more lemmas than the
/// budget.
pub fn search_limit<B: RowBound>(
    alloc: Global,
    bound: &B,
    pins: &Pins,
    limit: u32,
    kinds: &Kinds,
    gaps: u32,
    budget: u64,
) -> Result<Limit, NoMemory>
    ensures end { IfOk result (IsEnd (B.value bound.now) pins.now limit kinds.now gaps) }
    // a certificate is true: each legal routing has more tracks
    ensures more { IfOk result (NeedsMoreTracks pins.now limit kinds.now gaps) }
    // none of its lemmas is idle, and they are no more than the budget; where it is spent, more of them are kept
    ensures kept { IfOk result (HasReason (B.value bound.now) pins.now limit kinds.now gaps budget) }
{
    kinds.show_limits();
    let ended = search_limit_by::<Straight, B>(alloc, bound, pins, limit, kinds, gaps, budget)?;
    Ok(ended)
}
