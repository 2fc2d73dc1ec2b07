// The fewest tracks of a row, by limits from 0 on.
ghost use Rattle.std.specs.Prelude.{◌≡◌, All, IfOk};
ghost use Rattle.row_state.specs.Candidates.{AreCandidates, IsNumbered};
ghost use Rattle.row_state.specs.Start.{start_of};
ghost use Rattle.lemma_check.specs.Noted.{AreNoted};
ghost use Rattle.track_check.specs.Touches.{AreTouches};
ghost use Rattle.track_search.specs.Fewest.{AreAtMost, AreLegalTracks, IsFewest, IsOpen, TakeTracks};
ghost use Rattle.track_search.specs.Fewest.{least_of, lemmas_of};
ghost use Rattle.track_search.specs.FewestBy.{IsFewestBy, IsOpenBy, TakeTracksBy};
ghost use Rattle.track_search.specs.Kept.{IsKeptWithin, IsKeptWithinBy, IsWithin};

use crate::Limit;
use crate::ahead::Task;
use crate::limit::search_task;
use cell_num::{NoMemory, Pins};
use lemma_check::RowTrails;
use row_cycles::numbered_start;
use row_model::Arrangement;
use row_state::{Kinds, Numbered, RowBound, candidates};
use std::alloc::Global;
use track_check::touches;
use track_ways::{Straight, TrackLemmas, TrackRule};

/// What the search for the fewest tracks ends with.
#[derive(Debug, Drop)]
pub enum Fewest {
    /// The first row on the fewest tracks, and, where these are some, a certificate that no row has one track less.
    Found {
        row: Arrangement,
        tracks: u32,
        lemmas: TrackLemmas,
    },
    /// The budget is spent, or no row has tracks below the most: each row takes at least that many tracks, which the
    /// lemmas certify where these are some.
    Open {
        proved: u32,
        lemmas: TrackLemmas,
    },
}

// Tries the limits in turn, from 0 on. Each is left what the lemmas below it leave of the budget.
fn try_limits<R: TrackRule, B: RowBound>(
    task: &Task<B>,
    first: &Numbered,
    trails: &mut RowTrails,
    most: u32,
) -> Result<Fewest, NoMemory>
    requires candidates { AreCandidates task.now.kinds.now task.now.candidates.now }
    requires all { AreTouches task.now.kinds.now (start_of task.now.kinds.now) task.now.all.now }
    requires state { first.now.state ≡ start_of task.now.kinds.now }
    requires numbered { IsNumbered task.now.kinds.now first.now }
    requires trails { AreNoted (B.trails_of task.now.bound.now) task.now.kinds.now trails.old }
    ensures fewest { IfOk result (IsFewestBy R.fits (B.value task.now.bound.now) task.now.pins.now
        task.now.kinds.now task.now.gaps) }
    ensures most { IfOk result (AreAtMost most) }
    ensures within { IfOk result (λ e. All (IsWithin task.now.kinds.now most task.now.gaps) (lemmas_of e)) }
    ensures kept { IfOk result (λ e. IsKeptWithinBy R.fits (B.value task.now.bound.now) task.now.pins.now
        task.now.kinds.now task.now.gaps (least_of e) task.now.budget (lemmas_of e)) }
    ensures open { IfOk result (IsOpenBy R.fits (B.value task.now.bound.now) task.now.pins.now task.now.kinds.now
        task.now.gaps most task.now.budget) }
{
    let mut budget = task.budget;
    let mut lemmas = TrackLemmas::new(task.alloc);
    for limit in 0..most {
        let here = Task {
            limit,
            budget,
            ..*task
        };
        match search_task::<R, B>(&here, first, trails)? {
            Limit::Found { row } => {
                return Ok(Fewest::Found {
                    row,
                    tracks: limit,
                    lemmas,
                });
            }
            Limit::Refuted { lemmas: next } => {
                budget -= next.len() as u64;
                lemmas = next;
            }
            Limit::Spent => {
                return Ok(Fewest::Open {
                    proved: limit,
                    lemmas,
                });
            }
        }
    }
    Ok(Fewest::Open {
        proved: most,
        lemmas,
    })
}

/// The first row of the kinds' fingers with at most that many gaps that has tracks below the least limit by the rule,
/// where this is below the most; or, where the search needs more lemmas than the budget, a limit below which no row has
/// tracks. The budget counts the lemmas for all limits.
pub fn fewest_tracks_by<R: TrackRule, B: RowBound>(
    alloc: Global,
    bound: &B,
    pins: &Pins,
    kinds: &Kinds,
    gaps: u32,
    most: u32,
    budget: u64,
) -> Result<Fewest, NoMemory>
    ensures fewest { IfOk result (IsFewestBy R.fits (B.value bound.now) pins.now kinds.now gaps) }
    // no row has tracks below a lower limit
    ensures take { IfOk result (TakeTracksBy R.fits pins.now kinds.now gaps) }
    ensures most { IfOk result (AreAtMost most) }
    // the lemmas are on valid states, on nets of the kinds and on tracks below the most
    ensures within { IfOk result (λ e. All (IsWithin kinds.now most gaps) (lemmas_of e)) }
    // all lemmas that are kept below the limit are no more than the budget
    ensures kept { IfOk result (λ e. IsKeptWithinBy R.fits (B.value bound.now) pins.now kinds.now gaps (least_of e)
        budget (lemmas_of e)) }
    // the search ends open only at the most tracks, or where the budget is spent for a reason
    ensures open { IfOk result (IsOpenBy R.fits (B.value bound.now) pins.now kinds.now gaps most budget) }
{
    kinds.show_limits();
    let first = numbered_start(alloc, kinds)?;
    let candidates = candidates(alloc, kinds)?;
    let all = touches(kinds, &first.state);
    let task = Task {
        alloc,
        kinds,
        pins,
        limit: 0,
        candidates: candidates.as_slice(),
        bound,
        all: &all,
        gaps,
        budget,
    };
    let mut trails = RowTrails::new(alloc);
    let fewest = try_limits::<R, B>(&task, &first, &mut trails, most)?;
    Ok(fewest)
}

/// The first row of the kinds' fingers with at most that many gaps that has a legal routing on the fewest tracks, where
/// these are fewer than the most; or, where the search needs more lemmas than the budget, how many each row takes at
/// least. The budget counts the lemmas for all numbers of tracks.
pub fn fewest_tracks<B: RowBound>(
    alloc: Global,
    bound: &B,
    pins: &Pins,
    kinds: &Kinds,
    gaps: u32,
    most: u32,
    budget: u64,
) -> Result<Fewest, NoMemory>
    ensures fewest { IfOk result (IsFewest (B.value bound.now) pins.now kinds.now gaps) }
    // each legal routing takes that many tracks or more
    ensures take { IfOk result (TakeTracks pins.now kinds.now gaps) }
    // and trunks on the tracks that the row has are a legal routing on exactly that many
    ensures legal { IfOk result (AreLegalTracks pins.now) }
    ensures most { IfOk result (AreAtMost most) }
    // the lemmas are on valid states, on nets of the kinds and on tracks below the most
    ensures within { IfOk result (λ e. All (IsWithin kinds.now most gaps) (lemmas_of e)) }
    // all lemmas that are kept on fewer tracks are no more than the budget
    ensures kept { IfOk result (λ e. IsKeptWithin (B.value bound.now) pins.now kinds.now gaps (least_of e) budget
        (lemmas_of e)) }
    // the search ends open only at the most tracks, or where the budget is spent for a reason
    ensures open { IfOk result (IsOpen (B.value bound.now) pins.now kinds.now gaps most budget) }
{
    kinds.show_limits();
    let fewest = fewest_tracks_by::<Straight, B>(alloc, bound, pins, kinds, gaps, most, budget)?;
    Ok(fewest)
}
