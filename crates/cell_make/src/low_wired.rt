ghost use Rattle.std.specs.Prelude.{◌≡◌, ◌≤◌, All, IfOk};
ghost use Rattle.row_state.specs.Start.{AreKinds};
ghost use Rattle.row_needs.specs.Bound.{IsBoundOf, value_by};
ghost use Rattle.row_cycles.specs.Fits.{CycleFits};
ghost use Rattle.cycle_search.specs.Search.{HasReason, IsEnd, lemmas_in};
ghost use Rattle.cell_make.specs.LowEnded.{nothing_at, unwired_at};
ghost use Rattle.cell_make.specs.LowRows.{IsLeast};
ghost use Rattle.cell_make.specs.LowWired.{IsWiredEnd};

use cell_inputs::Inputs;
use cell_num::NoMemory;
use cycle_search::{WiredRow, wired_row};
use row_cycles::{CycleLemmas, cycles_by_lemmas, wired_rows};
use row_model::{Arrangement, gaps};
use row_needs::{MOST_LEFTOVERS, NeedBound};
use row_state::Kinds;
use std::alloc::Global;
use track_log::TrackCertificate;
use track_ways::TrackLemmas;

/// What the search for the rows that can be wired with the fewest gaps results in.
#[derive(Drop)]
pub enum LowWired {
    /// The first of them, and lemmas on cycles that certify that no row with fewer gaps can be wired.
    Found {
        row: Arrangement,
        cycles: CycleLemmas,
    },
    /// No row can be wired, or the budget was spent. The certificate proves that none is wired, within its gaps, or
    /// nothing, with no tracks.
    Open {
        certificate: TrackCertificate,
        none_wired: bool,
    },
}

// Nothing is known of the tracks.
fn nothing_at(alloc: Global, gaps: u32) -> TrackCertificate
    ensures { result ≡ nothing_at gaps }
{
    TrackCertificate {
        gaps,
        tracks: 0,
        cycles: CycleLemmas::new(alloc),
        lemmas: TrackLemmas::new(alloc),
    }
}

// No row with at most that many gaps can be wired, by these lemmas. A legal routing has fewer tracks than the cell has
// nets.
fn unwired_at(alloc: Global, inputs: &Inputs, cycles: CycleLemmas, gaps: u32) -> TrackCertificate
    ensures { result ≡ unwired_at cycles gaps inputs.now.fingers.nets }
{
    TrackCertificate {
        gaps,
        tracks: inputs.fingers.nets,
        cycles,
        lemmas: TrackLemmas::new(alloc),
    }
}

// The search for the first row without a cycle with that many gaps.
fn wired_at(
    alloc: Global,
    bound: &NeedBound,
    inputs: &Inputs,
    kinds: &Kinds,
    gaps: u32,
) -> Result<WiredRow, NoMemory>
    ensures end { IfOk result (IsEnd (value_by bound.now) inputs.now.cell.pins kinds.now gaps) }
    ensures kept { IfOk result
        (HasReason (value_by bound.now) inputs.now.cell.pins kinds.now gaps inputs.now.tech.budget) }
    ensures fits { gaps ≤ 63 → IfOk result (λ ended. All (CycleFits kinds.now) (lemmas_in ended)) }
{
    let ended = wired_row(
        alloc,
        bound,
        &inputs.cell.pins,
        kinds,
        gaps,
        inputs.budget(),
    )?;
    Ok(ended)
}

impl LowWired {
    // A search for the first row without a cycle that has as many gaps as the least row, then one more, and so on,
    // until a search finds a row. A row has fewer gaps than columns.
    fn by_bound(
        alloc: Global,
        bound: &NeedBound,
        inputs: &Inputs,
        kinds: &Kinds,
        least: &Arrangement,
    ) -> Result<LowWired, NoMemory>
        requires bound { IsBoundOf MOST_LEFTOVERS kinds.now bound.now }
        requires least { IsLeast inputs.now.fingers least.now }
        requires kinds { AreKinds inputs.now.fingers kinds.now }
        ensures { IfOk result (IsWiredEnd inputs.now kinds.now) }
    {
        inputs.show_limits();
        kinds.show_limits();
        cycles_by_lemmas(bound);
        wired_rows();
        let fewest = gaps(least);
        let columns = least.len() as u32;
        // what is known of rows with fewer gaps
        let mut below = nothing_at(alloc, fewest);
        for gaps in fewest..columns {
            let ended = wired_at(alloc, bound, inputs, kinds, gaps)?;
            match ended {
                WiredRow::Found { row } => {
                    return Ok(LowWired::Found {
                        row,
                        cycles: below.cycles,
                    });
                }
                WiredRow::None { lemmas } => below = unwired_at(alloc, inputs, lemmas, gaps),
                WiredRow::Spent => {
                    return Ok(LowWired::Open {
                        certificate: below,
                        none_wired: false,
                    });
                }
            }
        }
        Ok(LowWired::Open {
            certificate: below,
            none_wired: true,
        })
    }

    /// By the gaps of a least row: a search for the first row without a cycle that has as many gaps, then one more, and
    /// so on, until a search finds a row. Each search keeps no more lemmas than the budget. All rest on one table of
    /// the exact needs of states, or on the component bound where the states have too many different leftovers.
    pub fn of(
        alloc: Global,
        inputs: &Inputs,
        kinds: &Kinds,
        least: &Arrangement,
    ) -> Result<LowWired, NoMemory>
        requires least { IsLeast inputs.now.fingers least.now }
        requires kinds { AreKinds inputs.now.fingers kinds.now }
        ensures { IfOk result (IsWiredEnd inputs.now kinds.now) }
    {
        let bound = NeedBound::of(alloc, kinds)?;
        let ended = LowWired::by_bound(alloc, &bound, inputs, kinds, least)?;
        Ok(ended)
    }
}
