ghost use Rattle.std.specs.Prelude.{◌≡◌, IfErr, IfOk};
ghost use Rattle.std.specs.List.{list_any, range_with_len};
ghost use Rattle.cell_num.specs.Fingers.{AreFingers};
ghost use Rattle.trail_search.specs.Ended.{IsCrowded};
ghost use Rattle.open_gates.specs.Open.{is_uneven};
ghost use Rattle.trail_either.specs.Ended.{IsFound, Stops};
ghost use Rattle.trail_either.specs.Ends.{EndsBy, IsBest, IsPoolsEnd, LongerBy, NextBy};
ghost use Rattle.pool_trails.specs.declared.opening.Opening.TheVariants.{Crowded};

use crate::in_vain::{InVain, better, spent, without_row};
use crate::{EitherFound, EitherStop, TrailEvidence};
use cell_num::{Fingers, NetNo};
use open_gates::is_uneven;
use pool_trails::{Opening, PoolStop, first_out, other_row, search_pool_row};
use std::alloc::Global;
use trail_search::{TrailStop, search_trails};

fn has_half_columns(fingers: &Fingers) -> bool
    ensures { result ≡ list_any (is_uneven fingers.now) (range_with_len 0 fingers.now.nets) }
{
    (0..fingers.nets).any(|gate| is_uneven(fingers, gate))
}

/// How a search with pools ended that did not spend its budget.
#[derive(Drop)]
enum PoolsEnd {
    Found(EitherFound),
    /// Without a row. The best of what this search and those before it proved.
    NoRow(Option<InVain>),
}

// A search with pools. Where it spends the budget, that is the end.
#[tactic(auto, using(crate::proofs::Rules::pools_rules))]
fn search_pools(
    alloc: Global,
    fingers: &Fingers,
    opening: Opening,
    budget: u64,
    best: Option<InVain>,
) -> Result<PoolsEnd, EitherStop>
    requires fingers { AreFingers fingers.now }
    requires next { NextBy fingers.now budget best opening }
    requires best { IsBest fingers.now budget best }
    ensures ended { IfOk result (IsPoolsEnd fingers.now budget opening) }
    ensures stopped { IfErr result (Stops fingers.now budget) }
{
    match search_pool_row(alloc, fingers, opening, budget) {
        Ok(found) => {
            drop(best);
            Ok(PoolsEnd::Found(EitherFound {
                row: found.row,
                evidence: TrailEvidence::Pools(found.certificate),
            }))
        }
        Err(
            PoolStop::Unfinished {
                certificate,
                proved,
            },
        ) => Err(spent(best, TrailEvidence::Pools(certificate), proved)),
        Err(
            PoolStop::InVain {
                certificate,
                proved,
            },
        ) => {
            let vain = InVain {
                certificate,
                proved,
            };
            Ok(PoolsEnd::NoRow(better(best, Some(vain))))
        }
        Err(PoolStop::Crowded) => Ok(PoolsEnd::NoRow(best)),
        Err(PoolStop::NoMemory) => {
            drop(best);
            Err(EitherStop::NoMemory)
        }
    }
}

// With fingers of one row left out where they pair in too many ways: first of the row where fewer columns are lost.
fn search_without(
    alloc: Global,
    fingers: &Fingers,
    budget: u64,
    gate: NetNo,
    best: Option<InVain>,
) -> Result<EitherFound, EitherStop>
    requires fingers { AreFingers fingers.now }
    requires crowded { NextBy fingers.now budget best Crowded × EndsBy fingers.now budget best Crowded }
    requires best { IsBest fingers.now budget best }
    requires gate { IsCrowded fingers.now gate }
    ensures found { IfOk result (IsFound fingers.now budget) }
    ensures stopped { IfErr result (Stops fingers.now budget) }
{
    let first = match first_out(alloc, fingers) {
        Ok(first) => first,
        Err(_) => {
            drop(best);
            return Err(EitherStop::NoMemory);
        }
    };
    let best = match search_pools(alloc, fingers, Opening::Without(first), budget, best)? {
        PoolsEnd::Found(found) => return Ok(found),
        PoolsEnd::NoRow(best) => best,
    };
    let second = other_row(first);
    match search_pools(alloc, fingers, Opening::Without(second), budget, best)? {
        PoolsEnd::Found(found) => Ok(found),
        PoolsEnd::NoRow(best) => Err(without_row(gate, best)),
    }
}

// After a search for version 1 that ended at the gate: with pools of those gates alone that have too many ways to be
// filled, then with fingers left out.
fn search_crowded(
    alloc: Global,
    fingers: &Fingers,
    budget: u64,
    gate: NetNo,
    best: Option<InVain>,
) -> Result<EitherFound, EitherStop>
    requires fingers { AreFingers fingers.now }
    requires longer { LongerBy fingers.now budget best }
    requires best { IsBest fingers.now budget best }
    requires gate { IsCrowded fingers.now gate }
    ensures found { IfOk result (IsFound fingers.now budget) }
    ensures stopped { IfErr result (Stops fingers.now budget) }
{
    match search_pools(alloc, fingers, Opening::Crowded, budget, best)? {
        PoolsEnd::Found(found) => Ok(found),
        PoolsEnd::NoRow(best) => search_without(alloc, fingers, budget, gate, best),
    }
}

// For a certificate of version 1, where no gate has half columns, or the first search with pools ends without a row.
#[tactic(auto, using(crate::proofs::Rules::filled_rules))]
fn search_filled(
    alloc: Global,
    fingers: &Fingers,
    budget: u64,
    best: Option<InVain>,
) -> Result<EitherFound, EitherStop>
    requires fingers { AreFingers fingers.now }
    requires longer { LongerBy fingers.now budget best }
    requires best { IsBest fingers.now budget best }
    ensures found { IfOk result (IsFound fingers.now budget) }
    ensures stopped { IfErr result (Stops fingers.now budget) }
{
    match search_trails(alloc, fingers, budget) {
        Ok(found) => {
            drop(best);
            Ok(EitherFound {
                row: found.row,
                evidence: TrailEvidence::Filled(found.trails),
            })
        }
        Err(TrailStop::Unfinished { trails, proved }) => {
            Err(spent(best, TrailEvidence::Filled(trails), proved))
        }
        Err(TrailStop::Choices { gate }) => search_crowded(alloc, fingers, budget, gate, best),
        Err(TrailStop::NoMemory) => {
            drop(best);
            Err(EitherStop::NoMemory)
        }
    }
}

/// The first least arrangement of the fingers, and a certificate by trails that proves that none has fewer gaps; or
/// what is proved when the budget is spent. Where some gate has half columns, `search_pool_row` leaves open those of
/// one row first, since far fewer choices are listed so. Where no gate has any, or that ends without a row though
/// units are left, `search_trails` is next. Where it ends at a gate, `search_pool_row` leaves open the gates alone that
/// have too many ways to be filled. Then it leaves out the fingers of one row on gates that pair in too many ways. The
/// row where fewer columns are lost is first. Each has the whole budget, and where one spends it, that is the end.
/// Without a row the result is the greatest number of gaps that the last search or one with pools proved. Where no
/// search with pools could list lemmas and none spent its budget, it is that gate.
pub fn search_either(
    alloc: Global,
    fingers: &Fingers,
    budget: u64,
) -> Result<EitherFound, EitherStop>
    requires { AreFingers fingers.now }
    ensures found { IfOk result (IsFound fingers.now budget) }
    ensures stopped { IfErr result (Stops fingers.now budget) }
{
    if !has_half_columns(fingers) {
        return search_filled(alloc, fingers, budget, None);
    }
    match search_pools(alloc, fingers, Opening::Longer, budget, None)? {
        PoolsEnd::Found(found) => Ok(found),
        PoolsEnd::NoRow(best) => search_filled(alloc, fingers, budget, best),
    }
}
