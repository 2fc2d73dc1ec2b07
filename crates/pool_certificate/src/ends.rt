// The ends of trails that the lemmas of a certificate prove.
ghost use Rattle.std.specs.Prelude.{ℕ, ◌≡◌, ◌≢◌, ◌+◌, ◌≤◌, IfErr, IfOk, length, map};
ghost use Rattle.cell_num.specs.Fingers.{AreFingers};
ghost use Rattle.trail_check.specs.declared.refusal.TrailRefusal.TheVariants as refusal;
ghost use Rattle.pool_check.specs.declared.refusal.PoolRefusal.TheVariants as cause;
ghost use Rattle.pool_check.specs.Along.{IsAlong};
ghost use Rattle.pool_certificate.specs.Accepted.{AreProved, AreTexts, HasFewWaysOf, IsFill, lemma_listed};
ghost use Rattle.pool_certificate.specs.Accepted.{lemmas_along, open_of};
ghost use Rattle.pool_certificate.specs.Refusal.{AreEndsRefused, AreLemmasRefused, lemma_line, refusal_of};

use crate::fill::is_fill;
use crate::texts::check_texts;
use cell_num::{Fingers, MOST_BYTES, NoMemory};
use end_lemmas::EndLemma;
use fewer_fingers::LeftOut;
use open_gates::OpenGates;
use pool_check::{PoolOrder, PoolRefusal};
use pool_lines::state_listed;
use pool_log::{PoolCertificate, PoolLine};
use std::alloc::Global;
use trail_check::TrailRefusal;
use trail_pools::PoolState;

// The gates that the certificate leaves open.
fn open_of(alloc: Global, fingers: &Fingers, pools: &PoolCertificate) -> Result<OpenGates, NoMemory>
    ensures { IfOk result (λ opened. opened ≡ open_of fingers.now pools.now) }
{
    OpenGates::unfilled(
        alloc,
        fingers,
        pools.fill.as_slice(),
        pools.order.as_slice(),
    )
}

fn lemma_listed(
    alloc: Global,
    along: &PoolOrder,
    line: &PoolLine,
) -> Result<EndLemma<PoolState>, NoMemory>
    ensures { IfOk result (λ lemma. lemma ≡ lemma_listed along.now.steps.pools along.now.levels line.now) }
{
    let state = state_listed(alloc, &along.steps.pools, along.levels.as_slice(), line)?;
    Ok(EndLemma {
        bound: line.bound,
        done: line.done,
        state,
    })
}

// The lemmas that the lines list.
fn lemmas_along(
    alloc: Global,
    along: &PoolOrder,
    lines: &[PoolLine],
) -> Result<Vec<EndLemma<PoolState>>, NoMemory>
    ensures { IfOk result (λ lemmas. lemmas.items
        ≡ lemmas_along along.now.steps.pools along.now.levels lines.now) }
{
    let mut lemmas = Vec::new(alloc);
    for line in lines {
        let lemma = lemma_listed(alloc, along, line)?;
        if lemmas.push(lemma).is_err() {
            return Err(NoMemory);
        }
    }
    Ok(lemmas)
}

/// The line of the first lemma: two lines more are before it where fingers are left out.
pub(crate) fn lemma_line(out: &Option<LeftOut>) -> u32
    ensures line { result ≡ lemma_line out.now }
    ensures few { result ≤ 7 }
{
    match out {
        Some(_) => 7,
        None => 5,
    }
}

// The first lemma is at line `first`.
fn refusal_of(first: u32, why: PoolRefusal) -> TrailRefusal
    requires first { first ≤ 7 }
    requires few { (at : ℕ) → why ≡ cause.Unproved at → at ≤ MOST_BYTES }
    ensures { result ≡ refusal_of first why }
{
    match why {
        PoolRefusal::Order => TrailRefusal::Gates,
        PoolRefusal::Choices { gate } => TrailRefusal::Choices { gate },
        PoolRefusal::Unproved { at } => TrailRefusal::Unproved {
            line: at as u32 + first,
        },
        PoolRefusal::NoMemory => TrailRefusal::NoMemory,
    }
}

// The order and the levels of the certificate.
fn along(
    alloc: Global,
    fingers: &Fingers,
    opened: &OpenGates,
    pools: &PoolCertificate,
    first: u32,
) -> Result<PoolOrder, TrailRefusal>
    requires fingers { AreFingers fingers.now }
    requires opened { opened.now ≡ open_of fingers.now pools.now }
    requires first { first ≤ 7 }
    ensures along { IfOk result (IsAlong fingers.now (open_of fingers.now pools.now) pools.now.order) }
    ensures refused { IfErr result (λ why. why ≢ refusal.NoMemory → AreLemmasRefused fingers.now pools.now first why) }
{
    match PoolOrder::of(alloc, fingers, opened, pools.order.as_slice()) {
        Ok(along) => Ok(along),
        Err(why) => Err(refusal_of(first, why)),
    }
}

/// The ends of trails that the lemmas prove of every row of these fingers, where the gates with half columns are filled
/// or stay open as they may, each line is the text of its state, and each lemma is justified by those before it. Else
/// the first cause to refuse them; the first lemma is at line `first`.
#[tactic(auto, using(crate::proofs::Rules::ends_rules))]
pub(crate) fn ends_of(
    alloc: Global,
    fingers: &Fingers,
    pools: &PoolCertificate,
    first: u32,
) -> Result<u32, TrailRefusal>
    requires fingers { AreFingers fingers.now }
    requires few { length pools.now.lemmas ≤ MOST_BYTES }
    requires first { first ≤ 7 }
    ensures fill { IfOk result (λ _. IsFill fingers.now pools.now) }
    ensures accepted { IfOk result (AreProved fingers.now pools.now) }
    ensures few_ways { IfOk result (λ _. HasFewWaysOf fingers.now pools.now) }
    ensures texts { IfOk result (λ _. AreTexts fingers.now pools.now) }
    ensures refused { IfErr result (λ why. why ≢ refusal.NoMemory → AreEndsRefused fingers.now pools.now first why) }
{
    let opened = open_of(alloc, fingers, pools)?;
    if !is_fill(fingers, pools, &opened) {
        return Err(TrailRefusal::Gates);
    }
    let along = along(alloc, fingers, &opened, pools, first)?;
    check_texts(alloc, fingers, pools, &along, first)?;
    let lemmas = lemmas_along(alloc, &along, pools.lemmas.as_slice())?;
    match along.check(alloc, &lemmas) {
        Ok(ends) => Ok(ends),
        Err(why) => Err(refusal_of(first, why)),
    }
}
