// A certificate whose lines list lemmas, as it is read from its text.
ghost use Rattle.std.specs.Prelude.{◌≡◌, ◌≢◌, ◌↔◌, All, None, IfNone, IfOk, IfSome, IsTrue, map};
ghost use Rattle.std.specs.Cmp.Lexicographic.{pointwise};
ghost use Rattle.pool_certificate.specs.Accepted.{lemma_listed, lemmas_along};
ghost use Rattle.bound_log.specs.declared.fault.LogFault.TheVariants as because;
ghost use Rattle.pool_lines.specs.Texts.{IsTextOfState};
ghost use Rattle.pool_log.specs.Fits.{PoolsFit};
ghost use Rattle.pool_trails.specs.Found.{line_at};
ghost use Rattle.pool_trails.specs.Inner.{AreUnlistedAlong, ListAlong, lined, same_net};

use crate::gates::PoolGates;
use bound_log::LogFault;
use cell_num::{MOST_BYTES, NoMemory, copy};
use end_lemmas::{EndLemma, EndSteps};
use pool_certificate::first_other;
use pool_check::PoolOrder;
use pool_lines::{line_of, state_listed};
use pool_log::{PoolCertificate, PoolLine, PoolLines, read_pools, write_pools};
use row_state::Kinds;
use std::alloc::Global;
use trail_log::NetList;
use trail_pools::{PoolState, Pools};

fn lines(
    alloc: Global,
    pools: &Pools,
    lemmas: &[EndLemma<PoolState>],
) -> Result<PoolLines, NoMemory>
    ensures { IfOk result (λ lines. lines ≡ map (line_at pools.now) lemmas.now) }
{
    let mut all = PoolLines::new(alloc);
    for lemma in lemmas {
        let line = line_of(alloc, pools, lemma.bound, lemma.done, &lemma.state)?;
        all.push(line)?;
    }
    Ok(all)
}

fn has_numbers(line: &PoolLine, lemma: &EndLemma<PoolState>) -> bool
    ensures { IsTrue result ↔ ((line.now.bound ≡ lemma.now.bound) × (line.now.done ≡ lemma.now.done)) }
{
    line.bound == lemma.bound && line.done == lemma.done
}

#[tactic(auto, using(crate::proofs::Lists::lemma_tells, crate::proofs::Lists::other_numbers))]
fn is_listed(
    alloc: Global,
    along: &PoolOrder,
    line: &PoolLine,
    lemma: &EndLemma<PoolState>,
) -> Result<bool, NoMemory>
    ensures { IfOk result (λ yes. IsTrue yes ↔
        (lemma_listed along.now.steps.pools along.now.levels line.now ≡ lemma.now)) }
{
    if !has_numbers(line, lemma) {
        return Ok(false);
    }
    let state = state_listed(alloc, &along.steps.pools, along.levels.as_slice(), line)?;
    Ok(along.steps.is_same(&state, &lemma.state))
}

#[tactic(auto, using(crate::proofs::Rules::are_listed_rules))]
fn are_listed(
    alloc: Global,
    along: &PoolOrder,
    lines: &[PoolLine],
    lemmas: &[EndLemma<PoolState>],
) -> Result<bool, NoMemory>
    ensures { IfOk result (λ yes. IsTrue yes ↔
        (lemmas_along along.now.steps.pools along.now.levels lines.now ≡ lemmas.now)) }
{
    if lines.len() != lemmas.len() {
        return Ok(false);
    }
    'lines: for at in 0..lines.len() {
        if !is_listed(alloc, along, &lines[at], &lemmas[at])? {
            return Ok(false);
        }
    }
    Ok(true)
}

#[tactic(auto, using(crate::proofs::Rules::texts_rules))]
fn are_texts(alloc: Global, along: &PoolOrder, lines: &[PoolLine]) -> Result<bool, NoMemory>
    ensures { IfOk result (λ yes. IsTrue yes ↔
        All (IsTextOfState along.now.steps.pools along.now.levels) lines.now) }
{
    match first_other(alloc, along, lines)? {
        Some(_) => Ok(false),
        None => Ok(true),
    }
}

fn is_rowless(read: &PoolCertificate) -> bool
    ensures { IsTrue result ↔ (read.now.best ≡ None) }
{
    read.best.is_none()
}

fn same_nets(nets: &NetList, others: &NetList) -> bool
    ensures { result ≡ pointwise same_net nets.now others.now }
{
    nets == others
}

#[tactic(auto, using(crate::proofs::Nets::nets_decide))]
fn has_nets(nets: &NetList, others: &NetList) -> bool
    ensures { IsTrue result ↔ (nets.now ≡ others.now) }
{
    same_nets(nets, others)
}

// Whether it is of these gates, lists no row, and lists the lemmas, each line as the text of its state.
#[tactic(auto, using(crate::proofs::Rules::lists_rules))]
fn lists(
    alloc: Global,
    along: &PoolOrder,
    gates: &PoolGates,
    lemmas: &[EndLemma<PoolState>],
    read: &PoolCertificate,
) -> Result<bool, NoMemory>
    ensures { IfOk result (λ yes. IsTrue yes ↔ ListAlong along.now gates.now lemmas.now read.now) }
{
    if !is_rowless(read) {
        return Ok(false);
    }
    if !has_nets(&read.fill, &gates.fill) {
        return Ok(false);
    }
    if !has_nets(&read.order, &gates.order) {
        return Ok(false);
    }
    let lines = read.lemmas.as_slice();
    if !are_listed(alloc, along, lines, lemmas)? {
        return Ok(false);
    }
    are_texts(alloc, along, lines)
}

// The certificate of the gates with the lines of the lemmas.
fn lined(
    alloc: Global,
    along: &PoolOrder,
    gates: &PoolGates,
    lemmas: &[EndLemma<PoolState>],
) -> Result<PoolCertificate, NoMemory>
    ensures { IfOk result (λ pools. pools ≡ lined along.now gates.now lemmas.now) }
{
    Ok(PoolCertificate {
        fill: copied(alloc, &gates.fill)?,
        order: copied(alloc, &gates.order)?,
        lemmas: lines(alloc, &along.steps.pools, lemmas)?,
        best: None,
    })
}

fn copied(alloc: Global, nets: &NetList) -> Result<NetList, NoMemory>
    ensures { IfOk result (λ copy. copy ≡ nets.now) }
{
    let mut copy = NetList::new(alloc);
    copy.extend(nets.as_slice())?;
    Ok(copy)
}

fn unread(fault: &LogFault) -> Result<Option<PoolCertificate>, NoMemory>
    ensures { IfOk result (λ r. (r ≡ None) × (fault.now ≢ because.NoMemory)) }
{
    match fault {
        LogFault::NoMemory => Err(NoMemory),
        _ => Ok(None),
    }
}

/// The certificate that lists the lemmas, as it is read from its text; or none, where no text of at most
/// [`MOST_BYTES`] has their lines, or these list other lemmas.
#[tactic(auto, using(crate::proofs::Rules::listed_rules))]
pub(crate) fn listed(
    alloc: Global,
    kinds: &Kinds,
    along: &PoolOrder,
    gates: &PoolGates,
    lemmas: &[EndLemma<PoolState>],
) -> Result<Option<PoolCertificate>, NoMemory>
    ensures fits { IfOk result (λ r. IfSome r (PoolsFit kinds.now)) }
    ensures listed { IfOk result (λ r. IfSome r (ListAlong along.now gates.now lemmas.now)) }
    ensures none { IfOk result (λ r. IfNone r (AreUnlistedAlong kinds.now along.now gates.now lemmas.now)) }
{
    kinds.show_limits();
    let name = copy(alloc, b"cell")?;
    let pools = lined(alloc, along, gates, lemmas)?;
    let text = write_pools(alloc, &name, &pools)?;
    if text.len() > MOST_BYTES {
        return Ok(None);
    }
    let read = match read_pools(alloc, &text, &name, kinds) {
        Ok(read) => read,
        Err(fault) => return unread(&fault),
    };
    if lists(alloc, along, gates, lemmas, &read)? {
        Ok(Some(read))
    } else {
        Ok(None)
    }
}
