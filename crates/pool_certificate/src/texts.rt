// Whether each line of a certificate is the text of the state that it lists.
ghost use Rattle.std.specs.Prelude.{◌≢◌, ◌<◌, ◌≤◌, All, IfErr, IfNone, IfOk, IfSome, length};
ghost use Rattle.trail_check.specs.declared.refusal.TrailRefusal.TheVariants as refusal;
ghost use Rattle.pool_lines.specs.Texts.{IsTextOfState};
ghost use Rattle.pool_check.specs.Along.{IsAlong};
ghost use Rattle.pool_certificate.specs.Accepted.{AreTexts, open_of};
ghost use Rattle.pool_certificate.specs.Refusal.{IsFirstOther, IsForLine};

use cell_num::{Fingers, MOST_BYTES, NoMemory};
use pool_check::PoolOrder;
use pool_lines::is_text_of_state;
use pool_log::{PoolCertificate, PoolLine};
use std::alloc::Global;
use trail_check::TrailRefusal;

/// The place of the first line that is not the text of the state that it lists, along this order.
pub fn first_other(
    alloc: Global,
    along: &PoolOrder,
    lines: &[PoolLine],
) -> Result<Option<usize>, NoMemory>
    ensures within { IfOk result (λ first. IfSome first (λ at. at < length lines.now)) }
    ensures other { IfOk result (λ first.
        IfSome first (IsFirstOther along.now.steps.pools along.now.levels lines.now)) }
    ensures texts { IfOk result (λ first.
        IfNone first (All (IsTextOfState along.now.steps.pools along.now.levels) lines.now)) }
{
    'lines: for at in 0..lines.len() {
        let levels = along.levels.as_slice();
        if !is_text_of_state(alloc, &along.steps.pools, levels, &lines[at])? {
            return Ok(Some(at));
        }
    }
    Ok(None)
}

/// Whether each line is the text of the state that it lists. Else the first one that is not is the cause to refuse the
/// certificate, where its order is right and no gate has too many ways. The first lemma is at line `first`.
pub(crate) fn check_texts(
    alloc: Global,
    fingers: &Fingers,
    pools: &PoolCertificate,
    along: &PoolOrder,
    first: u32,
) -> Result<(), TrailRefusal>
    requires along { IsAlong fingers.now (open_of fingers.now pools.now) pools.now.order along.now }
    requires few { length pools.now.lemmas ≤ MOST_BYTES }
    requires first { first ≤ 7 }
    ensures texts { IfOk result (λ _. AreTexts fingers.now pools.now) }
    ensures refused { IfErr result (λ why. why ≢ refusal.NoMemory → IsForLine fingers.now pools.now first why) }
{
    match first_other(alloc, along, pools.lemmas.as_slice())? {
        Some(at) => Err(TrailRefusal::Line {
            line: at as u32 + first,
        }),
        None => Ok(()),
    }
}
