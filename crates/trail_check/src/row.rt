ghost use Rattle.std.specs.Prelude.{◌≡◌, ◌≢◌, ◌≤◌, ◌<◌, [], IfErr, IfOk, Option};
ghost use Rattle.cell_num.specs.Fingers.{AreFingers};
ghost use Rattle.log_check.specs.Accepted.{BestPasses, WithKinds};
ghost use Rattle.trail_check.specs.Refusal.{Proves, RowRefused};
ghost use Rattle.trail_check.specs.declared.refusal.TrailRefusal.TheVariants as refusal;

use crate::TrailRefusal;
use bound_log::{Best, LemmaList, Log};
use cell_num::{Fingers, NoMemory};
use log_check::{Refused, check_log};
use row_state::{PARITY_LOG, Parity};
use std::alloc::{AllocError, Global};

fn copied_row(best: &Option<Best>) -> Result<Option<Best>, AllocError>
    ensures { IfOk result (λ copy. copy ≡ best.now) }
{
    match best {
        Some(best) => Ok(Some(best.clone()?)),
        None => Ok(None),
    }
}

// A log of the row alone, without lemmas.
fn log_of_row(alloc: Global, best: &Option<Best>) -> Result<Log, NoMemory>
    ensures lemmas { IfOk result (λ log. log.lemmas ≡ []) }
    ensures best { IfOk result (λ log. log.best ≡ best.now) }
{
    Ok(Log {
        version: PARITY_LOG,
        lemmas: LemmaList::new(alloc),
        best: copied_row(best)?,
    })
}

// A log without lemmas proves no gap, so its row is refused where it has one.
fn least(said: u32, proved: u32) -> Result<u32, TrailRefusal>
    ensures ok { IfOk result (λ gaps. (gaps ≡ said) × (said ≤ proved)) }
    ensures err { IfErr result (λ cause. (cause ≡ refusal.NotLeast proved said) × (proved < said)) }
{
    if proved < said {
        Err(TrailRefusal::NotLeast { best: proved, said })
    } else {
        Ok(said)
    }
}

/// The gaps of the listed row, where each row is proved to have as many; else what is wrong with it.
pub fn check_row(
    alloc: Global,
    fingers: &Fingers,
    best: &Option<Best>,
    proved: u32,
) -> Result<u32, TrailRefusal>
    requires fingers { AreFingers fingers.now }
    ensures passes { IfOk result (λ gaps. WithKinds fingers.now (λ k.
        BestPasses k fingers.now proved best.now gaps)) }
    ensures refused { IfErr result (λ cause. cause ≢ refusal.NoMemory → WithKinds fingers.now (λ k.
        RowRefused k fingers.now proved best.now cause)) }
    ensures few { IfOk result (λ gaps. gaps ≤ proved) }
    ensures told { IfErr result (Proves (λ said. said ≡ proved)) }
{
    let alone = log_of_row(alloc, best)?;
    match check_log(alloc, fingers, &alone, &Parity) {
        Ok(gaps) => least(gaps, proved),
        Err(Refused::NotLeast { said, .. }) => least(said, proved),
        Err(Refused::NoRow { .. }) => Err(TrailRefusal::NoRow { best: proved }),
        Err(Refused::NotArrangement) => Err(TrailRefusal::NotArrangement),
        Err(Refused::Gaps { said, counted }) => Err(TrailRefusal::Gaps { said, counted }),
        Err(Refused::Unproved { .. }) => unreachable!(),
        Err(Refused::NoMemory) => Err(TrailRefusal::NoMemory),
    }
}
