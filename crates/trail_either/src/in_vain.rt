// The best of what searches with pools proved in vain.
ghost use Rattle.std.specs.Prelude.{◌≡◌};
ghost use Rattle.trail_either.specs.Ends.{better, spent_with, told, without_row};

use crate::{EitherStop, TrailEvidence};
use cell_num::NetNo;
use fewer_log::FewerCertificate;

/// A certificate with pools that lists no row. Each arrangement has more gaps than the `proved` ones.
#[derive(Drop)]
pub(crate) struct InVain {
    pub certificate: FewerCertificate,
    pub proved: u32,
}

// The one that proves more gaps, the first of equal ones.
pub(crate) fn better(one: Option<InVain>, other: Option<InVain>) -> Option<InVain>
    ensures { result ≡ better one other }
{
    match (one, other) {
        (Some(one), Some(other)) => {
            if one.proved < other.proved {
                Some(other)
            } else {
                Some(one)
            }
        }
        (Some(one), None) => Some(one),
        (None, other) => other,
    }
}

fn told(vain: InVain) -> EitherStop
    ensures { result ≡ told vain }
{
    EitherStop::Unfinished {
        evidence: TrailEvidence::Pools(vain.certificate),
        proved: vain.proved,
    }
}

// What a search proves that spent the budget, or the best of before where that is more.
pub(crate) fn spent(best: Option<InVain>, evidence: TrailEvidence, proved: u32) -> EitherStop
    ensures { result ≡ spent_with best evidence proved }
{
    match best {
        Some(vain) => {
            if proved < vain.proved {
                drop(evidence);
                told(vain)
            } else {
                drop(vain);
                EitherStop::Unfinished { evidence, proved }
            }
        }
        None => EitherStop::Unfinished { evidence, proved },
    }
}

// The best of what searches with pools proved in vain, or the gate.
pub(crate) fn without_row(gate: NetNo, best: Option<InVain>) -> EitherStop
    ensures { result ≡ without_row gate best }
{
    match best {
        Some(vain) => told(vain),
        None => EitherStop::Choices { gate },
    }
}
