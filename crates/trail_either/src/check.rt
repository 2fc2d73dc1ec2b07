ghost use Rattle.std.specs.Prelude.{ℕ, ◌≢◌, ◌≤◌, IfErr, IfOk};
ghost use Rattle.cell_num.specs.Fingers.{AreFingers};
ghost use Rattle.trail_check.specs.declared.refusal.TrailRefusal.TheVariants as refusal;
ghost use Rattle.trail_check.specs.Accepted.{IsLow};
ghost use Rattle.trail_check.specs.Refusal.{IsFault, Proves};
ghost use Rattle.trail_either.specs.Accepted.{AreEitherTrue, EitherRefuses, HasFewEitherWays, IsEitherAccepted};
ghost use Rattle.trail_either.specs.Accepted.{IsNeverAccepted};
ghost use Rattle.trail_either.specs.Either.{lemma_count};

use crate::TrailEvidence;
use cell_num::{Fingers, MOST_BYTES};
use pool_certificate::check_certificate;
use std::alloc::Global;
use trail_check::{TrailRefusal, check_trails};

/// The gaps of the row that the certificate lists, where it is accepted: no arrangement of the fingers has fewer. Else
/// the first cause to refuse it. A gate with too many ways is no fault of the certificate, nor is a lack of memory.
/// Each lemma of an accepted certificate is true. At most [`MOST_BYTES`] lemmas.
pub fn check_either(
    alloc: Global,
    fingers: &Fingers,
    evidence: &TrailEvidence,
) -> Result<u32, TrailRefusal>
    requires fingers { AreFingers fingers.now }
    requires few { lemma_count evidence.now ≤ MOST_BYTES }
    ensures accepted { IfOk result (IsEitherAccepted fingers.now evidence.now) }
    ensures refused { IfErr result (λ cause. cause ≢ refusal.NoMemory →
        EitherRefuses fingers.now evidence.now cause) }
    ensures few_ways { IfOk result (λ _. HasFewEitherWays fingers.now evidence.now) }
    ensures never { IfErr result (λ cause. IsFault cause → IsNeverAccepted fingers.now evidence.now) }
    ensures least { IfOk result (IsLow fingers.now) }
    ensures low { IfErr result (Proves (IsLow fingers.now)) }
    ensures law { (gaps : ℕ) → IsEitherAccepted fingers.now evidence.now gaps → IsLow fingers.now gaps }
    ensures lemmas { IfOk result (λ _. AreEitherTrue fingers.now evidence.now) }
{
    match evidence {
        TrailEvidence::Filled(trails) => check_trails(alloc, fingers, trails),
        TrailEvidence::Pools(certificate) => check_certificate(alloc, fingers, certificate),
    }
}
