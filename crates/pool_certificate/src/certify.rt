ghost use Rattle.std.specs.Prelude.{ℕ, ◌≡◌, ◌≢◌, ◌≤◌, IfErr, IfOk, length};
ghost use Rattle.cell_num.specs.Fingers.{AreFingers};
ghost use Rattle.fewer_fingers.specs.Fewer.{staying};
ghost use Rattle.trail_check.specs.Accepted.{IsLow};
ghost use Rattle.trail_check.specs.Justified.{gaps_proved};
ghost use Rattle.trail_check.specs.Refusal.{IsFault, Proves};
ghost use Rattle.trail_check.specs.declared.refusal.TrailRefusal.TheVariants as refusal;
ghost use Rattle.pool_certificate.specs.Accepted.{AreTrueLemmas, HasFewWaysOf, IsAccepted, IsNeverAccepted};
ghost use Rattle.pool_certificate.specs.Accepted.{ProvesOfAll};
ghost use Rattle.pool_certificate.specs.Refusal.{EndsRefused, Refuses};

use crate::ends::{ends_of, lemma_line};
use cell_num::{Fingers, MOST_BYTES};
use fewer_fingers::{columns_lost, staying};
use fewer_log::FewerCertificate;
use std::alloc::Global;
use trail_check::{TrailRefusal, check_row};

/// How many gaps a row has at least whose trails have this many ends: two for each gap, and two more.
pub fn gaps_proved(ends: u32) -> u32
    ensures { result ≡ gaps_proved ends }
{
    ends.saturating_sub(1) / 2
}

// The gaps that the certificate proves of all fingers, one less for each column lost.
fn gaps_of_all(
    alloc: Global,
    fingers: &Fingers,
    certificate: &FewerCertificate,
) -> Result<u32, TrailRefusal>
    requires fingers { AreFingers fingers.now }
    requires few { length certificate.now.pools.lemmas ≤ MOST_BYTES }
    ensures proved { IfOk result (ProvesOfAll fingers.now certificate.now) }
    ensures few_ways { IfOk result (λ _.
        HasFewWaysOf (staying certificate.now.out fingers.now) certificate.now.pools) }
    ensures refused { IfErr result (λ why. why ≢ refusal.NoMemory → EndsRefused fingers.now certificate.now why) }
{
    let others = staying(alloc, &certificate.out, fingers)?;
    let first = lemma_line(&certificate.out);
    let ends = ends_of(alloc, &others, &certificate.pools, first)?;
    Ok(gaps_proved(ends).saturating_sub(columns_lost(fingers, &others)))
}

/// The gaps of the row that the certificate lists, where it is accepted: no arrangement of the fingers has fewer. Else
/// the first cause to refuse it. The lemmas are about the fingers that stay: they prove one gap less of all for each
/// column lost. A gate with too many ways is no fault of the certificate, nor is a lack of memory. Each lemma of an
/// accepted certificate is true, and its line the one text of its state. At most [`MOST_BYTES`] lemmas.
#[tactic(auto, using(crate::proofs::Rules::certificate_rules))]
pub fn check_certificate(
    alloc: Global,
    fingers: &Fingers,
    certificate: &FewerCertificate,
) -> Result<u32, TrailRefusal>
    requires fingers { AreFingers fingers.now }
    requires few { length certificate.now.pools.lemmas ≤ MOST_BYTES }
    ensures accepted { IfOk result (IsAccepted fingers.now certificate.now) }
    ensures refused { IfErr result (λ cause. cause ≢ refusal.NoMemory → Refuses fingers.now certificate.now cause) }
    ensures few_ways { IfOk result (λ _.
        HasFewWaysOf (staying certificate.now.out fingers.now) certificate.now.pools) }
    ensures never { IfErr result (λ cause. IsFault cause → IsNeverAccepted fingers.now certificate.now) }
    ensures least { IfOk result (IsLow fingers.now) }
    ensures low { IfErr result (Proves (IsLow fingers.now)) }
    ensures law { (gaps : ℕ) → IsAccepted fingers.now certificate.now gaps → IsLow fingers.now gaps }
    ensures lemmas { IfOk result (λ _.
        AreTrueLemmas (staying certificate.now.out fingers.now) certificate.now.pools) }
{
    let proved = gaps_of_all(alloc, fingers, certificate)?;
    check_row(alloc, fingers, &certificate.pools.best, proved)
}
