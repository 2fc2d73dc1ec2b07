ghost use Rattle.std.specs.Prelude.{◌≡◌, ◌-◌, ◌↔◌, IfErr, IfOk, IsTrue};
ghost use Rattle.cell_num.specs.Fingers.{AreFingers};
ghost use Rattle.row_state.specs.Start.{AreKinds, AreSomeKinds};
ghost use Rattle.trail_check.specs.Justified.{gaps_proved};
ghost use Rattle.end_search.specs.declared.proof.SearchEnd.TheVariants as ended;
ghost use Rattle.pool_trails.specs.Ended.{IsPoolFound, IsPoolStopped, attempts_where};
ghost use Rattle.pool_trails.specs.Inner.{ArePoolGates, CannotProve, IsPoolProof, Stops};
ghost use Rattle.pool_trails.specs.Opening.{lost_by, out_of, staying_by};

use crate::gates::{PoolGates, along, pool_gates};
use crate::left_out::out_of;
use crate::lemmas::lemmas_along;
use crate::listed::listed;
use crate::{Opening, PoolFound, PoolStop};
use cell_num::{Fingers, Halt};
use end_search::{EndProof, SearchEnd};
use fewer_fingers::{columns_lost, staying};
use fewer_log::FewerCertificate;
use pool_certificate::gaps_proved;
use pool_log::PoolCertificate;
use row_state::{Kinds, kinds};
use std::alloc::Global;
use trail_pools::PoolState;
use trail_search::{Attempts, first_row};

/// Lemmas on some fingers, and the certificate that lists them.
#[derive(Debug, Drop)]
struct PoolProof {
    proof: EndProof<PoolState>,
    pools: PoolCertificate,
}

// What the ends prove of all fingers: a gap less for each column lost.
fn gaps_left(ends: u32, lost: u32) -> u32
    ensures { result ≡ gaps_proved ends - lost }
{
    gaps_proved(ends).saturating_sub(lost)
}

// An attempt would list the ways of each gate, also of one that has too many.
fn attempts(uncrowded: bool) -> Attempts
    ensures { result ≡ attempts_where uncrowded }
{
    if uncrowded {
        Attempts::InSecondHalf
    } else {
        Attempts::Never
    }
}

fn is_spent(end: SearchEnd) -> bool
    ensures { IsTrue result ↔ (end ≡ ended.Spent) }
{
    match end {
        SearchEnd::Spent => true,
        SearchEnd::Exact | SearchEnd::Asked => false,
    }
}

// The first row of as many gaps as the lemmas prove of all fingers. The certificate lists these.
fn row_of(
    alloc: Global,
    fingers: &Fingers,
    gates: &PoolGates,
    kinds: &Kinds,
    lost: u32,
    proof: &EndProof<PoolState>,
    certificate: FewerCertificate,
    budget: u64,
) -> Result<PoolFound, PoolStop>
    requires fingers { AreFingers fingers.now }
    requires kinds { AreKinds fingers.now kinds.now }
    requires sound { AreSomeKinds kinds.now }
    requires lost { lost ≡ lost_by gates.now.opening fingers.now }
    requires out { certificate.out ≡ out_of gates.now.opening fingers.now }
    requires proof { IsPoolProof (staying_by gates.now.opening fingers.now) gates.now kinds.now budget proof.now
        certificate.pools }
    ensures found { IfOk result (λ r. IsPoolFound gates.now.opening fingers.now budget r.row r.certificate) }
    ensures stopped { IfErr result (IsPoolStopped gates.now.opening fingers.now budget) }
{
    let proved = gaps_left(proof.ends, lost);
    if is_spent(proof.end) {
        return Err(PoolStop::Unfinished {
            certificate,
            proved,
        });
    }
    let attempts = attempts(gates.uncrowded);
    match first_row(alloc, kinds, proved, attempts, proof.left) {
        Ok(Some(first)) => Ok(PoolFound {
            row: first.row,
            certificate: certificate.listing(first.best),
        }),
        Ok(None) => Err(PoolStop::InVain {
            certificate,
            proved,
        }),
        Err(Halt::Spent) => Err(PoolStop::Unfinished {
            certificate,
            proved,
        }),
        Err(Halt::NoMemory) => Err(PoolStop::NoMemory),
    }
}

// Lemmas on the fingers, as they are listed. The kinds may be those of more fingers.
#[tactic(auto, using(crate::proofs::Rules::search_rules))]
fn proof_along(
    alloc: Global,
    fingers: &Fingers,
    gates: &PoolGates,
    kinds: &Kinds,
    budget: u64,
) -> Result<PoolProof, PoolStop>
    requires fingers { AreFingers fingers.now }
    requires gates { ArePoolGates fingers.now gates.now }
    ensures proof { IfOk result (λ r. IsPoolProof fingers.now gates.now kinds.now budget r.proof r.pools) }
    ensures stopped { IfErr result (Stops (CannotProve gates.now.opening fingers.now budget kinds.now)) }
{
    let along = along(alloc, fingers, gates)?;
    let proof = lemmas_along(alloc, fingers, gates, &along, budget)?;
    let listed = listed(alloc, kinds, &along, gates, proof.lemmas.as_slice())?;
    let Some(pools) = listed else {
        return Err(PoolStop::Crowded);
    };
    Ok(PoolProof { proof, pools })
}

/// The first least arrangement of the fingers, and a certificate with the balances of pools that proves that none has
/// fewer gaps; or what is proved when the budget is spent. Half columns stay open, and fingers are left out, as
/// `opening` says. Lemmas on the fingers that stay are looked for first, by `search_pools`. Those that nothing rests on
/// are not listed. Then a row of all fingers is looked for that has as many gaps as they prove of all: one less for
/// each column lost. It takes the units that are left. Where no gate of the fingers that stay has too many ways to be
/// filled, half of these go for a search that tries no trails at the states of a row; where it spends them, the others
/// go for a search that does, and that goes on with the bounds that the first one found. Else all go for the first. It
/// ends without a row where a gate has too many ways even so, or where each arrangement has more gaps.
pub fn search_pool_row(
    alloc: Global,
    fingers: &Fingers,
    opening: Opening,
    budget: u64,
) -> Result<PoolFound, PoolStop>
    requires { AreFingers fingers.now }
    ensures found { IfOk result (λ r. IsPoolFound opening fingers.now budget r.row r.certificate) }
    ensures stopped { IfErr result (IsPoolStopped opening fingers.now budget) }
{
    let out = out_of(alloc, opening, fingers)?;
    let others = staying(alloc, &out, fingers)?;
    let lost = columns_lost(fingers, &others);
    let kinds = kinds(alloc, fingers)?;
    let gates = pool_gates(alloc, &others, opening)?;
    let PoolProof { proof, pools } = proof_along(alloc, &others, &gates, &kinds, budget)?;
    let certificate = FewerCertificate { out, pools };
    row_of(
        alloc,
        fingers,
        &gates,
        &kinds,
        lost,
        &proof,
        certificate,
        budget,
    )
}
