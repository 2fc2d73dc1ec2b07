ghost use Rattle.std.specs.Prelude.{◌≡◌};
ghost use Rattle.fewer_log.specs.Listing.{listing, pools_listing};

use bound_log::Best;
use fewer_fingers::LeftOut;
use pool_log::PoolCertificate;

/// A certificate by trails: which fingers are left out, where any are; lemmas on the others, with the balances of
/// pools; and the row of all fingers that they certify, where one was found.
#[derive(Debug, Drop)]
pub struct FewerCertificate {
    pub out: Option<LeftOut>,
    pub pools: PoolCertificate,
}

fn pools_listing(pools: PoolCertificate, best: Best) -> PoolCertificate
    ensures { result ≡ pools_listing pools best }
{
    let PoolCertificate {
        fill,
        order,
        lemmas,
        best: own,
    } = pools;
    drop(own);
    PoolCertificate {
        fill,
        order,
        lemmas,
        best: Some(best),
    }
}

impl FewerCertificate {
    /// The certificate with this row in place of its own.
    pub fn listing(self, best: Best) -> FewerCertificate
        ensures { result ≡ listing self best }
    {
        FewerCertificate {
            out: self.out,
            pools: pools_listing(self.pools, best),
        }
    }
}
