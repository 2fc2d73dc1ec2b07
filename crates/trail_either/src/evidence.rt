ghost use Rattle.std.specs.Prelude.{◌≡◌};
ghost use Rattle.trail_either.specs.Either.{best_in, either_listing, fill_count, lemma_count};

use bound_log::Best;
use fewer_log::FewerCertificate;
use trail_log::TrailCertificate;

/// A certificate by trails.
#[derive(Debug, Drop)]
pub enum TrailEvidence {
    /// Of version 1: nodes of gates that are left open are merged.
    Filled(TrailCertificate),
    /// Of version 2: lemmas tell the balances of the pools of gates that are left open. Of version 3: so they do, and
    /// some fingers are left out.
    Pools(FewerCertificate),
}

impl TrailEvidence {
    /// How many lemmas it has.
    pub fn lemmas(&self) -> u64
        ensures { result ≡ lemma_count self.now }
    {
        match self {
            TrailEvidence::Filled(trails) => trails.lemmas.len() as u64,
            TrailEvidence::Pools(certificate) => certificate.pools.lemmas.len() as u64,
        }
    }

    /// How many gates it lists as filled.
    pub fn filled(&self) -> u64
        ensures { result ≡ fill_count self.now }
    {
        match self {
            TrailEvidence::Filled(trails) => trails.fill.len() as u64,
            TrailEvidence::Pools(certificate) => certificate.pools.fill.len() as u64,
        }
    }

    /// The row that it lists.
    pub fn best(&self) -> &Option<Best>
        ensures { result.now ≡ best_in self.now }
    {
        match self {
            TrailEvidence::Filled(trails) => &trails.best,
            TrailEvidence::Pools(certificate) => &certificate.pools.best,
        }
    }

    /// The certificate with this row in place of its own.
    pub fn listing(self, best: Best) -> TrailEvidence
        ensures { result ≡ either_listing self best }
    {
        match self {
            TrailEvidence::Filled(trails) => TrailEvidence::Filled(trails.listing(best)),
            TrailEvidence::Pools(certificate) => TrailEvidence::Pools(certificate.listing(best)),
        }
    }
}
