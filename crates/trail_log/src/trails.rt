ghost use Rattle.std.specs.Prelude.{◌≡◌};
ghost use Rattle.trail_log.specs.Listing.{trails_listing};

use crate::{ClassList, NetList, NetPairs};
use bound_log::{Best, Ending};
use cell_num::List;

/// The greatest bound that the text of a certificate can hold: two ends for each of 32 columns.
pub const MOST_ENDS: u32 = 64;

/// After the first `done` gates of the order, where they left an odd number of ends at the pairs `odd`, and
/// chained those that later gates can meet to these classes, at least `bound` more ends of trails come.
#[derive(Debug, Drop)]
pub struct LemmaLine {
    pub bound: u32,
    pub done: u32,
    pub odd: NetPairs,
    pub classes: ClassList,
}

/// The lemmas of a certificate.
pub type LemmaLines = List<LemmaLine>;

/// What a line after the order says: a lemma, or what follows the lemmas.
#[derive(Debug, Drop)]
pub enum TrailEntry {
    Lemma(LemmaLine),
    Ending(Ending),
}

/// A certificate: the gates whose half columns are filled, all gates in the order in which they are chosen, lemmas,
/// and the row that they certify, where one was found.
#[derive(Debug, Drop)]
pub struct TrailCertificate {
    pub fill: NetList,
    pub order: NetList,
    pub lemmas: LemmaLines,
    pub best: Option<Best>,
}

impl TrailCertificate {
    /// The certificate with this row in place of its own.
    pub fn listing(self, best: Best) -> TrailCertificate
        ensures { result ≡ trails_listing self best }
    {
        let TrailCertificate {
            fill,
            order,
            lemmas,
            best: own,
        } = self;
        drop(own);
        TrailCertificate {
            fill,
            order,
            lemmas,
            best: Some(best),
        }
    }
}
