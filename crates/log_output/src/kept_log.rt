ghost use Rattle.std.specs.Prelude.{◌≡◌, length};
ghost use Rattle.bound_log.specs.Kept.{log_with, log_without};

use bound_log::{Best, Kept};
use std::marker::Model;

/// A log whose lemmas are as the search kept them. Contracts see it as the log.
pub struct KeptLog {
    pub(crate) version: u32,
    pub(crate) kept: Kept,
    pub(crate) best: Option<Best>,
}

// (by hand, so that functions in which one goes out of scope cite this proof)
impl Drop for KeptLog {
    fn drop(self) {
        let KeptLog {
            version: _,
            kept,
            best,
        } = self;
        drop(kept);
        drop(best);
    }
}

impl Model for KeptLog {
    ghost use Rattle.bound_log.specs.declared.log.Log.{Log};

    ghost Value = { Log };

    ghost view = { λ l. record { version = l.version; lemmas = l.kept; best = l.best } };
}

impl KeptLog {
    /// The log of this version that lists a row.
    pub fn with_row(version: u32, kept: Kept, best: Best) -> KeptLog
        ensures { result ≡ log_with version kept best }
    {
        KeptLog {
            version,
            kept,
            best: Some(best),
        }
    }

    /// The log of this version that lists none.
    pub fn without_row(version: u32, kept: Kept) -> KeptLog
        ensures { result ≡ log_without version kept }
    {
        KeptLog {
            version,
            kept,
            best: None,
        }
    }

    /// The same log with this row in place of its own.
    pub fn listing(self, best: Best) -> KeptLog
        ensures { result ≡ log_with self.version self.lemmas best }
    {
        let KeptLog {
            version,
            kept,
            best: own,
        } = self;
        drop(own);
        KeptLog::with_row(version, kept, best)
    }

    /// How many lemmas it has.
    pub fn count(&self) -> u64
        ensures { result ≡ length self.now.lemmas }
    {
        self.kept.len()
    }
}
