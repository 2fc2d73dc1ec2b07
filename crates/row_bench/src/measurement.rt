ghost use Rattle.std.specs.Prelude.{◌≡◌, IfOk};
ghost use Rattle.row_bench.specs.Measured.{found_measured, report_of};

use cell_num::{Bytes, NoMemory, put_count};
use row_search::FoundKept;
use std::alloc::Global;

/// What a search took, and the gaps of its row or those that it proved.
#[derive(Drop)]
pub enum Measurement {
    Row { nodes: u64, lemmas: u64, gaps: u32 },
    Budget { lemmas: u64, proved: u32 },
}

impl Measurement {
    /// What a search took that found the least row.
    pub fn of_found(found: &FoundKept) -> Measurement
        ensures { result ≡ found_measured found.now }
    {
        Measurement::Row {
            nodes: found.nodes,
            lemmas: found.kept.len(),
            gaps: found.best.gaps,
        }
    }

    /// Its numbers, a line each.
    pub fn report(&self, alloc: Global) -> Result<Bytes, NoMemory>
        ensures { IfOk result (λ text. text ≡ report_of self.now) }
    {
        let mut text = Bytes::new(alloc);
        match self {
            Measurement::Row {
                nodes,
                lemmas,
                gaps,
            } => {
                put_count(&mut text, b"nodes ", *nodes)?;
                put_count(&mut text, b"lemmas ", *lemmas)?;
                put_count(&mut text, b"gaps ", u64::from(*gaps))?;
            }
            Measurement::Budget { lemmas, proved } => {
                text.extend(b"unfinished\n")?;
                put_count(&mut text, b"lemmas ", *lemmas)?;
                put_count(&mut text, b"proved ", u64::from(*proved))?;
            }
        }
        Ok(text)
    }
}
