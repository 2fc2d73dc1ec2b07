ghost use Rattle.std.specs.Prelude.{◌≡◌, [], ◌∷◌, IfOk};
ghost use Rattle.call_end.specs.End.{says, leaves};

use crate::status::Status;
use cell_num::{Bytes, List, NoMemory};
use log_output::Content;
use std::alloc::Global;

/// A file to make.
#[derive(Drop)]
pub struct Output {
    pub name: String,
    pub bytes: Content,
}

/// Files to make, in order.
pub type OutputList = List<Output>;

/// What a call results in: it makes the files in order, says the report, and ends with the status.
#[derive(Drop)]
pub struct End {
    pub status: Status,
    pub files: OutputList,
    pub report: Content,
}

impl End {
    /// An end that makes files in order. It takes no memory.
    pub fn makes(status: Status, files: OutputList, report: Bytes) -> End
        ensures { result ≡ leaves status files report }
    {
        End {
            status,
            files,
            report: Content::of_bytes(report),
        }
    }

    /// An end that makes a file.
    pub fn makes_one(
        alloc: Global,
        status: Status,
        file: Output,
        report: Bytes,
    ) -> Result<End, NoMemory>
        ensures { IfOk result (λ end. end ≡ leaves status (file ∷ []) report) }
    {
        let mut files = OutputList::new(alloc);
        files.push(file)?;
        Ok(End::makes(status, files, report))
    }

    /// An end without files.
    pub fn says(alloc: Global, status: Status, report: Bytes) -> End
        ensures { result ≡ says status report }
    {
        End::tells(alloc, status, Content::of_bytes(report))
    }

    /// The same with a report that may hold the text of a log.
    pub fn tells(alloc: Global, status: Status, report: Content) -> End
        ensures { result ≡ says status report }
    {
        End {
            status,
            files: OutputList::new(alloc),
            report,
        }
    }
}
