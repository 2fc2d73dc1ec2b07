ghost use Rattle.std.specs.Prelude.{◌≡◌, [], ◌++◌, IsErrOf, OnErr, OnOk};
ghost use Rattle.cell_io.specs.Desk.{Rose};
ghost use Rattle.cell_io.specs.Output.{CanPut};
ghost use Rattle.cell_io.specs.declared.output.WriteFault.TheVariants.{Failed, NoMemory};
ghost use Rattle.log_output.specs.Giving.{Gives, GivesSome, KeepsUntold, OnlyPuts};
ghost use Rattle.log_output.specs.Targets.{place_of};

use crate::block::put;
use crate::log_text::LogText;
use crate::target::Target;
use cell_io::{Desk, WriteFault};
use cell_num::Bytes;
use std::alloc::Global;
use std::marker::Model;

/// What a file holds or a report says: bytes, and after them the text of a log, where there is one. Contracts see it as
/// all its bytes.
pub struct Content {
    bytes: Bytes,
    log: Option<LogText>,
}

// (by hand, so that functions in which one goes out of scope cite this proof)
impl Drop for Content {
    fn drop(self) {
        let Content { bytes, log } = self;
        drop(bytes);
        drop(log);
    }
}

impl Model for Content {
    ghost use Rattle.std.specs.Prelude.{ℕ, List as Sequence, [], ◌++◌, unwrap_or};

    ghost Value = { Sequence ℕ };

    ghost view = { λ c. c.bytes ++ unwrap_or c.log [] };
}

impl Content {
    /// Bytes alone.
    pub fn of_bytes(bytes: Bytes) -> Content
        ensures { result ≡ bytes }
    {
        Content { bytes, log: None }
    }

    /// The text of a log alone.
    pub fn of_log(alloc: Global, log: LogText) -> Content
        ensures { result ≡ log }
    {
        Content::with_log(Bytes::new(alloc), log)
    }

    /// Bytes, and after them the text of a log.
    pub fn with_log(bytes: Bytes, log: LogText) -> Content
        ensures { result ≡ bytes ++ log }
    {
        Content {
            bytes,
            log: Some(log),
        }
    }

    /// Puts all of it at the end of the file, or says it.
    #[tactic(auto, using(crate::proofs::Rules::give_rules))]
    pub fn give<D: Desk>(self, desk: &mut D, target: Target<'_>) -> Result<(), WriteFault>
        requires { CanPut (place_of target) (D.view desk.old) }
        ensures all { OnOk result (Gives (place_of target.entry) self [] (D.view desk.old) (D.view desk.new)) }
        ensures some { OnErr result (GivesSome (place_of target.entry) self (D.view desk.old) (D.view desk.new)) }
        ensures failed { IsErrOf result Failed
            → Rose (D.view desk.old).write_faults (D.view desk.new).write_faults }
        ensures memory { IsErrOf result NoMemory → Rose (D.view desk.old).shorts (D.view desk.new).shorts }
        ensures counts { KeepsUntold result (D.view desk.old) (D.view desk.new) }
        ensures only { OnlyPuts (place_of target.entry) (D.view desk.old) (D.view desk.new) }
    {
        let Content { bytes, log } = self;
        put(desk, target, bytes.as_slice())?;
        match log {
            Some(log) => log.give(desk, target),
            None => Ok(()),
        }
    }
}
