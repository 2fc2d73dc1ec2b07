ghost use Rattle.std.specs.Prelude.{◌≡◌, ◌≢◌, ◌≤◌, ◌<◌, ◌+◌, IfOk, length, take};
ghost use Rattle.bound_log.specs.declared.fault.LogFault.TheVariants as misread;
ghost use Rattle.cell_commands.specs.LogRead.{AreBegun, AreBehind, HaveRoom};

use crate::log_checker::LogChecker;
use bound_log::{LogFault, LogReader};
use cell_inputs::Inputs;
use cell_io::Sink;
use cell_num::NoMemory;
use row_state::kinds;
use std::alloc::Global;

/// A log that is read and checked as its bytes come, in memory for one line and the best bounds of states. After
/// the first fault of its text the bytes count for nothing.
pub struct CheckedLog {
    pub reader: LogReader,
    pub checker: LogChecker,
}

// (by hand, so that functions in which one goes out of scope cite this proof)
impl Drop for CheckedLog {
    fn drop(self) {
        let CheckedLog { reader, checker } = self;
        drop(reader);
        drop(checker);
    }
}

// After a fault of the text all bytes are passed over.
fn pass_over(fault: LogFault, part: &[u8]) -> Result<usize, NoMemory>
    ensures { IfOk result (λ used. (fault ≢ misread.NoMemory) × (used ≡ length part.now)) }
{
    match fault {
        LogFault::NoMemory => Err(NoMemory),
        _ => Ok(part.len()),
    }
}

impl CheckedLog {
    /// A log for the inputs, before its first byte.
    #[tactic(auto, using(cell_inputs::proofs::Names::log_name))]
    pub fn new(alloc: Global, inputs: &Inputs) -> Result<CheckedLog, NoMemory>
        ensures { IfOk result (λ log. AreBegun inputs.now log.reader log.checker) }
    {
        inputs.show_limits();
        let kinds = kinds(alloc, &inputs.fingers)?;
        let reader = LogReader::new(alloc, &inputs.cell.name, &kinds)?;
        let checker = LogChecker::new(alloc, &inputs.fingers)?;
        Ok(CheckedLog { reader, checker })
    }

    // Takes the bytes up to the end of one line, or all of them, and says how many.
    fn take_line(&mut self, part: &[u8]) -> Result<usize, NoMemory>
        requires some { 0 < length part.now }
        requires room { HaveRoom self.old.reader self.old.checker (length part.now) }
        ensures within { IfOk result (λ used. (0 < used) × (used ≤ length part.now)) }
        ensures behind { IfOk result (λ used. AreBehind self.old.reader self.old.checker (take used part.now)
            self.new.reader self.new.checker) }
    {
        match self.reader.take(part) {
            Ok((used, item)) => {
                self.checker.item(item)?;
                Ok(used)
            }
            Err(fault) => pass_over(fault, part),
        }
    }
}

impl Sink for CheckedLog {
    ghost use Rattle.cell_commands.specs.LogRead.{AreBehind, HaveRoom, behind_more, behind_none, room_left};

    ghost took = { λ a bytes b. AreBehind a.reader a.checker bytes b.reader b.checker };

    ghost may = { λ a count. HaveRoom a.reader a.checker count };

    ghost none = { λ a. behind_none a.reader a.checker };

    ghost more = { λ a b c x y first second.
        behind_more a.reader b.reader c.reader a.checker b.checker c.checker x y first second };

    ghost left = { λ a b x count first may.
        room_left a.reader b.reader a.checker b.checker x count first may };

    fn take(&mut self, part: &[u8]) -> Result<(), NoMemory> {
        let mut at = 0;
        'lines: while at < part.len() {
            let used = self.take_line(&part[at..])?;
            at += used;
        }
        Ok(())
    }
}
