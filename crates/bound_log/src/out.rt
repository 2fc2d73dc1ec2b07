ghost use Rattle.std.specs.Prelude.{◌≡◌, ◌≤◌, ◌<◌, ◌-◌, ◌+◌, ◌++◌, ℕ, List as Sequence, OnErr, OnOk, length};

use cell_num::{Bytes, NoMemory};
use log_lines::{LineRoom, MOST_LINE_BYTES};

/// What a text is written to.
pub(crate) trait Out {
    /// The text so far.
    ghost text: { Self → Sequence ℕ };

    /// So many bytes more are never refused.
    ghost room: { Self → ℕ };

    fn put(&mut self, bytes: &[u8]) -> Result<(), NoMemory>
        ensures text { OnOk result (text self.new ≡ text self.old ++ bytes.now) }
        ensures left { OnOk result (room self.old ≤ room self.new + length bytes.now) }
        ensures full { OnErr result (room self.old < length bytes.now) };
}

impl Out for Bytes {
    ghost text = { λ out. out };

    ghost room = { λ _. 0 };

    fn put(&mut self, bytes: &[u8]) -> Result<(), NoMemory> {
        if bytes.is_empty() {
            return Ok(());
        }
        self.extend(bytes)
    }
}

fn left(line: &LineRoom) -> usize
    ensures left { result ≡ MOST_LINE_BYTES + 1 - length line.now }
    ensures few { length line.now ≤ MOST_LINE_BYTES + 1 }
{
    MOST_LINE_BYTES + 1 - line.as_slice().len()
}

impl Out for LineRoom {
    ghost use Rattle.log_lines.specs.declared.room.TheConstants.{MOST_LINE_BYTES};

    ghost text = { λ line. line };

    ghost room = { λ line. MOST_LINE_BYTES + 1 - length line };

    fn put(&mut self, bytes: &[u8]) -> Result<(), NoMemory> {
        if left(self) < bytes.len() {
            return Err(NoMemory);
        }
        self.extend(bytes);
        Ok(())
    }
}
