ghost use Rattle.std.specs.Prelude.{◌≡◌, ◌≤◌, ◌+◌, ◌++◌, [], IfOk, length};

use cell_num::{NoMemory, Room};
use std::alloc::Global;
use std::marker::Model;

/// The most bytes of a line of a log, its line feed not counted.
pub const MOST_LINE_BYTES: usize = 300;

/// Room for one line and its line feed, taken before it is written.
#[derive(Debug, Drop)]
pub struct LineRoom {
    bytes: Room<u8>,
}

impl Model for LineRoom {
    ghost use Rattle.std.specs.Prelude.{◌≡◌, ◌+◌, ℕ, List as Sequence};
    ghost use Rattle.log_lines.specs.declared.room.TheConstants.{MOST_LINE_BYTES};

    ghost Value = { Sequence ℕ };

    ghost view = { λ l. l.bytes.items };

    ghost invariant = { λ l. l.bytes.most ≡ MOST_LINE_BYTES + 1 };
}

impl LineRoom {
    /// Room that holds no bytes.
    pub fn new(alloc: Global) -> Result<LineRoom, NoMemory>
        ensures { IfOk result (λ line. line ≡ []) }
    {
        Ok(LineRoom {
            bytes: Room::new(alloc, MOST_LINE_BYTES + 1)?,
        })
    }

    /// The bytes that were written.
    pub fn as_slice(&self) -> &[u8]
        ensures bytes { result.now ≡ self.now }
        ensures few { length self.now ≤ MOST_LINE_BYTES + 1 }
    {
        self.bytes.as_slice()
    }

    /// Writes the bytes after the others.
    pub fn extend(&mut self, bytes: &[u8])
        requires { length self.old + length bytes.now ≤ MOST_LINE_BYTES + 1 }
        ensures { self.new ≡ self.old ++ bytes.now }
    {
        self.bytes.extend(bytes);
    }

    /// Takes all bytes out.
    pub fn clear(&mut self)
        ensures { self.new ≡ [] }
    {
        self.bytes.clear();
    }
}
