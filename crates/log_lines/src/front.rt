ghost use Rattle.std.specs.Prelude.{◌≡◌, ◌↔◌, [], IfOk, IsTrue, Some};
ghost use Rattle.std.specs.Option.{is_some};
ghost use Rattle.log_lines.specs.Fronts.{IsShort, longer};

use crate::room::{LineRoom, MOST_LINE_BYTES};
use cell_num::NoMemory;
use std::alloc::Global;
use std::marker::Model;

/// The front of a line of a log that comes in pieces: its bytes so far, unless they are too many.
#[derive(Drop)]
pub struct LineFront {
    bytes: LineRoom,
    is_long: bool,
}

impl Model for LineFront {
    ghost use Rattle.std.specs.Prelude.{◌≤◌, ℕ, List as Sequence, None, Option, Some, if◌then◌else◌, length};
    ghost use Rattle.log_lines.specs.declared.room.TheConstants.{MOST_LINE_BYTES};

    ghost Value = { Option (Sequence ℕ) };

    ghost view = { λ f. if f.is_long then None else Some f.bytes };

    ghost invariant = { λ f. length f.bytes ≤ MOST_LINE_BYTES };
}

impl LineFront {
    /// The front of a line of which nothing came.
    pub fn new(alloc: Global) -> Result<LineFront, NoMemory>
        ensures { IfOk result (λ front. front ≡ Some []) }
    {
        Ok(LineFront {
            bytes: LineRoom::new(alloc)?,
            is_long: false,
        })
    }

    /// Whether the line is not too long with these bytes.
    pub fn fits(&self, part: &[u8]) -> bool
        ensures fits { result ≡ is_some (longer self.now part.now) }
        ensures short { IsShort self.now }
    {
        !self.is_long && part.len() <= MOST_LINE_BYTES - self.bytes.as_slice().len()
    }

    /// Takes the next bytes of the line, up to a border between pieces.
    pub fn add(&mut self, part: &[u8])
        ensures added { self.new ≡ longer self.old part.now }
        ensures short { IsShort self.old }
    {
        if self.fits(part) {
            self.bytes.extend(part);
        } else {
            self.is_long = true;
        }
    }

    /// Whether nothing of the line came so far.
    pub fn is_empty(&self) -> bool
        ensures { IsTrue result ↔ (self.now ≡ Some []) }
    {
        !self.is_long && self.bytes.as_slice().is_empty()
    }

    /// Writes the line that ends after these bytes, if it is not too long with them.
    pub fn put_whole(&self, part: &[u8], whole: &mut LineRoom)
        requires { IsTrue (is_some (longer self.now part.now)) }
        ensures { Some whole.new ≡ longer self.now part.now }
    {
        whole.clear();
        whole.extend(self.bytes.as_slice());
        whole.extend(part);
    }

    /// Forgets what came: another line begins.
    pub fn clear(&mut self)
        ensures { self.new ≡ Some [] }
    {
        self.bytes.clear();
        self.is_long = false;
    }
}
