ghost use Rattle.std.specs.Prelude.{◌≡◌, ◌≤◌, ◌+◌, [], ◌++◌, IfOk, IsErrOf, IsTrue, OnErr, OnOk, length};
ghost use Rattle.cell_io.specs.Desk.{Rose};
ghost use Rattle.cell_io.specs.Output.{CanPut};
ghost use Rattle.cell_io.specs.declared.output.WriteFault.TheVariants.{Failed, NoMemory as Short};
ghost use Rattle.log_output.specs.Giving.{Gives, GivesSome, KeepsUntold, OnlyPuts};
ghost use Rattle.log_output.specs.Targets.{place_of};

use crate::target::Target;
use cell_io::{Desk, WriteFault, append_all, say_all};
use cell_num::{NoMemory, Room};
use std::alloc::Global;
use std::marker::Model;

/// The most bytes of a block.
const MOST_BLOCK_BYTES: usize = 65_536;

/// Lines on their way to a file or to what is said. They gather here in memory that was taken before, since a desk
/// may open and close the file for each piece that it is given.
#[derive(Drop)]
pub struct Block {
    bytes: Room<u8>,
}

impl Model for Block {
    ghost use Rattle.std.specs.Prelude.{◌≡◌, ℕ, List as Sequence};

    ghost Value = { Sequence ℕ };

    ghost view = { λ b. b.bytes.items };

    ghost invariant = { λ b. b.bytes.most ≡ 65536 };
}

/// Puts all the bytes there.
#[tactic(auto, using(crate::proofs::Rules::put_rules))]
pub fn put<D: Desk>(desk: &mut D, target: Target<'_>, bytes: &[u8]) -> Result<(), WriteFault>
    requires { CanPut (place_of target) (D.view desk.old) }
    ensures all { OnOk result (Gives (place_of target.entry) bytes.now [] (D.view desk.old) (D.view desk.new)) }
    ensures some { OnErr result (GivesSome (place_of target.entry) bytes.now (D.view desk.old) (D.view desk.new)) }
    ensures failed { IsErrOf result Failed → Rose (D.view desk.old).write_faults (D.view desk.new).write_faults }
    ensures memory { IsErrOf result Short → Rose (D.view desk.old).shorts (D.view desk.new).shorts }
    ensures counts { KeepsUntold result (D.view desk.old) (D.view desk.new) }
    ensures only { OnlyPuts (place_of target.entry) (D.view desk.old) (D.view desk.new) }
{
    match target {
        Target::File(name) => append_all(desk, name, bytes),
        Target::Report => say_all(desk, bytes),
    }
}

impl Block {
    /// An empty block.
    pub fn new(alloc: Global) -> Result<Block, NoMemory>
        ensures { IfOk result (λ block. block ≡ []) }
    {
        Ok(Block {
            bytes: Room::new(alloc, MOST_BLOCK_BYTES)?,
        })
    }

    fn has_room(&self, line: &[u8]) -> bool
        ensures { IsTrue result → length self.now + length line.now ≤ MOST_BLOCK_BYTES }
    {
        let taken = self.bytes.as_slice().len();
        line.len() <= MOST_BLOCK_BYTES - taken
    }

    fn gather(&mut self, line: &[u8])
        requires { length self.old + length line.now ≤ MOST_BLOCK_BYTES }
        ensures { self.new ≡ self.old ++ line.now }
    {
        self.bytes.extend(line);
    }

    /// Puts what has gathered there, and is empty.
    pub fn flush<D: Desk>(&mut self, desk: &mut D, target: Target<'_>) -> Result<(), WriteFault>
        requires { CanPut (place_of target) (D.view desk.old) }
        ensures all { OnOk result
            (Gives (place_of target.entry) self.old self.new (D.view desk.old) (D.view desk.new)) }
        ensures empty { OnOk result (self.new ≡ []) }
        ensures some { OnErr result (GivesSome (place_of target.entry) self.old (D.view desk.old) (D.view desk.new)) }
        ensures failed { IsErrOf result Failed
            → Rose (D.view desk.old).write_faults (D.view desk.new).write_faults }
        ensures memory { IsErrOf result Short → Rose (D.view desk.old).shorts (D.view desk.new).shorts }
        ensures counts { KeepsUntold result (D.view desk.old) (D.view desk.new) }
        ensures only { OnlyPuts (place_of target.entry) (D.view desk.old) (D.view desk.new) }
    {
        put(desk, target, self.bytes.as_slice())?;
        self.bytes.clear();
        Ok(())
    }

    /// Adds a line: it gathers here, after what goes there first where it would not fit.
    #[tactic(auto, using(crate::proofs::Rules::add_rules))]
    pub fn add<D: Desk>(
        &mut self,
        desk: &mut D,
        target: Target<'_>,
        line: &[u8],
    ) -> Result<(), WriteFault>
        requires { CanPut (place_of target) (D.view desk.old) }
        ensures all { OnOk result (Gives (place_of target.entry) (self.old ++ line.now) self.new
            (D.view desk.old) (D.view desk.new)) }
        ensures some { OnErr result (GivesSome (place_of target.entry) (self.old ++ line.now)
            (D.view desk.old) (D.view desk.new)) }
        ensures failed { IsErrOf result Failed
            → Rose (D.view desk.old).write_faults (D.view desk.new).write_faults }
        ensures memory { IsErrOf result Short → Rose (D.view desk.old).shorts (D.view desk.new).shorts }
        ensures counts { KeepsUntold result (D.view desk.old) (D.view desk.new) }
        ensures only { OnlyPuts (place_of target.entry) (D.view desk.old) (D.view desk.new) }
    {
        if self.has_room(line) {
            self.gather(line);
            return Ok(());
        }
        self.flush(desk, target)?;
        if self.has_room(line) {
            self.gather(line);
            return Ok(());
        }
        put(desk, target, line)
    }
}
