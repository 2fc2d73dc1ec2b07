ghost use Rattle.std.specs.Prelude.{◌≡◌, [], All, IfOk};
ghost use Rattle.bound_log.specs.Kept.{HasRoom};

use crate::block::Block;
use bound_log::{Kept, Lemma, LineWriter};
use cell_num::{Name, NoMemory, copy};
use std::alloc::Global;

/// What giving a log takes beside the log.
#[derive(Drop)]
pub struct LogBuffers {
    pub name: Name,
    pub lemma: Lemma,
    pub lines: LineWriter,
    pub block: Block,
}

impl LogBuffers {
    /// Takes the memory; the lemma has room for each of the kept ones.
    pub fn new(alloc: Global, name: &Name, kept: &Kept) -> Result<LogBuffers, NoMemory>
        ensures name { IfOk result (λ buffers. buffers.name ≡ name.now) }
        ensures room { IfOk result (λ buffers. All (HasRoom buffers.lemma) kept.now) }
        ensures empty { IfOk result (λ buffers. buffers.block ≡ []) }
    {
        let name = copy(alloc, name.as_slice())?;
        let block = Block::new(alloc)?;
        let lines = LineWriter::new(alloc)?;
        let lemma = kept.room(alloc)?;
        Ok(LogBuffers {
            name,
            lemma,
            lines,
            block,
        })
    }
}
