ghost use Rattle.std.specs.Prelude.{◌≡◌, ◌≤◌};
ghost use Rattle.row_state.specs.Versions.{IsVersion};
ghost use Rattle.bound_log.specs.Fits.{ForSome, IsLogName, LemmaFits, StepFits};
ghost use Rattle.bound_log.specs.Text.{column_line, gaps_line, head_lines, last_line, lemma_line, open_line};

use crate::out::Out;
use crate::spell::{put_column, put_gaps, put_head, put_lemma};
use crate::{Lemma, LogStep};
use cell_num::{Name, NoMemory};
use log_lines::LineRoom;
use std::alloc::Global;

/// The lines of the text of a log, one at a time, in memory that is taken once: [`LineWriter::head`],
/// each lemma, then the gaps and each column of a row, or [`LineWriter::unfinished`], then
/// [`LineWriter::last`], one after the other, are what [`write_log`](crate::write_log) writes.
#[derive(Debug, Drop)]
pub struct LineWriter {
    line: LineRoom,
}

impl LineWriter {
    /// Takes the memory for one line.
    pub fn new(alloc: Global) -> Result<LineWriter, NoMemory> {
        Ok(LineWriter {
            line: LineRoom::new(alloc)?,
        })
    }

    /// The first two lines, for a log of that version and the cell of that name, which has 1 to 32 bytes and
    /// no line feed.
    #[tactic(auto, using(crate::proofs::Lengths::head_short))]
    pub fn head(&mut self, version: u32, name: &Name) -> &[u8]
        requires version { IsVersion version }
        requires name { IsLogName name.now }
        ensures { result.now ≡ head_lines version name.now }
    {
        self.line.clear();
        match put_head(&mut self.line, version, name) {
            Ok(()) => {}
            Err(_) => unreachable!(),
        }
        self.line.as_slice()
    }

    /// The line of a lemma.
    #[tactic(auto, using(crate::proofs::Lengths::lemma_short))]
    pub fn lemma(&mut self, lemma: &Lemma) -> &[u8]
        requires { ForSome (λ k. LemmaFits k lemma.now) }
        ensures { result.now ≡ lemma_line lemma.now }
    {
        self.line.clear();
        match put_lemma(&mut self.line, lemma) {
            Ok(()) => {}
            Err(_) => unreachable!(),
        }
        self.line.as_slice()
    }

    /// The line of the gaps of the row that the log certifies.
    #[tactic(auto, using(crate::proofs::Lengths::gaps_short))]
    pub fn best(&mut self, gaps: u32) -> &[u8]
        requires { gaps ≤ 63 }
        ensures { result.now ≡ gaps_line gaps }
    {
        self.line.clear();
        match put_gaps(&mut self.line, gaps) {
            Ok(()) => {}
            Err(_) => unreachable!(),
        }
        self.line.as_slice()
    }

    /// The line of a column of that row.
    #[tactic(auto, using(crate::proofs::Lengths::column_short))]
    pub fn column(&mut self, step: &LogStep) -> &[u8]
        requires { ForSome (λ k. StepFits k step.now) }
        ensures { result.now ≡ column_line step.now }
    {
        self.line.clear();
        match put_column(&mut self.line, step) {
            Ok(()) => {}
            Err(_) => unreachable!(),
        }
        self.line.as_slice()
    }

    /// The line in place of gaps and columns, where no row is certified.
    pub fn unfinished(&mut self) -> &[u8]
        ensures { result.now ≡ open_line }
    {
        b"open\n"
    }

    /// The last line.
    pub fn last(&mut self) -> &[u8]
        ensures { result.now ≡ last_line }
    {
        b"end\n"
    }
}
