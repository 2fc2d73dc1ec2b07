ghost use Rattle.std.specs.Prelude.{IfOk};
ghost use Rattle.cell_io.specs.Desk.{OnlyReads};
ghost use Rattle.call_work.specs.Ends.{KeepsReadsOf, MayEnd};
ghost use Rattle.call_words.specs.Words.{asked};

use bench_command::bench_end;
use call_end::{End, Status};
use call_words::form_of;
use call_work::{Material, gather, refused, work};
use cell_io::Desk;
use cell_num::{Bytes, NoMemory};
use std::alloc::Global;

// Gathers what the words ask for and does the work on it. What was gathered is dropped by a call, which is proved type
// by type: where it goes out of scope by itself, all of its parts are proved at once, and that takes minutes.
fn end_of<D: Desk>(alloc: Global, words: &[String], desk: &mut D) -> Result<End, NoMemory>
    ensures ends { IfOk result (MayEnd (D.view desk.old) (D.view desk.new) (asked words.now)) }
    ensures quiet { IfOk result (KeepsReadsOf (D.view desk.old) (D.view desk.new)) }
    ensures only { OnlyReads (D.view desk.old) (D.view desk.new) }
{
    match gather(alloc, desk, form_of(words)) {
        Ok(Material::Bench(number)) => bench_end(alloc, &number),
        Ok(Material::Read(material)) => {
            let end = work(alloc, &material);
            drop(material);
            end
        }
        Err(refusal) => refused(alloc, &refusal),
    }
}

/// The end of a call, which says nothing where memory ran out.
pub(crate) fn prepare<D: Desk>(alloc: Global, words: &[String], desk: &mut D) -> End
    ensures ends { MayEnd (D.view desk.old) (D.view desk.new) (asked words.now) result }
    ensures quiet { KeepsReadsOf (D.view desk.old) (D.view desk.new) result }
    ensures only { OnlyReads (D.view desk.old) (D.view desk.new) }
{
    match end_of(alloc, words, desk) {
        Ok(end) => end,
        Err(NoMemory) => End::says(alloc, Status::NoMemory, Bytes::new(alloc)),
    }
}
