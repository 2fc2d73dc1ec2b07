ghost use Rattle.std.specs.Prelude.{◌≡◌, ◌++◌, IfOk, OnOk};
ghost use Rattle.bench_command.specs.Report.{BenchesTo, cells_text, sums_text};

use crate::cells::bench;
use crate::tally::Tally;
use call_end::{End, Status};
use call_words::CellCount;
use cell_num::{Bytes, NoMemory, put_count};
use std::alloc::Global;

fn put_cells(out: &mut Bytes, number: u32, tally: &Tally) -> Result<(), NoMemory>
    ensures { OnOk result (out.new ≡ out.old ++ cells_text number tally.now) }
{
    put_count(out, b"bench ", u64::from(number))?;
    put_count(out, b"made ", tally.made)?;
    put_count(out, b"cycle ", tally.cycles)?;
    put_count(out, b"unfinished ", tally.unfinished)
}

fn put_sums(out: &mut Bytes, tally: &Tally) -> Result<(), NoMemory>
    ensures { OnOk result (out.new ≡ out.old ++ sums_text tally.now) }
{
    put_count(out, b"columns ", tally.columns)?;
    put_count(out, b"gaps ", tally.gaps)?;
    put_count(out, b"fingers ", tally.fingers)?;
    put_count(out, b"bytes ", tally.bytes)
}

/// The end of a call that counts that many generated cells, each with what making it results in.
pub fn bench_end(alloc: Global, number: &CellCount) -> Result<End, NoMemory>
    ensures { IfOk result (BenchesTo number.now) }
{
    let tally = bench(alloc, number.number())?;
    let mut report = Status::Done.report(alloc)?;
    put_cells(&mut report, number.number(), &tally)?;
    put_sums(&mut report, &tally)?;
    Ok(End::says(alloc, Status::Done, report))
}
