ghost use Rattle.std.specs.Prelude.{◌≡◌, ◌++◌, IfOk};
ghost use Rattle.bound_log.specs.Fits.{Fits, ForSome, IsLogName};
ghost use Rattle.call_end.specs.declared.status.Status.TheVariants as status;
ghost use Rattle.call_end.specs.Status.{first_line};
ghost use Rattle.cell_report.specs.Cells.{fewest_text, tall_text};
ghost use Rattle.cell_report.specs.Cycles.{ring_text};
ghost use Rattle.cell_report.specs.Logs.{unfinished_text};
ghost use Rattle.cell_report.specs.Unfinished.{unfinished_end};

use crate::cells::{put_fewest, put_tall};
use crate::logs::put_unfinished;
use crate::ring::put_ring;
use call_end::{End, Status};
use cell_num::{Bytes, Names, NoMemory};
use channel_route::Ring;
use log_output::{Content, KeptLog, LogText};
use spice_net::Subckt;
use std::alloc::Global;

/// The report of a cycle of nets, or of pieces of nets.
pub fn cycle_report(alloc: Global, nets: &Names, ring: &Ring) -> Result<Bytes, NoMemory>
    ensures { IfOk result (λ report. report ≡ first_line status.Cycle ++ ring_text nets.now ring.now) }
{
    let mut report = Status::Cycle.report(alloc)?;
    put_ring(&mut report, nets, ring)?;
    Ok(report)
}

/// The report of a cell that is too tall: the text of [`put_fewest`] or none, and its heights in grid units.
pub fn tall_report(alloc: Global, fewest: &[u8], needed: u32, given: u32) -> Result<Bytes, NoMemory>
    ensures { IfOk result
        (λ report. report ≡ first_line status.TooTall ++ fewest.now ++ tall_text needed given) }
{
    let mut report = Status::TooTall.report(alloc)?;
    report.extend(fewest)?;
    put_tall(&mut report, needed, given)?;
    Ok(report)
}

/// The report of an open search for a row that can be wired: the tracks that are known to be needed, and the cycle of
/// nets, or of pieces of nets, that the first least row has.
pub fn open_ring_report(
    alloc: Global,
    nets: &Names,
    ring: &Ring,
    fewest: u32,
) -> Result<Bytes, NoMemory>
    ensures { IfOk result (λ report. report ≡ first_line status.Unfinished ++ fewest_text fewest
        ++ ring_text nets.now ring.now) }
{
    let mut report = Status::Unfinished.report(alloc)?;
    put_fewest(&mut report, fewest)?;
    put_ring(&mut report, nets, ring)?;
    Ok(report)
}

/// The report of a search that ends without a row.
pub fn unfinished_report(alloc: Global, proved: u32, lemmas: u64) -> Result<Bytes, NoMemory>
    ensures { IfOk result (λ report. report ≡ first_line status.Unfinished ++ unfinished_text proved lemmas) }
{
    let mut report = Status::Unfinished.report(alloc)?;
    put_unfinished(&mut report, proved, lemmas)?;
    Ok(report)
}

/// The end of a search that spent its budget: its log after the counts.
pub fn log_unfinished(
    alloc: Global,
    cell: &Subckt,
    log: KeptLog,
    proved: u32,
) -> Result<End, NoMemory>
    requires name { IsLogName cell.now.name }
    requires fits { ForSome (λ k. Fits k log) }
    ensures { IfOk result (λ end. end ≡ unfinished_end cell.now proved log) }
{
    let front = unfinished_report(alloc, proved, log.count())?;
    let text = LogText::new(alloc, &cell.name, log)?;
    let report = Content::with_log(front, text);
    Ok(End::tells(alloc, Status::Unfinished, report))
}
