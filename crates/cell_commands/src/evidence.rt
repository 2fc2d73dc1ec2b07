ghost use Rattle.std.specs.Prelude.{◌≡◌, ◌++◌, IfOk, OnOk, codes, string_bytes};
ghost use Rattle.bound_log.specs.Fits.{Fits, ForSome, IsLogName};
ghost use Rattle.bound_log.specs.Text.{log_text};
ghost use Rattle.call_end.specs.declared.status.Status.TheVariants as status;
ghost use Rattle.call_end.specs.End.{named, reports};
ghost use Rattle.cell_commands.specs.Evidence.{gate_text, shown};
ghost use Rattle.cell_commands.specs.RowEnd.{log_evidence, no_file, one_file};

use call_end::{End, Output, OutputList, Status, Stem};
use cell_num::{Bytes, NetNo, NoMemory, put_count, put_text};
use log_output::{Content, KeptLog, LogText};
use spice_net::Subckt;
use std::alloc::Global;

/// The evidence of a row.
#[derive(Drop)]
pub struct RowEvidence {
    /// Its files, where some are to be made.
    pub files: OutputList,
    /// The line of how many tracks each least row takes at least, or nothing.
    pub fewest: Bytes,
    /// What the report of a drawn row says of it.
    pub counts: Bytes,
}

/// The file of a log.
pub(crate) fn log_file(
    alloc: Global,
    cell: &Subckt,
    stem: &Stem,
    log: KeptLog,
) -> Result<Output, NoMemory>
    requires name { IsLogName cell.now.name }
    requires fits { ForSome (λ k. Fits k log) }
    ensures name { IfOk result (λ file. string_bytes file.name ≡ stem.now ++ codes ".clog") }
    ensures bytes { IfOk result (λ file. file.bytes ≡ log_text cell.now.name log) }
{
    let name = stem.with(alloc, ".clog")?;
    let text = LogText::new(alloc, &cell.name, log)?;
    let bytes = Content::of_log(alloc, text);
    Ok(Output { name, bytes })
}

impl RowEvidence {
    /// One file, of which the report says these counts.
    pub(crate) fn of_file(
        alloc: Global,
        file: Output,
        counts: Bytes,
    ) -> Result<RowEvidence, NoMemory>
        ensures { IfOk result (λ evidence. shown evidence ≡ one_file (named file) counts) }
    {
        let mut files = OutputList::new(alloc);
        files.push(file)?;
        Ok(RowEvidence {
            files,
            fewest: Bytes::new(alloc),
            counts,
        })
    }

    /// No file, since the evidence was given. The report says these counts of it.
    pub(crate) fn without_file(alloc: Global, counts: Bytes) -> RowEvidence
        ensures { shown result ≡ no_file counts }
    {
        RowEvidence {
            files: OutputList::new(alloc),
            fewest: Bytes::new(alloc),
            counts,
        }
    }

    /// A log, in the file whose name ends with `.clog`.
    pub fn of_log(
        alloc: Global,
        cell: &Subckt,
        stem: &Stem,
        log: KeptLog,
    ) -> Result<RowEvidence, NoMemory>
        requires name { IsLogName cell.now.name }
        requires fits { ForSome (λ k. Fits k log) }
        ensures { IfOk result (λ evidence. shown evidence ≡ log_evidence cell.now stem.now log) }
    {
        let mut counts = Bytes::new(alloc);
        put_count(&mut counts, b"lemmas ", log.count())?;
        let file = log_file(alloc, cell, stem, log)?;
        RowEvidence::of_file(alloc, file, counts)
    }
}

fn put_gate(out: &mut Bytes, cell: &Subckt, gate: NetNo) -> Result<(), NoMemory>
    ensures { OnOk result (out.new ≡ out.old ++ gate_text cell.now gate) }
{
    match cell.nets.get(gate.0 as usize) {
        Some(name) => put_text(out, b"gate ", name.as_slice()),
        None => put_text(out, b"gate ", b""),
    }
}

/// The end of a search that meets a gate whose fingers pair in too many ways.
pub(crate) fn too_many_pairings(alloc: Global, cell: &Subckt, gate: NetNo) -> Result<End, NoMemory>
    ensures { IfOk result (λ end. end ≡ reports status.Unfinished (gate_text cell.now gate)) }
{
    let mut report = Status::Unfinished.report(alloc)?;
    put_gate(&mut report, cell, gate)?;
    Ok(End::says(alloc, Status::Unfinished, report))
}
