ghost use Rattle.std.specs.Prelude.{◌≡◌, ◌++◌, IfOk, codes, string_bytes};
ghost use Rattle.bound_log.specs.Fits.{ForSome, IsLogName};
ghost use Rattle.cell_commands.specs.Certificate.{CanBeWritten, lemma_count, row_evidence, trails_evidence};
ghost use Rattle.cell_commands.specs.Evidence.{shown};
ghost use Rattle.trail_either.specs.Either.{EitherFits, either_text};

use crate::counts::put_counts;
use crate::evidence::RowEvidence;
use call_end::{Output, Stem};
use cell_num::{Bytes, NoMemory};
use log_output::{Content, KeptLog};
use spice_net::Subckt;
use std::alloc::Global;
use trail_either::{TrailEvidence, write_either};

/// The evidence of a row, or of what a search proves.
#[derive(Drop)]
pub enum Certificate {
    Log(KeptLog),
    Trails(TrailEvidence),
}

// The file of a certificate by trails.
fn trails_file(
    alloc: Global,
    cell: &Subckt,
    stem: &Stem,
    trails: &TrailEvidence,
) -> Result<Output, NoMemory>
    requires name { IsLogName cell.now.name }
    requires fits { ForSome (λ k. EitherFits k trails.now) }
    ensures name { IfOk result (λ file. string_bytes file.name ≡ stem.now ++ codes ".ctrail") }
    ensures bytes { IfOk result (λ file. file.bytes ≡ either_text cell.now.name trails.now) }
{
    let name = stem.with(alloc, ".ctrail")?;
    let text = write_either(alloc, &cell.name, trails)?;
    let bytes = Content::of_bytes(Bytes::from_vec(text));
    Ok(Output { name, bytes })
}

fn trails_evidence(
    alloc: Global,
    cell: &Subckt,
    stem: &Stem,
    trails: &TrailEvidence,
) -> Result<RowEvidence, NoMemory>
    requires name { IsLogName cell.now.name }
    requires fits { ForSome (λ k. EitherFits k trails.now) }
    ensures { IfOk result (λ evidence. shown evidence ≡ trails_evidence cell.now stem.now trails.now) }
{
    let mut counts = Bytes::new(alloc);
    put_counts(&mut counts, trails.lemmas(), trails.filled())?;
    let file = trails_file(alloc, cell, stem, trails)?;
    RowEvidence::of_file(alloc, file, counts)
}

/// The file of a certificate, and what the report of a drawn row says of it.
pub(crate) fn row_evidence(
    alloc: Global,
    cell: &Subckt,
    stem: &Stem,
    certificate: Certificate,
) -> Result<RowEvidence, NoMemory>
    requires name { IsLogName cell.now.name }
    requires fits { CanBeWritten certificate }
    ensures { IfOk result (λ evidence. shown evidence ≡ row_evidence cell.now stem.now certificate) }
{
    match certificate {
        Certificate::Log(log) => RowEvidence::of_log(alloc, cell, stem, log),
        Certificate::Trails(trails) => {
            let evidence = trails_evidence(alloc, cell, stem, &trails);
            drop(trails);
            evidence
        }
    }
}

impl Certificate {
    /// How many lemmas it has.
    pub(crate) fn lemmas(&self) -> u64
        ensures { result ≡ lemma_count self.now }
    {
        match self {
            Certificate::Log(log) => log.count(),
            Certificate::Trails(trails) => trails.lemmas(),
        }
    }
}
