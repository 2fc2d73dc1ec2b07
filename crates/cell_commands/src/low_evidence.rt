ghost use Rattle.std.specs.Prelude.{◌≡◌, ◌++◌, IfOk, codes, string_bytes};
ghost use Rattle.bound_log.specs.Fits.{IsLogName};
ghost use Rattle.cell_commands.specs.Certificate.{CanBeWritten};
ghost use Rattle.cell_commands.specs.Evidence.{evidence_files, shown};
ghost use Rattle.cell_commands.specs.Course.{course_by};
ghost use Rattle.cell_commands.specs.Low.{low_evidence, track_files, tracks_text};

use crate::certificate::{Certificate, row_evidence};
use crate::evidence::RowEvidence;
use call_end::{Output, OutputList, Stem};
use cell_inputs::Wiring;
use cell_num::{Bytes, NoMemory};
use cell_report::put_fewest;
use log_output::Content;
use spice_net::Subckt;
use std::alloc::Global;
use track_log::{Course, TrackCertificate, write_tracks_by};

fn course_by(wiring: Wiring) -> Course
    ensures { result ≡ course_by wiring }
{
    match wiring {
        Wiring::Straight => Course::Straight,
        Wiring::Doglegs => Course::Turning,
    }
}

// The file of a certificate of tracks, of nets that are wired so.
fn track_file(
    alloc: Global,
    wiring: Wiring,
    cell: &Subckt,
    stem: &Stem,
    tracks: &TrackCertificate,
) -> Result<Output, NoMemory>
    requires name { IsLogName cell.now.name }
    ensures name { IfOk result (λ file. string_bytes file.name ≡ stem.now ++ codes ".ctrack") }
    ensures bytes { IfOk result (λ file. file.bytes ≡ tracks_text wiring cell.now tracks.now) }
{
    let name = stem.with(alloc, ".ctrack")?;
    let text = write_tracks_by(alloc, course_by(wiring), &cell.name, tracks)?;
    let bytes = Content::of_bytes(Bytes::from_vec(text));
    Ok(Output { name, bytes })
}

// The files, and after them that of a certificate of tracks, where each least row takes one at least.
fn with_tracks(
    alloc: Global,
    wiring: Wiring,
    cell: &Subckt,
    stem: &Stem,
    files: OutputList,
    tracks: &TrackCertificate,
) -> Result<OutputList, NoMemory>
    requires name { IsLogName cell.now.name }
    ensures { IfOk result (λ all. evidence_files all
        ≡ evidence_files files ++ track_files wiring cell.now stem.now tracks.now) }
{
    if tracks.tracks == 0 {
        return Ok(files);
    }
    let mut all = files;
    let file = track_file(alloc, wiring, cell, stem, tracks)?;
    all.push(file)?;
    Ok(all)
}

/// The evidence of a row, and after it that of its tracks, with nets that are wired so.
pub(crate) fn low_evidence(
    alloc: Global,
    wiring: Wiring,
    cell: &Subckt,
    stem: &Stem,
    certificate: Certificate,
    tracks: &TrackCertificate,
) -> Result<RowEvidence, NoMemory>
    requires name { IsLogName cell.now.name }
    requires fits { CanBeWritten certificate }
    ensures { IfOk result (λ evidence. shown evidence
        ≡ low_evidence wiring cell.now stem.now certificate tracks.now) }
{
    let mut fewest = Bytes::new(alloc);
    put_fewest(&mut fewest, tracks.tracks)?;
    let evidence = row_evidence(alloc, cell, stem, certificate)?;
    let files = with_tracks(alloc, wiring, cell, stem, evidence.files, tracks)?;
    Ok(RowEvidence {
        files,
        fewest,
        counts: evidence.counts,
    })
}
