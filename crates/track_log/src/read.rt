ghost use Rattle.std.specs.Prelude.{◌≡◌, ◌≢◌, ◌≤◌, ◌+◌, IfOk, IfErr, Ok, Err, length};
ghost use Rattle.log_lines.specs.Lines.{behind, lines_in};
ghost use Rattle.bound_log.specs.declared.fault.LogFault.TheVariants as fault;
ghost use Rattle.bound_log.specs.Fits.{IsLogName};
ghost use Rattle.track_log.specs.declared.certificate.TrackCertificate.{TrackCertificate as CertificateOf};
ghost use Rattle.track_log.specs.Fits.{CertificateFits};
ghost use Rattle.track_log.specs.Reading.{certificate_by, certificate_of, count_at, cycles_at, gaps_at, lemmas_at};
ghost use Rattle.track_log.specs.Reading.{named_at};
ghost use Rattle.track_log.specs.Text.{certificate_text, certificate_text_by};

use crate::course::version_line;
use crate::line::{read_count, read_cycle, read_gaps, read_lemma};
use crate::{Course, TrackCertificate};
use bound_log::{LogFault, read_end};
use cell_num::{MOST_BYTES, Name};
use log_lines::{first_line, is_named, is_word};
use row_cycles::CycleLemmas;
use row_state::Kinds;
use std::alloc::Global;
use track_ways::TrackLemmas;

// The lemmas on tracks up to the line `end`, the last, from the line of that number: else the first fault.
#[tactic(auto, using(crate::proofs::Rules::read_lemmas_rules))]
fn read_lemmas(
    alloc: Global,
    kinds: &Kinds,
    bytes: &[u8],
    from: u32,
) -> Result<TrackLemmas, LogFault>
    requires few { length bytes.now + from ≤ MOST_BYTES + 5 }
    ensures lemmas { IfOk result (λ lemmas.
        lemmas_at kinds.now from (lines_in bytes.now) (behind bytes.now) ≡ Ok lemmas) }
    ensures fault { IfErr result (λ f. f ≢ fault.NoMemory →
        lemmas_at kinds.now from (lines_in bytes.now) (behind bytes.now) ≡ Err f) }
{
    let mut lemmas = TrackLemmas::new(alloc);
    let mut rest = bytes;
    let mut number = from;
    'lemmas: loop {
        let Some(first) = first_line(rest) else {
            return Err(LogFault::Cut);
        };
        if is_word(first.line, b"end") {
            read_end(rest, number)?;
            return Ok(lemmas);
        }
        let Some(lemma) = read_lemma(alloc, kinds, first.line)? else {
            return Err(LogFault::Line { line: number });
        };
        lemmas.push(lemma)?;
        rest = first.after;
        number += 1;
    }
}

// The lemmas on cycles, and after them those on tracks.
#[tactic(auto, using(crate::proofs::Rules::read_cycles_rules))]
fn read_cycles(
    alloc: Global,
    gaps: u32,
    tracks: u32,
    kinds: &Kinds,
    bytes: &[u8],
) -> Result<TrackCertificate, LogFault>
    requires few { length bytes.now ≤ MOST_BYTES }
    ensures certificate { IfOk result (λ certificate.
        cycles_at gaps tracks kinds.now 5 (lines_in bytes.now) (behind bytes.now) ≡ Ok certificate) }
    ensures fault { IfErr result (λ f. f ≢ fault.NoMemory →
        cycles_at gaps tracks kinds.now 5 (lines_in bytes.now) (behind bytes.now) ≡ Err f) }
{
    let mut cycles = CycleLemmas::new(alloc);
    let mut rest = bytes;
    let mut number = 5;
    'cycles: loop {
        let Some(first) = first_line(rest) else {
            return Err(LogFault::Cut);
        };
        let Some(cycle) = read_cycle(alloc, kinds, first.line)? else {
            let lemmas = read_lemmas(alloc, kinds, rest, number)?;
            return Ok(TrackCertificate {
                gaps,
                tracks,
                cycles,
                lemmas,
            });
        };
        cycles.push(cycle)?;
        rest = first.after;
        number += 1;
    }
}

// The line of the tracks, and the lemmas after it.
fn read_counted(
    alloc: Global,
    gaps: u32,
    kinds: &Kinds,
    bytes: &[u8],
) -> Result<TrackCertificate, LogFault>
    requires few { length bytes.now ≤ MOST_BYTES }
    ensures certificate { IfOk result (λ certificate.
        count_at gaps kinds.now (lines_in bytes.now) (behind bytes.now) ≡ Ok certificate) }
    ensures fault { IfErr result (λ f. f ≢ fault.NoMemory →
        count_at gaps kinds.now (lines_in bytes.now) (behind bytes.now) ≡ Err f) }
{
    let Some(first) = first_line(bytes) else {
        return Err(LogFault::Cut);
    };
    let Some(tracks) = read_count(first.line) else {
        return Err(LogFault::Line { line: 4 });
    };
    let certificate = read_cycles(alloc, gaps, tracks, kinds, first.after)?;
    Ok(certificate)
}

// The line of the gaps, and that of the tracks after it.
fn read_bounded(alloc: Global, kinds: &Kinds, bytes: &[u8]) -> Result<TrackCertificate, LogFault>
    requires few { length bytes.now ≤ MOST_BYTES }
    ensures certificate { IfOk result (λ certificate.
        gaps_at kinds.now (lines_in bytes.now) (behind bytes.now) ≡ Ok certificate) }
    ensures fault { IfErr result (λ f. f ≢ fault.NoMemory →
        gaps_at kinds.now (lines_in bytes.now) (behind bytes.now) ≡ Err f) }
{
    let Some(first) = first_line(bytes) else {
        return Err(LogFault::Cut);
    };
    let Some(gaps) = read_gaps(first.line) else {
        return Err(LogFault::Line { line: 3 });
    };
    let certificate = read_counted(alloc, gaps, kinds, first.after)?;
    Ok(certificate)
}

// The line of the name, and that of the gaps after it.
fn read_named(
    alloc: Global,
    bytes: &[u8],
    name: &Name,
    kinds: &Kinds,
) -> Result<TrackCertificate, LogFault>
    requires few { length bytes.now ≤ MOST_BYTES }
    ensures certificate { IfOk result (λ certificate.
        named_at name.now kinds.now (lines_in bytes.now) (behind bytes.now) ≡ Ok certificate) }
    ensures fault { IfErr result (λ f. f ≢ fault.NoMemory →
        named_at name.now kinds.now (lines_in bytes.now) (behind bytes.now) ≡ Err f) }
{
    let Some(first) = first_line(bytes) else {
        return Err(LogFault::Cut);
    };
    if !is_named(first.line, name) {
        return Err(LogFault::Cell);
    }
    let certificate = read_bounded(alloc, kinds, first.after)?;
    Ok(certificate)
}

#[tactic(auto, unfolding(crate::specs::Reading::certificate_by))]
fn read_text(
    alloc: Global,
    course: Course,
    bytes: &[u8],
    name: &Name,
    kinds: &Kinds,
) -> Result<TrackCertificate, LogFault>
    requires few { length bytes.now ≤ MOST_BYTES }
    ensures certificate { IfOk result (λ certificate.
        certificate_by course bytes.now name.now kinds.now ≡ Ok certificate) }
    ensures fault { IfErr result (λ f. f ≢ fault.NoMemory →
        certificate_by course bytes.now name.now kinds.now ≡ Err f) }
{
    let Some(first) = first_line(bytes) else {
        return Err(LogFault::Cut);
    };
    if !is_word(first.line, version_line(course)) {
        return Err(LogFault::Version);
    }
    let certificate = read_named(alloc, first.after, name, kinds)?;
    Ok(certificate)
}

/// The certificate of which the bytes are the text of that course, for the cell of that name and the kinds of its
/// fingers. The name has 1 to 32 bytes and no line feed, and there are at most [`MOST_BYTES`] bytes.
pub fn read_tracks_by(
    alloc: Global,
    course: Course,
    bytes: &[u8],
    name: &Name,
    kinds: &Kinds,
) -> Result<TrackCertificate, LogFault>
    requires name { IsLogName name.now }
    requires few { length bytes.now ≤ MOST_BYTES }
    // The certificate of the definition, or its first fault; memory may run out.
    ensures certificate { IfOk result (λ certificate.
        certificate_by course bytes.now name.now kinds.now ≡ Ok certificate) }
    ensures fault { IfErr result (λ f. f ≢ fault.NoMemory →
        certificate_by course bytes.now name.now kinds.now ≡ Err f) }

    // The one certificate that fits and has these bytes as its text; or none has them.
    ensures fits { IfOk result (λ certificate. CertificateFits kinds.now certificate) }
    ensures text { IfOk result (λ certificate. bytes.now ≡ certificate_text_by course name.now certificate) }
    ensures one { IfOk result (λ certificate. (other : CertificateOf) → CertificateFits kinds.now other →
        certificate_text_by course name.now other ≡ bytes.now → other ≡ certificate) }
    ensures few { IfOk result (λ certificate.
        length certificate.cycles + length certificate.lemmas ≤ length bytes.now) }
    ensures none { IfErr result (λ f. f ≢ fault.NoMemory → (certificate : CertificateOf) →
        CertificateFits kinds.now certificate → certificate_text_by course name.now certificate ≢ bytes.now) }
{
    kinds.show_limits();
    let certificate = read_text(alloc, course, bytes, name, kinds)?;
    Ok(certificate)
}

/// The certificate of which the bytes are the text where nets go straight, for the cell of that name and the kinds of
/// its fingers. The name has 1 to 32 bytes and no line feed, and there are at most [`MOST_BYTES`] bytes.
pub fn read_tracks(
    alloc: Global,
    bytes: &[u8],
    name: &Name,
    kinds: &Kinds,
) -> Result<TrackCertificate, LogFault>
    requires name { IsLogName name.now }
    requires few { length bytes.now ≤ MOST_BYTES }
    // The certificate of the definition, or its first fault; memory may run out.
    ensures certificate { IfOk result (λ certificate.
        certificate_of bytes.now name.now kinds.now ≡ Ok certificate) }
    ensures fault { IfErr result (λ f. f ≢ fault.NoMemory → certificate_of bytes.now name.now kinds.now ≡ Err f) }

    // The one certificate that fits and has these bytes as its text; or none has them.
    ensures fits { IfOk result (λ certificate. CertificateFits kinds.now certificate) }
    ensures text { IfOk result (λ certificate. bytes.now ≡ certificate_text name.now certificate) }
    ensures one { IfOk result (λ certificate. (other : CertificateOf) → CertificateFits kinds.now other →
        certificate_text name.now other ≡ bytes.now → other ≡ certificate) }
    ensures few { IfOk result (λ certificate.
        length certificate.cycles + length certificate.lemmas ≤ length bytes.now) }
    ensures none { IfErr result (λ f. f ≢ fault.NoMemory → (certificate : CertificateOf) →
        CertificateFits kinds.now certificate → certificate_text name.now certificate ≢ bytes.now) }
{
    read_tracks_by(alloc, Course::Straight, bytes, name, kinds)
}
