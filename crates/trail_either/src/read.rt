ghost use Rattle.std.specs.Prelude.{◌≡◌, ◌≢◌, ◌≤◌, IfErr, IfOk, Ok, Err, length};
ghost use Rattle.bound_log.specs.declared.fault.LogFault.TheVariants as fault;
ghost use Rattle.bound_log.specs.Fits.{IsLogName};
ghost use Rattle.trail_either.specs.declared.evidence.TrailEvidence.{TrailEvidence as EvidenceOf};
ghost use Rattle.trail_either.specs.Either.{EitherFits, either_text, lemma_count};
ghost use Rattle.trail_either.specs.Reading.{either_of, has_pools};

use crate::TrailEvidence;
use bound_log::LogFault;
use cell_num::{MOST_BYTES, Name};
use fewer_log::read_fewer;
use log_lines::{first_line, is_word};
use row_state::Kinds;
use std::alloc::Global;
use trail_log::read_trails;

fn has_pools(bytes: &[u8]) -> bool
    ensures { result ≡ has_pools bytes.now }
{
    match first_line(bytes) {
        Some(first) => {
            is_word(first.line, b"cellgen-trails 2") || is_word(first.line, b"cellgen-trails 3")
        }
        None => false,
    }
}

// The certificate, by the version of its text.
fn read_version(
    alloc: Global,
    bytes: &[u8],
    name: &Name,
    kinds: &Kinds,
) -> Result<TrailEvidence, LogFault>
    requires name { IsLogName name.now }
    requires few { length bytes.now ≤ MOST_BYTES }
    ensures evidence { IfOk result (λ evidence. either_of bytes.now name.now kinds.now ≡ Ok evidence) }
    ensures fault { IfErr result (λ f. f ≢ fault.NoMemory → either_of bytes.now name.now kinds.now ≡ Err f) }
{
    if has_pools(bytes) {
        match read_fewer(alloc, bytes, name, kinds) {
            Ok(certificate) => Ok(TrailEvidence::Pools(certificate)),
            Err(fault) => Err(fault),
        }
    } else {
        match read_trails(alloc, bytes, name, kinds) {
            Ok(trails) => Ok(TrailEvidence::Filled(trails)),
            Err(fault) => Err(fault),
        }
    }
}

/// The certificate of which the bytes are the text, for the cell of that name and the kinds of its fingers. The
/// name has 1 to 32 bytes and no line feed, and there are at most [`MOST_BYTES`] bytes. The first line names the
/// version; where it is of none, it is the first fault.
pub fn read_either(
    alloc: Global,
    bytes: &[u8],
    name: &Name,
    kinds: &Kinds,
) -> Result<TrailEvidence, LogFault>
    requires name { IsLogName name.now }
    requires few { length bytes.now ≤ MOST_BYTES }
    // The certificate of the definition, or its first fault; memory may run out.
    ensures evidence { IfOk result (λ evidence. either_of bytes.now name.now kinds.now ≡ Ok evidence) }
    ensures fault { IfErr result (λ f. f ≢ fault.NoMemory → either_of bytes.now name.now kinds.now ≡ Err f) }

    // The one certificate that fits and has these bytes as its text; or none has them.
    ensures fits { IfOk result (EitherFits kinds.now) }
    ensures text { IfOk result (λ evidence. bytes.now ≡ either_text name.now evidence) }
    ensures one { IfOk result (λ evidence. (other : EvidenceOf) → EitherFits kinds.now other →
        either_text name.now other ≡ bytes.now → other ≡ evidence) }
    ensures few { IfOk result (λ evidence. lemma_count evidence ≤ length bytes.now) }
    ensures none { IfErr result (λ f. f ≢ fault.NoMemory →
        (evidence : EvidenceOf) → EitherFits kinds.now evidence → either_text name.now evidence ≢ bytes.now) }
{
    kinds.show_limits();
    let evidence = read_version(alloc, bytes, name, kinds)?;
    Ok(evidence)
}
