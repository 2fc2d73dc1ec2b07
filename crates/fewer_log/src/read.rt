ghost use Rattle.std.specs.Prelude.{◌≡◌, ◌≢◌, ◌≤◌, ◌<◌, ◌∷◌, true, false, IfErr, IfNone, IfOk, IfSome, Ok, Err};
ghost use Rattle.std.specs.Prelude.{drop, length};
ghost use Rattle.row_state.specs.declared.kind.Kinds.{Kinds as KindsOf};
ghost use Rattle.row_state.specs.Start.{AreSomeKinds};
ghost use Rattle.log_lines.specs.Lines.{behind, lines_in};
ghost use Rattle.bound_log.specs.declared.fault.LogFault.TheVariants as fault;
ghost use Rattle.bound_log.specs.Fits.{IsLogName};
ghost use Rattle.fewer_log.specs.declared.certificate.FewerCertificate.{FewerCertificate as CertificateOf};
ghost use Rattle.fewer_log.specs.Fits.{FewerFits};
ghost use Rattle.fewer_log.specs.Reading.{fewer_of, names_out, out_at, two_later};
ghost use Rattle.fewer_log.specs.Text.{fewer_text};

use crate::FewerCertificate;
use crate::line::read_out;
use bound_log::LogFault;
use cell_num::{MOST_BYTES, Name};
use log_lines::{first_line, is_word};
use pool_log::read_pools;
use row_state::Kinds;
use std::alloc::Global;

// What is after the first line, where that is the line of a certificate without some fingers.
fn after_version(bytes: &[u8]) -> Option<&[u8]>
    ensures none { IfNone result (names_out (lines_in bytes.now) ≡ false) }
    ensures names { IfSome result (λ after. names_out (lines_in bytes.now) ≡ true) }
    ensures lines { IfSome result (λ after. drop 1 (lines_in bytes.now) ≡ lines_in after.now) }
    ensures behind { IfSome result (λ after. behind bytes.now ≡ behind after.now) }
    ensures less { IfSome result (λ after. length after.now < length bytes.now) }
{
    let first = first_line(bytes)?;
    if is_word(first.line, b"cellgen-trails 3") {
        Some(first.after)
    } else {
        None
    }
}

fn two_later(fault: LogFault) -> LogFault
    ensures { result ≡ two_later fault }
{
    match fault {
        LogFault::Line { line } => LogFault::Line {
            line: line.saturating_add(2),
        },
        LogFault::Version => LogFault::Version,
        LogFault::Cell => LogFault::Cell,
        LogFault::Cut => LogFault::Cut,
        LogFault::NoMemory => LogFault::NoMemory,
    }
}

// The line of what is left out, and the lemmas on the other fingers after it.
#[tactic(auto, unfolding(order_log::specs::Reading::certificate_of))]
fn read_without(
    alloc: Global,
    bytes: &[u8],
    name: &Name,
    kinds: &Kinds,
) -> Result<FewerCertificate, LogFault>
    requires name { IsLogName name.now }
    requires few { length bytes.now ≤ MOST_BYTES }
    ensures certificate { IfOk result (λ c.
        out_at name.now kinds.now (lines_in bytes.now) (behind bytes.now) ≡ Ok c) }
    ensures fault { IfErr result (λ f. f ≢ fault.NoMemory →
        out_at name.now kinds.now (lines_in bytes.now) (behind bytes.now) ≡ Err f) }
{
    kinds.show_limits();
    let Some(first) = first_line(bytes) else {
        return Err(LogFault::Cut);
    };
    let Some(out) = read_out(alloc, kinds.nets, first.line)? else {
        return Err(LogFault::Line { line: 2 });
    };
    match read_pools(alloc, first.after, name, kinds) {
        Ok(pools) => Ok(FewerCertificate {
            out: Some(out),
            pools,
        }),
        Err(fault) => Err(two_later(fault)),
    }
}

fn read(
    alloc: Global,
    bytes: &[u8],
    name: &Name,
    kinds: &Kinds,
) -> Result<FewerCertificate, LogFault>
    requires name { IsLogName name.now }
    requires few { length bytes.now ≤ MOST_BYTES }
    ensures certificate { IfOk result (λ c. fewer_of bytes.now name.now kinds.now ≡ Ok c) }
    ensures fault { IfErr result (λ f. f ≢ fault.NoMemory → fewer_of bytes.now name.now kinds.now ≡ Err f) }
{
    if let Some(after) = after_version(bytes) {
        let certificate = read_without(alloc, after, name, kinds)?;
        return Ok(certificate);
    }
    let pools = read_pools(alloc, bytes, name, kinds)?;
    Ok(FewerCertificate { out: None, pools })
}

/// The certificate of which the bytes are the text, for the cell of that name and the kinds of its fingers. The
/// name has 1 to 32 bytes and no line feed, and there are at most [`MOST_BYTES`] bytes.
pub fn read_fewer(
    alloc: Global,
    bytes: &[u8],
    name: &Name,
    kinds: &Kinds,
) -> Result<FewerCertificate, LogFault>
    requires name { IsLogName name.now }
    requires few { length bytes.now ≤ MOST_BYTES }
    // The certificate of the definition, or its first fault; memory may run out.
    ensures certificate { IfOk result (λ c. fewer_of bytes.now name.now kinds.now ≡ Ok c) }
    ensures fault { IfErr result (λ f. f ≢ fault.NoMemory → fewer_of bytes.now name.now kinds.now ≡ Err f) }

    // The one certificate that fits and has these bytes as its text; or none has them.
    ensures fits { IfOk result (λ c. FewerFits kinds.now c) }
    ensures text { IfOk result (λ c. bytes.now ≡ fewer_text name.now c) }
    ensures one { IfOk result (λ c. (other : CertificateOf) → FewerFits kinds.now other →
        fewer_text name.now other ≡ bytes.now → other ≡ c) }
    ensures few { IfOk result (λ c. length c.pools.lemmas ≤ length bytes.now) }
    ensures none { IfErr result (λ f. f ≢ fault.NoMemory →
        (c : CertificateOf) → FewerFits kinds.now c → fewer_text name.now c ≢ bytes.now) }
{
    kinds.show_limits();
    let certificate = read(alloc, bytes, name, kinds)?;
    Ok(certificate)
}
