ghost use Rattle.std.specs.Prelude.{◌≡◌, ◌≢◌, ◌≤◌, IfErr, IfOk, IfSome, Ok, Err, length};
ghost use Rattle.row_state.specs.declared.kind.Kinds.{Kinds as KindsOf};
ghost use Rattle.row_state.specs.Start.{AreSomeKinds};
ghost use Rattle.bound_log.specs.declared.fault.LogFault.TheVariants as fault;
ghost use Rattle.bound_log.specs.Fits.{BestFits, ForSome, IsLogName};
ghost use Rattle.order_log.specs.declared.certificate.OrderCertificate.{OrderCertificate as CertificateOf};
ghost use Rattle.pool_log.specs.declared.lemma.PoolLine.{PoolLine as LineOf};
ghost use Rattle.pool_log.specs.Fits.{PoolsFit};
ghost use Rattle.pool_log.specs.Text.{pool_text, pools_of};

use crate::PoolLine;
use bound_log::LogFault;
use cell_num::{MOST_BYTES, Name, NoMemory};
use order_log::{OrderCertificate, read_certificate, write_certificate};
use row_state::Kinds;
use std::alloc::Global;

/// A certificate by trails whose lemmas tell the balances of pools: gates with half columns that are not filled stay
/// open.
pub type PoolCertificate = OrderCertificate<PoolLine>;

/// The certificate of which the bytes are the text, for the cell of that name and the kinds of its fingers. The
/// name has 1 to 32 bytes and no line feed, and there are at most [`MOST_BYTES`] bytes.
pub fn read_pools(
    alloc: Global,
    bytes: &[u8],
    name: &Name,
    kinds: &Kinds,
) -> Result<PoolCertificate, LogFault>
    requires name { IsLogName name.now }
    requires few { length bytes.now ≤ MOST_BYTES }
    // The certificate of the definition, or its first fault; memory may run out.
    ensures pools { IfOk result (λ pools. pools_of bytes.now name.now kinds.now ≡ Ok pools) }
    ensures fault { IfErr result (λ f. f ≢ fault.NoMemory → pools_of bytes.now name.now kinds.now ≡ Err f) }

    // The one certificate that fits and has these bytes as its text; or none has them.
    ensures fits { IfOk result (λ pools. PoolsFit kinds.now pools) }
    ensures text { IfOk result (λ pools. bytes.now ≡ pool_text name.now pools) }
    ensures one { IfOk result (λ pools. (other : CertificateOf LineOf) → PoolsFit kinds.now other →
        pool_text name.now other ≡ bytes.now → other ≡ pools) }
    ensures few { IfOk result (λ pools. length pools.lemmas ≤ length bytes.now) }
    ensures none { IfErr result (λ f. f ≢ fault.NoMemory →
        (pools : CertificateOf LineOf) → PoolsFit kinds.now pools → pool_text name.now pools ≢ bytes.now) }
{
    kinds.show_limits();
    let pools = read_certificate(alloc, b"cellgen-trails 2", bytes, name, kinds)?;
    Ok(pools)
}

/// The text of a certificate for the cell of that name, which has 1 to 32 bytes and no line feed. Reading it gives
/// the same certificate, for all kinds that it fits.
pub fn write_pools(alloc: Global, name: &Name, pools: &PoolCertificate) -> Result<Vec<u8>, NoMemory>
    requires name { IsLogName name.now }
    requires row { ForSome (λ k. IfSome pools.now.best (BestFits k)) }
    ensures text { IfOk result (λ bytes. bytes.items ≡ pool_text name.now pools.now) }
    ensures reads { IfOk result (λ bytes. (k : KindsOf) → AreSomeKinds k → PoolsFit k pools.now →
        pools_of bytes.items name.now k ≡ Ok pools.now) }
{
    let text = write_certificate(alloc, b"cellgen-trails 2", name, pools)?;
    Ok(text.into_vec())
}
