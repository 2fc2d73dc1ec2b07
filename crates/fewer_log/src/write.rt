ghost use Rattle.std.specs.Prelude.{◌≡◌, IfOk, IfSome, Ok};
ghost use Rattle.row_state.specs.declared.kind.Kinds.{Kinds as KindsOf};
ghost use Rattle.row_state.specs.Start.{AreSomeKinds};
ghost use Rattle.bound_log.specs.Fits.{BestFits, ForSome, IsLogName};
ghost use Rattle.fewer_log.specs.Fits.{FewerFits};
ghost use Rattle.fewer_log.specs.Reading.{fewer_of};
ghost use Rattle.fewer_log.specs.Text.{fewer_text};

use crate::FewerCertificate;
use crate::line::put_out;
use cell_num::{Bytes, Name, NoMemory};
use pool_log::write_pools;
use std::alloc::Global;

/// The text of a certificate for the cell of that name, which has 1 to 32 bytes and no line feed. Reading it gives
/// the same certificate, for all kinds that it fits.
pub fn write_fewer(
    alloc: Global,
    name: &Name,
    certificate: &FewerCertificate,
) -> Result<Vec<u8>, NoMemory>
    requires name { IsLogName name.now }
    requires row { ForSome (λ k. IfSome certificate.now.pools.best (BestFits k)) }
    ensures text { IfOk result (λ bytes. bytes.items ≡ fewer_text name.now certificate.now) }
    ensures reads { IfOk result (λ bytes. (k : KindsOf) → AreSomeKinds k → FewerFits k certificate.now →
        fewer_of bytes.items name.now k ≡ Ok certificate.now) }
{
    let pools = write_pools(alloc, name, &certificate.pools)?;
    let Some(out) = &certificate.out else {
        return Ok(pools);
    };
    let mut text = Bytes::new(alloc);
    text.extend(b"cellgen-trails 3\n")?;
    put_out(&mut text, out)?;
    text.extend(pools.as_slice())?;
    Ok(text.into_vec())
}
