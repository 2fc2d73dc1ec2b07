ghost use Rattle.std.specs.Prelude.{◌≡◌, IfOk, Ok};
ghost use Rattle.row_state.specs.declared.kind.Kinds.{Kinds as KindsOf};
ghost use Rattle.row_state.specs.Start.{AreSomeKinds};
ghost use Rattle.bound_log.specs.Fits.{ForSome, IsLogName};
ghost use Rattle.trail_either.specs.Either.{EitherFits, either_text};
ghost use Rattle.trail_either.specs.Reading.{either_of};

use crate::TrailEvidence;
use cell_num::{Name, NoMemory};
use fewer_log::write_fewer;
use std::alloc::Global;
use trail_log::write_trails;

/// The text of a certificate for the cell of that name, which has 1 to 32 bytes and no line feed. Reading it gives
/// the same certificate, for all kinds that it fits.
pub fn write_either(
    alloc: Global,
    name: &Name,
    evidence: &TrailEvidence,
) -> Result<Vec<u8>, NoMemory>
    requires name { IsLogName name.now }
    requires fits { ForSome (λ k. EitherFits k evidence.now) }
    ensures text { IfOk result (λ bytes. bytes.items ≡ either_text name.now evidence.now) }
    ensures reads { IfOk result (λ bytes. (k : KindsOf) → AreSomeKinds k → EitherFits k evidence.now →
        either_of bytes.items name.now k ≡ Ok evidence.now) }
{
    match evidence {
        TrailEvidence::Filled(trails) => write_trails(alloc, name, trails),
        TrailEvidence::Pools(certificate) => write_fewer(alloc, name, certificate),
    }
}
