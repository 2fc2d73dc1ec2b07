ghost use Rattle.std.specs.Prelude.{◌≡◌, ◌≢◌, ◌↔◌, ◌++◌, ℕ, IfSome, IfNone, IsTrue, List as Sequence, codes};
ghost use Rattle.row_state.specs.Versions.{IsVersion};
ghost use Rattle.bound_log.specs.Line.{version_in};

use log_lines::number_below;
use row_state::{COMPONENT_LOG, PARITY_LOG};

fn behind_log(line: &[u8]) -> Option<&[u8]>
    ensures some { IfSome result (λ rest. line.now ≡ codes "cellgen-log " ++ rest.now) }
    ensures none { IfNone result ((rest : Sequence ℕ) → line.now ≢ codes "cellgen-log " ++ rest) }
{
    line.strip_prefix(b"cellgen-log ")
}

fn is_version(version: u32) -> bool
    ensures { IsTrue result ↔ IsVersion version }
{
    version == PARITY_LOG || version == COMPONENT_LOG
}

/// The version of the log of which this is the first line.
#[tactic(auto, using(crate::proofs::Rules::version_rules))]
pub(crate) fn version(line: &[u8]) -> Option<u32>
    ensures { result ≡ version_in line.now }
{
    let Some(rest) = behind_log(line) else {
        return None;
    };
    let Some(version) = number_below(rest, COMPONENT_LOG + 1) else {
        return None;
    };
    if is_version(version) {
        Some(version)
    } else {
        None
    }
}
