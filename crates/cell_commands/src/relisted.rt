ghost use Rattle.std.specs.Prelude.{◌≡◌, IfOk};
ghost use Rattle.row_model.specs.Arrangement.{IsArrangement};
ghost use Rattle.cell_commands.specs.Low.{IsLowCertifiedBy};
ghost use Rattle.cell_commands.specs.Relisted.{IsFoundFor, ListsInstead, kind_of, listing};

use crate::best::list_best;
use crate::certificate::Certificate;
use bound_log::Best;
use cell_inputs::Inputs;
use cell_num::NoMemory;
use row_model::{Arrangement, gaps};
use row_state::kinds;
use std::alloc::Global;

// The same with this row in place of the one that it lists.
fn listing(certificate: Certificate, best: Best) -> Certificate
    ensures { result ≡ listing certificate best }
{
    match certificate {
        Certificate::Log(log) => Certificate::Log(log.listing(best)),
        Certificate::Trails(trails) => Certificate::Trails(trails.listing(best)),
    }
}

// The same certificate, with this row of the inputs' fingers in place of the one that it lists.
fn relisted(
    alloc: Global,
    inputs: &Inputs,
    row: &Arrangement,
    certificate: Certificate,
) -> Result<Certificate, NoMemory>
    requires arranged { IsArrangement row.now inputs.now.fingers }
    ensures { IfOk result (ListsInstead inputs.now row.now certificate) }
{
    inputs.show_limits();
    let kinds = kinds(alloc, &inputs.fingers)?;
    let best = list_best(alloc, &kinds, row)?;
    Ok(listing(certificate, best))
}

/// The certificate that was found for the first least row, as evidence beside this row. It lists this row where that
/// has as few gaps. It says nothing of a row with more gaps, so it is left as it is beside one.
pub(crate) fn beside(
    alloc: Global,
    inputs: &Inputs,
    least: &Arrangement,
    row: &Arrangement,
    certificate: Certificate,
) -> Result<Certificate, NoMemory>
    requires found { IsFoundFor inputs.now least.now certificate }
    requires arranged { IsArrangement row.now inputs.now.fingers }
    ensures { IfOk result (IsLowCertifiedBy (kind_of certificate) inputs.now row.now) }
{
    inputs.show_limits();
    if gaps(row) == gaps(least) {
        relisted(alloc, inputs, row, certificate)
    } else {
        Ok(certificate)
    }
}
