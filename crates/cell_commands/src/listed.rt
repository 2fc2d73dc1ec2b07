ghost use Rattle.std.specs.Prelude.{◌≡◌, [], IfOk, MatchOption};
ghost use Rattle.log_check.specs.Accepted.{columns_listed};

use bound_log::Best;
use cell_num::NoMemory;
use log_check::arrangement;
use row_model::Arrangement;
use row_state::Kinds;
use std::alloc::Global;

/// The columns of a listed row, by the kinds of its fingers; none where no row is listed.
pub(crate) fn listed_row(
    alloc: Global,
    kinds: &Kinds,
    listed: &Option<Best>,
) -> Result<Arrangement, NoMemory>
    ensures { IfOk result (λ row. MatchOption listed.now (row ≡ [])
        (λ best. row ≡ columns_listed kinds.now best.steps)) }
{
    match listed {
        Some(best) => arrangement(alloc, kinds, best.steps.as_slice()),
        None => Ok(Arrangement::new(alloc)),
    }
}
