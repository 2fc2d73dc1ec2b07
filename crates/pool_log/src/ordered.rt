ghost use Rattle.std.specs.Prelude.{◌≡◌, ◌≤◌, IfOk};
ghost use Rattle.std.specs.List.{list_all};
ghost use Rattle.pool_log.specs.declared.class.PlaceClass.{PlaceClass as ClassOf};
ghost use Rattle.pool_log.specs.Line.{classes_in};
ghost use Rattle.pool_log.specs.Order.{classes_in_order, place_rank};
ghost use Rattle.trail_log.specs.Order.{increases};

use crate::{ClassList, PlaceClass};
use cell_num::{MOST_NETS, NoMemory};
use order_log::{increases, read_list};
use std::alloc::Global;

fn each_in_order(classes: &[PlaceClass]) -> bool
    ensures { result ≡ list_all (λ (class : ClassOf). increases place_rank class.places) classes.now }
{
    classes
        .iter()
        .all(|class| increases(class.places.as_slice()))
}

fn are_in_order(classes: &[PlaceClass]) -> bool
    ensures { result ≡ classes_in_order classes.now }
{
    each_in_order(classes) && increases(classes)
}

/// Classes in order, the places of each one too.
pub(crate) fn read_classes(
    alloc: Global,
    nets: u32,
    word: &[u8],
) -> Result<Option<ClassList>, NoMemory>
    requires { nets ≤ MOST_NETS }
    ensures { IfOk result (λ classes. classes ≡ classes_in nets word.now) }
{
    let Some(classes): Option<ClassList> = read_list(alloc, nets, word)? else {
        return Ok(None);
    };
    if are_in_order(classes.as_slice()) {
        Ok(Some(classes))
    } else {
        Ok(None)
    }
}
