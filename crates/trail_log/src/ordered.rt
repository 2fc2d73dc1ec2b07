ghost use Rattle.std.specs.Prelude.{◌≡◌, ◌≤◌, IfOk};
ghost use Rattle.std.specs.List.{list_all};
ghost use Rattle.trail_log.specs.declared.class.Class.{Class as ClassOf};
ghost use Rattle.trail_log.specs.Listed.{classes_in, odd_in};
ghost use Rattle.trail_log.specs.Order.{classes_in_order, increases, node_rank};

use crate::listed::{increases, read_list};
use crate::{Class, ClassList, NetPairs};
use cell_num::{MOST_NETS, NoMemory};
use std::alloc::Global;

fn each_in_order(classes: &[Class]) -> bool
    ensures { result ≡ list_all (λ (class : ClassOf). increases node_rank class.nodes) classes.now }
{
    classes
        .iter()
        .all(|class| increases(class.nodes.as_slice()))
}

fn are_in_order(classes: &[Class]) -> bool
    ensures { result ≡ classes_in_order classes.now }
{
    each_in_order(classes) && increases(classes)
}

/// Pairs of nets, each before the next.
pub(crate) fn read_odd(alloc: Global, nets: u32, word: &[u8]) -> Result<Option<NetPairs>, NoMemory>
    requires { nets ≤ MOST_NETS }
    ensures { IfOk result (λ nodes. nodes ≡ odd_in nets word.now) }
{
    let Some(nodes): Option<NetPairs> = read_list(alloc, nets, word)? else {
        return Ok(None);
    };
    if increases(nodes.as_slice()) {
        Ok(Some(nodes))
    } else {
        Ok(None)
    }
}

/// Classes in order, the pairs of each one too.
pub(crate) fn read_classes(
    alloc: Global,
    nets: u32,
    word: &[u8],
) -> Result<Option<ClassList>, NoMemory>
    requires { nets ≤ MOST_NETS }
    ensures { IfOk result (λ classes. classes ≡ classes_in nets word.now) }
{
    let Some(classes): Option<ClassList> = read_list(alloc, nets, word)? else {
        return Ok(None);
    };
    if are_in_order(classes.as_slice()) {
        Ok(Some(classes))
    } else {
        Ok(None)
    }
}
