// Classes of numbers that links chain: the ends of each link come into one tree.
ghost use Rattle.std.specs.Prelude.{◌≡◌, length, IfOk};
ghost use Rattle.std.specs.List.{All, range_with_len};
ghost use Rattle.number_trees.specs.Classes.{AreTrees};
ghost use Rattle.number_trees.specs.Links.{IsLink, Tied, Separates};

use crate::tree::{join, lone_trees, raise_all};
use cell_num::NoMemory;
use std::alloc::Global;

/// Two things, by number, that belong together.
#[derive(Clone, Copy, Debug)]
pub struct Link {
    pub one: usize,
    pub other: usize,
}

fn join_links(parents: &mut Vec<usize>, count: usize, links: &[Link])
    requires first { parents.old.items ≡ range_with_len 0 count }
    requires links { All (IsLink count) links.now }
    ensures { AreTrees count (Tied links.now) parents.new.items }
{
    for link in links {
        join(parents, link.one, link.other);
    }
}

/// A label for each number below the count: two labels are equal exactly where links chain the numbers.
pub fn classes(alloc: Global, count: usize, links: &[Link]) -> Result<Vec<usize>, NoMemory>
    requires { All (IsLink count) links.now }
    ensures length { IfOk result (λ labels. length labels.items ≡ count) }
    ensures same { IfOk result (λ labels. Separates count links.now labels.items) }
{
    let mut labels = lone_trees(alloc, count)?;
    join_links(&mut labels, count, links);
    raise_all(&mut labels);
    Ok(labels)
}
