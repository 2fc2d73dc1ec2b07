// Trees of numbers, as a list of parents. Numbers are joined by their roots: the greater root hangs on the smaller
// one, so the root of a tree is its least number.
ghost use Rattle.std.specs.Prelude.{◌≡◌, ◌<◌, ◌≤◌, length, get_or, IfOk};
ghost use Rattle.std.specs.List.{range_with_len};
ghost use Rattle.number_trees.specs.Classes.{AreLow, IsRoot, hung, raised, IsJoined, AreRoots};

use cell_num::NoMemory;
use std::alloc::Global;

/// The numbers below `count`, each in a tree of its own: each is its own parent.
pub fn lone_trees(alloc: Global, count: usize) -> Result<Vec<usize>, NoMemory>
    ensures { IfOk result (λ parents. parents.items ≡ range_with_len 0 count) }
{
    let mut parents = Vec::new(alloc);
    for number in 0..count {
        parents.push(number).map_err(|_| NoMemory)?;
    }
    Ok(parents)
}

/// The root of the tree of a number, which is not above it. No parent may be above its number.
pub fn root(parents: &[usize], of: usize) -> usize
    requires of { of < length parents.now }
    requires low { AreLow parents.now }
    ensures low { result ≤ of }
    ensures root { IsRoot parents.now of result }
{
    let mut at = of;
    'up: while parents[at] != at {
        at = parents[at];
    }
    at
}

fn hang(parents: &mut Vec<usize>, one: usize, other: usize)
    requires one { one < length parents.old.items }
    requires other { other < length parents.old.items }
    ensures { parents.new.items ≡ hung one other parents.old.items }
{
    parents[one.max(other)] = one.min(other);
}

/// Joins the trees of two numbers: the greater of their roots hangs on the smaller one. No parent may be above its
/// number.
#[tactic(auto, using(crate::proofs::Forests::joined_is))]
pub fn join(parents: &mut Vec<usize>, one: usize, other: usize)
    requires one { one < length parents.old.items }
    requires other { other < length parents.old.items }
    requires low { AreLow parents.old.items }
    ensures { IsJoined one other parents.old.items parents.new.items }
{
    let first = root(parents.as_slice(), one);
    let second = root(parents.as_slice(), other);
    hang(parents, first, second);
}

fn raise(parents: &mut Vec<usize>, at: usize)
    requires at { at < length parents.old.items }
    requires up { get_or parents.old.items at 0 < length parents.old.items }
    ensures { parents.new.items ≡ raised at parents.old.items }
{
    let up = parents[at];
    parents[at] = parents[up];
}

/// Puts the root in place of each parent, none of which may be above its number. What stands for a number then is the
/// least one of its tree.
pub fn raise_all(parents: &mut Vec<usize>)
    requires { AreLow parents.old.items }
    ensures { AreRoots parents.old.items parents.new.items }
{
    for at in 0..parents.len() {
        raise(parents, at);
    }
}
