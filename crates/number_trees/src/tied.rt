// Numbers that have one tie come into one tree.
ghost use Rattle.std.specs.Prelude.{◌≡◌, ◌<◌, ◌≤◌, ℕ, length, get_or, IfSome, None};
ghost use Rattle.number_trees.specs.Classes.{AreLow, AreTrees};
ghost use Rattle.number_trees.specs.Ties.{HaveOneTie, InTreeOrTied, is_one_tie};

use crate::tree::join;

fn is_one_tie(ties: &[Option<u64>], one: usize, other: usize) -> bool
    requires one { one < length ties.now }
    requires other { other < length ties.now }
    ensures { result ≡ is_one_tie (get_or ties.now one None) (get_or ties.now other None) }
{
    match (ties[one], ties[other]) {
        (Some(a), Some(b)) => a == b,
        _ => false,
    }
}

// An earlier number of the same tie.
fn tied_before(ties: &[Option<u64>], at: usize) -> Option<usize>
    requires { at < length ties.now }
    ensures earlier { IfSome result (λ k. k < at) }
    ensures tied { IfSome result (λ k. HaveOneTie ties.now at k) }
    ensures none { result ≡ None → (k : ℕ) → k < at → HaveOneTie ties.now at k → ⊥ }
{
    for earlier in 0..at {
        if is_one_tie(ties, at, earlier) {
            return Some(earlier);
        }
    }
    None
}

/// Joins the trees of numbers that have one tie. `ties` has the tie of each number, where it has one, for no more
/// numbers than have parents, and no parent may be above its number. Afterwards those numbers stand in one tree that
/// the former trees and the ties chain.
pub fn join_tied(parents: &mut Vec<usize>, ties: &[Option<u64>])
    requires low { AreLow parents.old.items }
    requires few { length ties.now ≤ length parents.old.items }
    ensures { AreTrees (length parents.old.items) (InTreeOrTied parents.old.items ties.now) parents.new.items }
{
    for at in 0..ties.len() {
        match tied_before(ties, at) {
            Some(earlier) => join(parents, at, earlier),
            None => {}
        }
    }
}
