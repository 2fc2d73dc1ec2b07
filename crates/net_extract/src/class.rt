// Classes of pieces: each is labelled by the number of its first piece. Pieces that are bonded come into one tree,
// whose root is its least number: first those of one kind that touch, each tried with those after it up to the first
// that begins above it, then those that a contact or a via links. Last come the ties, which reach over any distance.
ghost use Rattle.std.specs.Prelude.{◌≡◌, ◌<◌, ◌≤◌, [], length, int_lt, IfOk, All, IsSorted};
ghost use Rattle.std.specs.List.{range_with_len};
ghost use Rattle.box_geom.specs.Rectangle.{IsProper};
ghost use Rattle.scmos_rules.specs.declared.rules.Deck.TheVariants.{Plain};
ghost use Rattle.number_trees.specs.Classes.{AreSound, AreTrees, AreLeast, AreTried, IsTried};
ghost use Rattle.net_extract.specs.Pieces.{rect_of, piece_cmp};
ghost use Rattle.net_extract.specs.Bonds.{Paired};
ghost use Rattle.net_extract.specs.Ties.{PairedOrTied};

use crate::bond::are_touching;
use crate::linked::join_linked;
use crate::piece::Piece;
use box_geom::Shape;
use cell_num::NoMemory;
use number_trees::{join, join_tied, lone_trees, raise_all};
use std::alloc::Global;

fn try_join(parents: &mut Vec<usize>, pieces: &[Piece], at: usize, later: usize)
    requires sound { AreSound (length pieces.now) (Paired Plain [] pieces.now) parents.old.items }
    requires proper { All (λ p. IsProper (rect_of p)) pieces.now }
    requires at { at < length pieces.now }
    requires later { later < length pieces.now }
    ensures { IsTried (length pieces.now) (Paired Plain [] pieces.now) (Paired Plain [] pieces.now) at later
        parents.old.items parents.new.items }
{
    if are_touching(&pieces[at], &pieces[later]) {
        join(parents, at, later);
    }
}

fn is_below(piece: &Piece, later: &Piece) -> bool
    ensures { result ≡ int_lt piece.now.top later.now.low }
{
    piece.top < later.low
}

fn join_later(parents: &mut Vec<usize>, pieces: &[Piece], at: usize)
    requires sound { AreSound (length pieces.now) (Paired Plain [] pieces.now) parents.old.items }
    requires proper { All (λ p. IsProper (rect_of p)) pieces.now }
    requires sorted { IsSorted piece_cmp pieces.now }
    requires at { at < length pieces.now }
    ensures { AreTried (length pieces.now) (Paired Plain [] pieces.now) (Paired Plain [] pieces.now) at
        (length pieces.now) parents.old.items parents.new.items }
{
    for later in at + 1..pieces.len() {
        if is_below(&pieces[at], &pieces[later]) {
            return;
        }
        try_join(parents, pieces, at, later);
    }
}

fn join_touching(parents: &mut Vec<usize>, pieces: &[Piece])
    requires first { parents.old.items ≡ range_with_len 0 (length pieces.now) }
    requires proper { All (λ p. IsProper (rect_of p)) pieces.now }
    requires sorted { IsSorted piece_cmp pieces.now }
    ensures { AreTrees (length pieces.now) (Paired Plain [] pieces.now) parents.new.items }
{
    for at in 0..pieces.len() {
        join_later(parents, pieces, at);
    }
}

/// For each piece the number of the first one that bonds and ties chain with it.
pub(crate) fn least_labels(
    alloc: Global,
    links: &[Shape],
    pieces: &[Piece],
    ties: &[Option<u64>],
) -> Result<Vec<usize>, NoMemory>
    requires proper { All (λ p. IsProper (rect_of p)) pieces.now }
    requires sorted { IsSorted piece_cmp pieces.now }
    requires ties { length ties.now ≤ length pieces.now }
    ensures { IfOk result (λ labels. AreLeast (length pieces.now) (PairedOrTied links.now pieces.now ties.now)
        labels.items) }
{
    let mut labels = lone_trees(alloc, pieces.len())?;
    join_touching(&mut labels, pieces);
    join_linked(&mut labels, links, pieces);
    join_tied(&mut labels, ties);
    raise_all(&mut labels);
    Ok(labels)
}
