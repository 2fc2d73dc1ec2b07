// Pieces that contacts and vias link come into one tree. Each contact or via is looked at by itself, with the pieces
// that it reaches.
ghost use Rattle.std.specs.Prelude.{◌≡◌, ◌<◌, ◌≤◌, [], length, get_or, int_le, IsSorted, IsTrue};
ghost use Rattle.scmos_rules.specs.declared.rules.Deck.TheVariants.{Plain};
ghost use Rattle.net_extract.specs.Bonds.{Paired};
ghost use Rattle.number_trees.specs.Classes.{InTree, AreLow, AreTrees, AreTried, IsTried};
ghost use Rattle.net_extract.specs.Connections.{blank};
ghost use Rattle.net_extract.specs.Links.{AreLinked, InTreeOrLinked, AreInOneTree, AreUnder};
ghost use Rattle.net_extract.specs.Meetings.{is_reached};
ghost use Rattle.net_extract.specs.Pieces.{piece_cmp};

use crate::bond::{are_linked, does_reach};
use crate::piece::Piece;
use box_geom::Shape;
use number_trees::{join, root};

fn is_above(piece: &Piece, link: &Shape) -> bool
    ensures { result ≡ int_le link.now.rect.y2 piece.now.low }
{
    link.rect.y2 <= piece.low
}

fn try_link(parents: &mut Vec<usize>, link: &Shape, pieces: &[Piece], at: usize, later: usize)
    requires low { AreLow parents.old.items }
    requires count { length parents.old.items ≡ length pieces.now }
    requires at { at < length pieces.now }
    requires later { later < length pieces.now }
    ensures { IsTried (length pieces.now) (InTreeOrLinked parents.old.items link.now pieces.now)
        (AreLinked link.now pieces.now) at later parents.old.items parents.new.items }
{
    if are_linked(link, &pieces[at], &pieces[later]) {
        join(parents, at, later);
    }
}

fn link_behind(parents: &mut Vec<usize>, link: &Shape, pieces: &[Piece], at: usize)
    requires low { AreLow parents.old.items }
    requires count { length parents.old.items ≡ length pieces.now }
    requires sorted { IsSorted piece_cmp pieces.now }
    requires at { at < length pieces.now }
    ensures { AreTried (length pieces.now) (InTreeOrLinked parents.old.items link.now pieces.now)
        (AreLinked link.now pieces.now) at (length pieces.now) parents.old.items parents.new.items }
{
    for later in at + 1..pieces.len() {
        if is_above(&pieces[later], link) {
            return;
        }
        try_link(parents, link, pieces, at, later);
    }
}

// Joins a piece with those after it that a contact or a via links with it.
fn link_later(parents: &mut Vec<usize>, link: &Shape, pieces: &[Piece], at: usize)
    requires low { AreLow parents.old.items }
    requires count { length parents.old.items ≡ length pieces.now }
    requires sorted { IsSorted piece_cmp pieces.now }
    requires at { at < length pieces.now }
    ensures { AreTried (length pieces.now) (InTreeOrLinked parents.old.items link.now pieces.now)
        (AreLinked link.now pieces.now) at (length pieces.now) parents.old.items parents.new.items }
{
    if does_reach(link, &pieces[at]) {
        link_behind(parents, link, pieces, at);
    }
}

fn link_all(parents: &mut Vec<usize>, link: &Shape, pieces: &[Piece])
    requires low { AreLow parents.old.items }
    requires count { length parents.old.items ≡ length pieces.now }
    requires sorted { IsSorted piece_cmp pieces.now }
    ensures { AreTrees (length pieces.now) (InTreeOrLinked parents.old.items link.now pieces.now) parents.new.items }
{
    for at in 0..pieces.len() {
        if is_above(&pieces[at], link) {
            return;
        }
        link_later(parents, link, pieces, at);
    }
}

// Whether a piece is under a root, or is not reached.
fn is_under(parents: &[usize], link: &Shape, pieces: &[Piece], at: usize, first: usize) -> bool
    requires low { AreLow parents.now }
    requires count { length parents.now ≡ length pieces.now }
    requires at { at < length pieces.now }
    ensures { IsTrue result → IsTrue (is_reached link.now (get_or pieces.now at blank)) → InTree parents.now at first }
{
    if does_reach(link, &pieces[at]) {
        return root(parents, at) == first;
    }
    true
}

// Whether all pieces from a number on that a contact or a via reaches are under a root.
fn are_under(parents: &[usize], link: &Shape, pieces: &[Piece], from: usize, first: usize) -> bool
    requires low { AreLow parents.now }
    requires count { length parents.now ≡ length pieces.now }
    requires sorted { IsSorted piece_cmp pieces.now }
    requires from { from ≤ length pieces.now }
    ensures { IsTrue result → AreUnder parents.now link.now pieces.now from (length pieces.now) first }
{
    for at in from..pieces.len() {
        if is_above(&pieces[at], link) {
            return true;
        }
        if !is_under(parents, link, pieces, at, first) {
            return false;
        }
    }
    true
}

// Whether the pieces that a contact or a via reaches are in one tree already.
fn are_in_one_tree(parents: &[usize], link: &Shape, pieces: &[Piece]) -> bool
    requires low { AreLow parents.now }
    requires count { length parents.now ≡ length pieces.now }
    requires sorted { IsSorted piece_cmp pieces.now }
    ensures { IsTrue result → AreInOneTree parents.now link.now pieces.now }
{
    for at in 0..pieces.len() {
        if does_reach(link, &pieces[at]) {
            return are_under(parents, link, pieces, at, root(parents, at));
        }
    }
    true
}

fn link_pieces(parents: &mut Vec<usize>, link: &Shape, pieces: &[Piece])
    requires low { AreLow parents.old.items }
    requires count { length parents.old.items ≡ length pieces.now }
    requires sorted { IsSorted piece_cmp pieces.now }
    ensures { AreTrees (length pieces.now) (InTreeOrLinked parents.old.items link.now pieces.now) parents.new.items }
{
    if are_in_one_tree(parents.as_slice(), link, pieces) {
        return;
    }
    link_all(parents, link, pieces);
}

/// Joins the trees of pieces that contacts and vias link, where pieces of one kind that touch are in one tree.
pub(crate) fn join_linked(parents: &mut Vec<usize>, links: &[Shape], pieces: &[Piece])
    requires touching { AreTrees (length pieces.now) (Paired Plain [] pieces.now) parents.old.items }
    requires sorted { IsSorted piece_cmp pieces.now }
    ensures { AreTrees (length pieces.now) (Paired Plain links.now pieces.now) parents.new.items }
{
    for link in links {
        link_pieces(parents, link, pieces);
    }
}
