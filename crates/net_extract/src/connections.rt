// The nets of a drawing: every piece of conductor with the number of its net.
ghost use Rattle.std.specs.Prelude.{◌≡◌, ◌<◌, ◌≤◌, ◌++◌, ◌∷◌, [], ◌+◌, All};
ghost use Rattle.std.specs.Prelude.{IsPermutation, IsSorted, length, get_or, IfOk, OnOk};
ghost use Rattle.scmos_rules.specs.declared.rules.Deck.TheVariants.{Plain, Taps};
ghost use Rattle.number_trees.specs.Classes.{AreHeads, AreLeast};
ghost use Rattle.box_geom.specs.Rectangle.{IsProper, IsRectangle};
ghost use Rattle.net_extract.specs.Corners.{HaveFewSides, HaveFewCorners};
ghost use Rattle.net_extract.specs.Connections.{AreNumbered, AreWires, nets_of, heads_below};
ghost use Rattle.net_extract.specs.GateNets.{AreWells};
ghost use Rattle.net_extract.specs.Bonds.{AreDrawn, Paired};
ghost use Rattle.net_extract.specs.Pieces.{rect_of, rects_in, piece_cmp};
ghost use Rattle.net_extract.specs.Ties.{AreTies};

use crate::class::least_labels;
use crate::conductor::{all_links, all_pieces};
use crate::piece::Piece;
use crate::tie::ties_of;
use box_geom::Shape;
use cell_num::NoMemory;
use scmos_rules::Deck;
use std::alloc::Global;

/// A piece of conductor and the number of its net.
#[derive(Clone, Copy, Debug)]
pub struct Wire {
    pub piece: Piece,
    pub net: u32,
}

/// The nets of a drawing by the bonds of a deck: each piece with the number of its net, and by number
/// the first piece of each net.
#[derive(Debug, Drop)]
pub struct Connections {
    pub deck: Deck,
    pub wires: Vec<Wire>,
    pub firsts: Vec<Piece>,
}

// A drawing of 10,000 rectangles has 20,000 sides across and as many upward, and the first cell of a net lies at one
// of each: there are fewer nets than 32 bits can count.
pub(crate) fn count_of(firsts: &[Piece]) -> u32
    requires { length firsts.now ≤ 2000000000 }
    ensures { result ≡ length firsts.now }
{
    firsts.len() as u32
}

// The number of a piece: a new one where it is the first of its class.
fn number_of(
    firsts: &mut Vec<Piece>,
    wires: &[Wire],
    piece: Piece,
    label: usize,
) -> Result<u32, NoMemory>
    requires label { label ≤ length wires.now }
    requires few { length firsts.old.items ≤ 2000000000 }
    ensures first { IfOk result (λ n. label ≡ length wires.now → firsts.new.items ≡ firsts.old.items ++ piece ∷ []) }
    ensures new { IfOk result (λ n. label ≡ length wires.now → n ≡ length firsts.old.items) }
    ensures later { IfOk result (λ n. label < length wires.now → firsts.new.items ≡ firsts.old.items) }
    ensures old { IfOk result (λ n. label < length wires.now → n ≡ get_or (nets_of wires.now) label 0) }
{
    if label < wires.len() {
        return Ok(wires[label].net);
    }
    let number = count_of(firsts.as_slice());
    firsts.push(piece).map_err(|_| NoMemory)?;
    Ok(number)
}

fn add_wire(wires: &mut Vec<Wire>, piece: Piece, net: u32) -> Result<(), NoMemory>
    ensures { OnOk result (wires.new.items ≡ wires.old.items ++ record { piece = piece; net = net } ∷ []) }
{
    wires.push(Wire { piece, net }).map_err(|_| NoMemory)
}

fn number_piece(
    wires: &mut Vec<Wire>,
    firsts: &mut Vec<Piece>,
    pieces: &[Piece],
    labels: &[usize],
    at: usize,
) -> Result<(), NoMemory>
    requires at { at < length pieces.now }
    requires labels { AreHeads (length pieces.now) labels.now }
    requires before { AreNumbered pieces.now labels.now at wires.old.items firsts.old.items }
    requires few { length (heads_below pieces.now labels.now (length pieces.now)) ≤ 2000000000 }
    ensures { OnOk result (AreNumbered pieces.now labels.now (at + 1) wires.new.items firsts.new.items) }
{
    let net = number_of(firsts, wires.as_slice(), pieces[at], labels[at])?;
    add_wire(wires, pieces[at], net)
}

// Numbers for all pieces, by their labels.
fn number_all(
    alloc: Global,
    deck: Deck,
    pieces: &[Piece],
    labels: &[usize],
) -> Result<Connections, NoMemory>
    requires labels { AreHeads (length pieces.now) labels.now }
    requires few { length (heads_below pieces.now labels.now (length pieces.now)) ≤ 2000000000 }
    ensures deck { IfOk result (λ m. m.deck ≡ deck) }
    ensures numbered { IfOk result (λ m. AreNumbered pieces.now labels.now (length pieces.now) m.wires.items
        m.firsts.items) }
{
    let mut wires = Vec::new(alloc);
    let mut firsts = Vec::new(alloc);
    for at in 0..pieces.len() {
        number_piece(&mut wires, &mut firsts, pieces, labels, at)?;
    }
    Ok(Connections {
        deck,
        wires,
        firsts,
    })
}

fn sorted(mut pieces: Vec<Piece>) -> Vec<Piece>
    ensures moved { IsPermutation pieces.items result.items }
    ensures sorted { IsSorted piece_cmp result.items }
{
    pieces.sort_unstable();
    pieces
}

#[tactic(auto, using(crate::proofs::Netting::piece_rules))]
fn ordered_pieces(alloc: Global, shapes: &[Shape]) -> Result<Vec<Piece>, NoMemory>
    requires proper { All (λ s. IsProper s.rect) shapes.now }
    requires few { HaveFewSides shapes.now }
    ensures drawn { IfOk result (λ ps. AreDrawn shapes.now (rects_in ps.items)) }
    ensures sorted { IfOk result (λ ps. IsSorted piece_cmp ps.items) }
    ensures few { IfOk result (λ ps. HaveFewCorners ps.items) }
{
    let pieces = all_pieces(alloc, shapes)?;
    Ok(sorted(pieces.into_vec()))
}

// For each piece the number of the first one of its net.
fn net_labels(
    alloc: Global,
    deck: Deck,
    shapes: &[Shape],
    pieces: &[Piece],
    ties: &[Option<u64>],
) -> Result<Vec<usize>, NoMemory>
    requires proper { All (λ p. IsProper (rect_of p)) pieces.now }
    requires sorted { IsSorted piece_cmp pieces.now }
    requires ties { AreTies deck shapes.now pieces.now ties.now }
    requires few { length ties.now ≤ length pieces.now }
    ensures { IfOk result (λ labels. AreLeast (length pieces.now) (Paired deck shapes.now pieces.now) labels.items) }
{
    let links = all_links(alloc, shapes)?;
    least_labels(alloc, links.as_slice(), pieces, ties)
}

// The nets of pieces, with the ties that the deck knows.
fn connect(
    alloc: Global,
    deck: Deck,
    shapes: &[Shape],
    pieces: &[Piece],
    ties: &[Option<u64>],
) -> Result<Connections, NoMemory>
    requires drawn { AreDrawn shapes.now (rects_in pieces.now) }
    requires sorted { IsSorted piece_cmp pieces.now }
    requires corners { HaveFewCorners pieces.now }
    requires ties { AreTies deck shapes.now pieces.now ties.now }
    requires few { length ties.now ≤ length pieces.now }
    ensures deck { IfOk result (λ m. m.deck ≡ deck) }
    ensures wires { IfOk result (λ m. AreWires deck shapes.now m.wires.items m.firsts.items) }
    ensures few { IfOk result (λ m. length m.firsts.items ≤ 2000000000) }
{
    let labels = net_labels(alloc, deck, shapes, pieces, ties)?;
    number_all(alloc, deck, pieces, labels.as_slice())
}

/// The nets of a drawing without ties: pieces in the order of their first cells, with the numbers of their nets.
pub(crate) fn connections_of(alloc: Global, shapes: &[Shape]) -> Result<Connections, NoMemory>
    requires proper { All (λ s. IsProper s.rect) shapes.now }
    requires few { HaveFewSides shapes.now }
    ensures deck { IfOk result (λ m. m.deck ≡ Plain) }
    ensures wires { IfOk result (λ m. AreWires Plain shapes.now m.wires.items m.firsts.items) }
    ensures few { IfOk result (λ m. length m.firsts.items ≤ 2000000000) }
{
    let pieces = ordered_pieces(alloc, shapes)?;
    let ties = Vec::new(alloc);
    connect(
        alloc,
        Deck::Plain,
        shapes,
        pieces.as_slice(),
        ties.as_slice(),
    )
}

/// The nets of a drawing with taps, whose well cells are given.
pub(crate) fn tapped_connections(
    alloc: Global,
    shapes: &[Shape],
    wells: &[Wire],
) -> Result<Connections, NoMemory>
    requires limits { All (λ s. IsRectangle s.rect) shapes.now }
    requires few { HaveFewSides shapes.now }
    requires wells { AreWells Taps shapes.now wells.now }
    ensures deck { IfOk result (λ m. m.deck ≡ Taps) }
    ensures wires { IfOk result (λ m. AreWires Taps shapes.now m.wires.items m.firsts.items) }
    ensures few { IfOk result (λ m. length m.firsts.items ≤ 2000000000) }
{
    let pieces = ordered_pieces(alloc, shapes)?;
    let ties = ties_of(alloc, shapes, wells, pieces.as_slice())?;
    connect(
        alloc,
        Deck::Taps,
        shapes,
        pieces.as_slice(),
        ties.as_slice(),
    )
}
