// Laws on nets that hold for every drawing. The calls do nothing: their contracts are the laws.
ghost use Rattle.std.specs.Prelude.{◌≡◌, ◌↔◌, ℕ, List};
ghost use Rattle.box_geom.specs.Rectangle.{Rectangle};
ghost use Rattle.box_geom.specs.Chains.{Chain};
ghost use Rattle.box_geom.specs.declared.shape.Shape.{Shape};
ghost use Rattle.box_geom.specs.declared.shape.Shapes.{Shapes};
ghost use Rattle.scmos_rules.specs.declared.rules.Deck.{Deck};
ghost use Rattle.scmos_rules.specs.declared.rules.Deck.TheVariants.{Taps};
ghost use Rattle.net_extract.specs.declared.fault.ExtractFault.{ExtractFault};
ghost use Rattle.net_extract.specs.declared.fault.ExtractFault.TheVariants.{NoMemory};
ghost use Rattle.net_extract.specs.declared.netlist.Netlist.{Netlist};
ghost use Rattle.net_extract.specs.declared.netlist.BodyNetlist.{BodyNetlist};
ghost use Rattle.net_extract.specs.Bodies.{ExtractsBodies};
ghost use Rattle.net_extract.specs.Extraction.{Extracts, ExtractRefused};
ghost use Rattle.net_extract.specs.Nets.{Site, SameNet};
ghost use Rattle.net_extract.specs.declared.piece.Conductor.{Conductor};
ghost use Rattle.net_extract.specs.Numbering.{AreNets, IsInNet};
ghost use Rattle.net_extract.specs.Bonds.{AreDrawn, Bonded, IsPieceOf, IsIn};
ghost use Rattle.net_extract.specs.declared.piece.Piece.{Piece};

/// Where the conductor cells of each kind are the cells of a list of rectangles, two cells are in one net
/// exactly where rectangles that hold them are joined by a chain in which neighbours are of one kind and
/// touch, or have a cell in common that a contact or a via links, or hold taps that a deck ties.
pub fn rectangle_nets()
    ensures { (deck : Deck) (s : List Shape) (rs : Conductor → List Rectangle) (p q : Piece) (a b : Site) →
        AreDrawn s rs → IsPieceOf rs p → IsPieceOf rs q → IsIn p a → IsIn q b →
        SameNet deck s a b ↔ Chain (Bonded deck s rs) p q }
{}

/// The nets of a drawing have one numbering, and a conductor cell has one net.
pub fn one_numbering()
    ensures list { (deck : Deck) (s : List Shape) (firsts others : List Site) → AreNets deck s firsts →
        AreNets deck s others → firsts ≡ others }
    ensures cell { (deck : Deck) (s : List Shape) (firsts : List Site) (m n : ℕ) (a : Site) →
        AreNets deck s firsts → IsInNet deck s firsts m a → IsInNet deck s firsts n a → m ≡ n }
{}

/// A drawing has one netlist, and where it has one it is refused only where memory runs out.
pub fn one_netlist()
    ensures same { (deck : Deck) (shapes : Shapes) (n m : Netlist) → Extracts deck shapes n →
        Extracts deck shapes m → n ≡ m }
    ensures refused { (deck : Deck) (shapes : Shapes) (n : Netlist) (f : ExtractFault) → Extracts deck shapes n →
        ExtractRefused deck shapes f → f ≡ NoMemory }
{}

/// A drawing with taps has one netlist with bodies, and where it has one it is refused only where memory
/// runs out.
pub fn one_body_netlist()
    ensures same { (shapes : Shapes) (b c : BodyNetlist) → ExtractsBodies shapes b → ExtractsBodies shapes c → b ≡ c }
    ensures refused { (shapes : Shapes) (b : BodyNetlist) (f : ExtractFault) → ExtractsBodies shapes b →
        ExtractRefused Taps shapes f → f ≡ NoMemory }
{}
