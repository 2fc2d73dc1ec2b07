// Laws on abstracts: their texts, and what they are of drawn cells. The calls do nothing: their contracts are the laws.
ghost use Rattle.std.specs.Prelude.{◌≡◌, ◌+◌, ◌*◌, ◌≤◌, ℕ, All, IsTrue, List, Ok, length};
ghost use Rattle.cell_num.specs.Names.{is_cell};
ghost use Rattle.spice_net.specs.Subckts.{AreNames};
ghost use Rattle.spice_net.specs.declared.subckt.Subckt.{Subckt};
ghost use Rattle.cell_draw.specs.declared.drawing.Drawing.{Drawing};
ghost use Rattle.cell_draw.specs.declared.layout.Frame.{Frame};
ghost use Rattle.well_tap.specs.Base.{IsBase};
ghost use Rattle.well_tap.specs.Tapped.{tapped};
ghost use Rattle.lef_write.specs.Drawn.{AreAllMetal};
ghost use Rattle.lef_write.specs.Lef.{library_text};
ghost use Rattle.lef_write.specs.declared.port.Port.{Port};
ghost use Rattle.lef_read.specs.Macros.{macro_in};
ghost use Rattle.file_laws.specs.Abstracts.{HasPorts, IsAbstractOf, IsLowDrawing};
ghost use Rattle.file_laws.specs.Drawn.{macro_drawn, IsReadable};

/// The abstract of a cell with these ports is read as one macro of the cell's name: its pins are the cell's, each with
/// the shapes at its ports, and all other metal of the drawing obstructs.
#[tactic(auto, using(crate::proofs::ReadBack::reads_back))]
pub fn reads_back()
    ensures { (cell : Subckt) (ports : List Port) (drawing : Drawing) (unit : ℕ) → IsReadable cell drawing unit →
        macro_in (library_text cell ports drawing unit) cell.name unit ≡ Ok (macro_drawn cell ports drawing) }
{}

/// How many bytes such an abstract takes at most: 65 a rectangle of the drawing, 220 a pin, and 322 besides. It does
/// nothing: its contract is the law.
#[tactic(auto, using(crate::proofs::Short::abstract_few))]
pub fn abstract_lengths()
    ensures few { (cell : Subckt) (ports : List Port) (drawing : Drawing) (unit : ℕ) → IsReadable cell drawing unit
        → length cell.name ≤ 32 → All (λ (name : List ℕ). length name ≤ 64) cell.nets
        → AreAllMetal ports drawing.shapes.rects
        → length (library_text cell ports drawing unit)
        ≤ 322 + 220 * cell.pins.pins + 65 * length drawing.shapes.rects }
{}

/// The abstract of a drawing in its frame can be read back: its names are words, and no length is beyond
/// 1,000,000 microns. It does nothing: its contract is the law.
pub fn readable_drawings()
    ensures { (cell : Subckt) (f : Frame) (xs : List ℕ) (d : Drawing) (unit : ℕ)
        → IsTrue (is_cell cell.name) → AreNames cell.nets → cell.pins.pins ≤ length cell.nets
        → IsLowDrawing f xs d → 1 ≤ unit → unit ≤ 1000 → IsReadable cell d unit }
{}

/// The abstract of a cell with these ports agrees with its drawing, and with that drawing with taps. It does nothing:
/// its contract is the law.
pub fn agreeing_abstracts()
    ensures plain { (cell : Subckt) (ports : List Port) (d : Drawing) (unit : ℕ)
        → HasPorts cell ports d → IsReadable cell d unit
        → IsAbstractOf d.shapes cell.name unit (library_text cell ports d unit) }
    ensures tapped { (cell : Subckt) (ports : List Port) (d : Drawing) (xs : List ℕ) (unit : ℕ)
        → HasPorts cell ports d → IsReadable cell d unit → IsBase xs d
        → IsAbstractOf (tapped xs d).shapes cell.name unit (library_text cell ports d unit) }
{}
