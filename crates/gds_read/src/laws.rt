ghost use Rattle.std.specs.Prelude.{◌≡◌, ◌↔◌, ◌≤◌, ℕ, ℤ, List, true, false, Some, Ok, Err};
ghost use Rattle.std.specs.List.{Contains, AllPairs};
ghost use Rattle.gds_record.specs.Records.{IsBytes, Item};
ghost use Rattle.gds_record.specs.Types.{type_numbered};
ghost use Rattle.gds_area.specs.declared.fault.GdsFault.{GdsFault};
ghost use Rattle.gds_read.specs.Grammar.{first_pass_of};
ghost use Rattle.gds_record.specs.declared.types.RecordType.{RecordType};
ghost use Rattle.gds_read.specs.declared.grammar.Place.{Place};
ghost use Rattle.gds_read.specs.declared.grammar.Place.TheVariants.{Start, Ended};
ghost use Rattle.gds_read.specs.Words.{Accepts, IsLibraryWord, types_of};
ghost use Rattle.box_geom.specs.declared.shape.Shapes.{Shapes};
ghost use Rattle.gds_read.specs.Decoding.{Decodes, GdsRefused, IsCell, IsCellFault};
ghost use Rattle.gds_read.specs.Library.{IsLibrary, IsFirstFault};
ghost use Rattle.box_geom.specs.Rectangle.{Rectangle, IsProper, Covers};
ghost use Rattle.gds_area.specs.declared.point.Point.{Point};
ghost use Rattle.gds_area.specs.declared.units.Grid.{Grid};
ghost use Rattle.gds_area.specs.EvenOdd.{IsInside, boundary_rectangles};
ghost use Rattle.gds_area.specs.Units.{floor_units_of};
ghost use Rattle.gds_read.specs.Drawn.{AreWalksOf, IsRunOf, IsBefore, IsFloor};
ghost use Rattle.gds_area.specs.declared.progress.Progress.{Progress};
ghost use Rattle.gds_area.specs.declared.progress.Origin.{Origin};
ghost use Rattle.gds_area.specs.Progress.{no_progress, amount};
ghost use Rattle.gds_read.specs.Index.{draws};
ghost use Rattle.gds_read.specs.Flat.{in_copy};

/// The first pass accepts the bytes of a library, and no others, and else answers the first fault. It
/// does nothing: its contract is the law.
pub fn accepted_libraries()
    ensures found { (bytes : List ℕ) (end : ℕ) → IsBytes bytes → first_pass_of bytes ≡ Ok end → IsLibrary bytes end }
    ensures only { (bytes : List ℕ) (end : ℕ) → IsLibrary bytes end → first_pass_of bytes ≡ Ok end }
    ensures first_fault { (bytes : List ℕ) (f : GdsFault) → IsBytes bytes → first_pass_of bytes ≡ Err f
        → IsFirstFault bytes f }
    ensures only_fault { (bytes : List ℕ) (f : GdsFault) → IsFirstFault bytes f → first_pass_of bytes ≡ Err f }
{}

/// What a library is decoded to is the cell of the name in it, and only that. Else the fault is that of
/// the first record that is not right at its place; in a library it is that no structure has the name,
/// or that two have it; and where one has it, that of its first faulty element. It does nothing: its
/// contract is the law.
pub fn decoded_cells()
    ensures cell { (bytes name : List ℕ) (lambda : ℕ) (shapes : Shapes) → IsBytes bytes
        → Decodes bytes name lambda shapes → IsCell bytes name lambda shapes }
    ensures decoded { (bytes name : List ℕ) (lambda : ℕ) (shapes : Shapes) → IsCell bytes name lambda shapes
        → Decodes bytes name lambda shapes }
    ensures fault { (bytes name : List ℕ) (lambda : ℕ) (f : GdsFault) → IsBytes bytes → GdsRefused bytes name lambda f
        → IsCellFault bytes name lambda f }
    ensures refused { (bytes name : List ℕ) (lambda : ℕ) (f : GdsFault) → IsCellFault bytes name lambda f
        → GdsRefused bytes name lambda f }
{}

/// The table of places accepts the words of the written grammar, and no others; the types of the records
/// of a library are such a word. From each place some records lead to the end, so a record is refused where
/// no library goes on with it, and not later. It does nothing: its contract is the law.
pub fn written_grammar()
    ensures written { (word : List RecordType) → Accepts Start word Ended → IsLibraryWord word }
    ensures accepted { (word : List RecordType) → IsLibraryWord word → Accepts Start word Ended }
    ensures libraries { (bytes : List ℕ) (end : ℕ) (l : IsLibrary bytes end) → IsLibraryWord (types_of l.records) }
    ensures no_dead_end { (place : Place) → (rest : List RecordType) × Accepts place rest Ended }
{}

/// Each of the eight walks round a rectangle, left open or taken round, is that rectangle. The cells of a
/// boundary are those from which a line to the left crosses an odd number of its sides; each of its
/// rectangles is a run of them between neighbouring heights of its points, in order. A label is at
/// the greatest whole number of grid units that is not above its point. It does nothing: its contract is
/// the law.
pub fn drawn_elements()
    ensures walks { (r : Rectangle) → IsProper r → AreWalksOf r }
    ensures cells { (points : List Point) (x y : ℤ) → Covers (boundary_rectangles points) x y ↔ IsInside points x y }
    ensures runs { (points : List Point) (r : Rectangle) → Contains (boundary_rectangles points) r → IsRunOf points r }
    ensures order { (points : List Point) → AllPairs IsBefore (boundary_rectangles points) }
    ensures label { (grid : Grid) (value units : ℤ) → 1 ≤ grid.lambda_nm → floor_units_of grid value ≡ Some units
        → IsFloor grid value units }
{}

/// What is not listed of a structure draws nothing in any copy of it, and has no fault there. Each visit in a copy
/// to what is listed takes a rectangle or a reference at least, or ends with a fault, so there are at most 1,000,000
/// such visits and that one. It does nothing: its contract is the law.
pub fn visited_elements()
    ensures passed { (bytes : List ℕ) (grid : Grid) (levels : ℕ) (origin : Origin) (count : ℕ) (r : Item)
        (rs : List Item) → count ≤ 1000000 → draws false (type_numbered r.code) rs ≡ false
        → in_copy bytes grid levels origin count r rs ≡ Ok no_progress }
    ensures counted { (bytes : List ℕ) (grid : Grid) (levels : ℕ) (origin : Origin) (count : ℕ) (r : Item)
        (rs : List Item) (one : Progress) → draws false (type_numbered r.code) rs ≡ true
        → in_copy bytes grid levels origin count r rs ≡ Ok one → 1 ≤ amount one }
{}
