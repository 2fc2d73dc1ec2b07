ghost use Rattle.std.specs.Prelude.{◌≡◌, ◌+◌, ◌*◌, ◌≤◌, ℕ, List, All, length};
ghost use Rattle.cell_num.specs.declared.net.Pins.{Pins};
ghost use Rattle.box_geom.specs.declared.shape.Shapes.{Shapes};
ghost use Rattle.row_place.specs.declared.placement.Placement.{Placement};
ghost use Rattle.channel_route.specs.declared.routing.Routing.{Routing};
ghost use Rattle.cell_draw.specs.Drawings.{drawn_of};
ghost use Rattle.gds_write.specs.Written.{written, IsWritableName, IsWritableLabel};
ghost use Rattle.file_laws.specs.Size.{label_names, library_bytes};

/// How many bytes a library takes: it depends on the number of its rectangles and on names alone. It does nothing: its
/// contract is the law.
pub fn written_lengths()
    ensures is { (name : List ℕ) (shapes : Shapes) (unit : ℕ)
        → length (written name shapes unit) ≡ library_bytes name (length shapes.rects) (label_names shapes) }
    ensures few { (name : List ℕ) (shapes : Shapes) (unit : ℕ)
        → IsWritableName name → All (IsWritableLabel unit) shapes.labels
        → length (written name shapes unit) ≤ 139 + 64 * length shapes.rects + 101 * length shapes.labels }
{}

/// The drawing of a routed row has as many rectangles and the same names on any lines and in any height, so its library
/// takes as many bytes; and it has at most one label a net. It does nothing: its contract is the law.
pub fn drawn_lengths()
    ensures rectangles { (names : List (List ℕ)) (pins : Pins) (p : Placement) (r : Routing) (xs ys : List ℕ) (h k : ℕ)
        → length (drawn_of names pins p r xs h).shapes.rects ≡ length (drawn_of names pins p r ys k).shapes.rects }
    ensures names { (names : List (List ℕ)) (pins : Pins) (p : Placement) (r : Routing) (xs ys : List ℕ) (h k : ℕ)
        → label_names (drawn_of names pins p r xs h).shapes ≡ label_names (drawn_of names pins p r ys k).shapes }
    ensures bytes { (name : List ℕ) (names : List (List ℕ)) (pins : Pins) (p : Placement) (r : Routing)
        (xs ys : List ℕ) (h k u v : ℕ)
        → length (written name (drawn_of names pins p r xs h).shapes u)
        ≡ length (written name (drawn_of names pins p r ys k).shapes v) }
    ensures few { (names : List (List ℕ)) (pins : Pins) (p : Placement) (r : Routing) (xs : List ℕ) (h : ℕ)
        → length (drawn_of names pins p r xs h).shapes.labels ≤ length names }
{}
