ghost use Rattle.std.specs.Prelude.{ℕ, ◌≡◌, ◌≤◌, ◌+◌, List, [], ◌*◌, length, All};
ghost use Rattle.std.specs.List.{Contains};
ghost use Rattle.box_geom.specs.declared.shape.Shapes.{Shapes};
ghost use Rattle.gds_write.specs.declared.library.Struct.{Struct};
ghost use Rattle.gds_write.specs.Written.{library_of, written};
ghost use Rattle.gds_read.specs.Decoding.{Decodes};
ghost use Rattle.gds_read.specs.RoundTrip.{IsReadable, AreReadable, IsToPlain, flat_shapes};

/// What `gds_write` writes is read back as it was, with a lambda of twice its grid unit, where the unit
/// has ten nanometres or more, there are at most 1,000,000 rectangles, and no name ends by a zero byte. It
/// does nothing: its contract is the law.
pub fn read_written()
    ensures { (name : List ℕ) (shapes : Shapes) (unit : ℕ) → IsReadable name shapes unit
        → Decodes (written name shapes unit) name (2 * unit) shapes }
{}

/// Of a library of several structures with different names each structure is read back by its name, where
/// it refers to none; and where it refers to some of these, they follow its own rectangles, moved, up
/// to 1,000,000 rectangles and references in all. It does nothing: its contract is the law.
pub fn read_library()
    ensures plain { (structs : List Struct) (unit : ℕ) (s : Struct) → AreReadable structs unit → Contains structs s
        → s.refs ≡ [] → length s.shapes.rects ≤ 1000000
        → Decodes (library_of structs unit) s.name (2 * unit) s.shapes }
    ensures flat { (structs : List Struct) (unit : ℕ) (s : Struct) → AreReadable structs unit → Contains structs s
        → All (IsToPlain structs) s.refs → length (flat_shapes structs s).rects + length s.refs ≤ 1000000
        → Decodes (library_of structs unit) s.name (2 * unit) (flat_shapes structs s) }
{}
