ghost use Rattle.std.specs.Prelude.{◌≡◌, ℕ, List, All, length};
ghost use Rattle.box_geom.specs.declared.shape.Shapes.{Shapes};
ghost use Rattle.gds_record.specs.Records.{placed, records_from};
ghost use Rattle.gds_record.specs.declared.record.RecFault.TheVariants.{Cut};
ghost use Rattle.gds_write.specs.Written.{library_records, written, IsWritableName, IsWritableLabel};
ghost use Rattle.gds_write.specs.Written.{all_records, library_of, IsWritableStruct};
ghost use Rattle.gds_write.specs.declared.library.Struct.{Struct};

/// The records that are found in a written library are the ones that were meant, and nothing follows
/// them. It does nothing: its contract is the law.
pub fn written_records()
    ensures { (name : List ℕ) (shapes : Shapes) (unit : ℕ) → IsWritableName name →
        All (IsWritableLabel unit) shapes.labels → records_from (written name shapes unit) 0 ≡ record
        { items = placed 0 (library_records name shapes unit); fault = Cut (length (written name shapes unit)) } }
{}

/// The same of a library of several structures. It does nothing: its contract is the law.
pub fn written_libraries()
    ensures { (structs : List Struct) (unit : ℕ) → All (IsWritableStruct unit) structs →
        records_from (library_of structs unit) 0 ≡ record
        { items = placed 0 (all_records structs unit); fault = Cut (length (library_of structs unit)) } }
{}
