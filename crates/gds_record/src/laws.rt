ghost use Rattle.std.specs.Prelude.{◌≡◌, ◌+◌, ◌++◌, ℕ, List, Ok, Some, length};
ghost use Rattle.gds_record.specs.declared.record.GdsRec.{GdsRec};
ghost use Rattle.gds_record.specs.declared.types.RecordType.{RecordType};
ghost use Rattle.gds_record.specs.Types.{number_of, type_numbered};
ghost use Rattle.box_geom.specs.declared.layer.Layer.{Layer};
ghost use Rattle.gds_record.specs.Layers.{layer_number, layer_numbered};
ghost use Rattle.gds_record.specs.Records.{Raw, IsRaw, IsBytes, IsSpelled, spelled, record_at};

/// The records that `next_record` finds are the ones that are spelled. The type that is read of a number
/// is the one that has it: no two types have one number, and no other number is read as a type. It does
/// nothing: its contract is the law.
pub fn spelled_records()
    ensures written { (before after : List ℕ) (r : Raw) → IsRaw r →
        record_at (before ++ (spelled r ++ after)) (length before) ≡ Ok (record
        { at = length before; code = r.code; form = r.form; next = length before + (length r.content + 4) }) }
    ensures only { (bytes : List ℕ) (at : ℕ) (r : GdsRec) → IsBytes bytes → record_at bytes at ≡ Ok r →
        IsSpelled bytes at r }
    ensures numbers { (t : RecordType) → type_numbered (number_of t) ≡ Some t }
    ensures numbered_only { (n : ℕ) (t : RecordType) → type_numbered n ≡ Some t → number_of t ≡ n }
{}

/// The layers are read of the numbers that they are written by, and of no others. It does nothing: its
/// contract is the law.
pub fn layer_numbers()
    ensures written { (l : Layer) → layer_numbered (layer_number l) ≡ Some l }
    ensures only { (n : ℕ) (l : Layer) → layer_numbered n ≡ Some l → layer_number l ≡ n }
{}
