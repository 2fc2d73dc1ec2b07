ghost use Rattle.std.specs.Prelude.{◌≡◌, [], ◌∷◌, ◌++◌, OnOk, IfOk, All};
ghost use Rattle.std.specs.List.{flat_map};
ghost use Rattle.gds_record.specs.Records.{raw, spelling};
ghost use Rattle.gds_record.specs.declared.types.RecordType.TheVariants as record_type;
ghost use Rattle.gds_write.specs.Written.{head_records, rectangle_records, label_records, reference_records};
ghost use Rattle.gds_write.specs.Written.{structure_records, library_of, written, IsWritableName, IsWritableShape};
ghost use Rattle.gds_write.specs.Written.{IsWritableLabel, IsLabelUpTo, IsWritableRef, IsWritableStruct};
ghost use Rattle.gds_write.specs.declared.library.Struct.{Struct};

use crate::element::{put_label, put_rectangle, put_reference};
use crate::library::{Ref, Struct, StructList};
use crate::put::{put, put_text};
use box_geom::{Label, Shape, Shapes};
use cell_num::{Name, NoMemory};
use gds_record::RecordType;
use std::alloc::{AllocError, Global};

// Release 6.0.
const RELEASE: u16 = 600;

// Two times of six two-byte integers each, left empty.
const NO_TIMES: [u8; 24] = [0; 24];

// 0.001 and 10^-9 as eight-byte reals.
const UNITS: [u8; 16] = *b"\x3e\x41\x89\x37\x4b\xc6\xa7\xf0\x39\x44\xb8\x2f\xa0\x9b\x5a\x54";

fn put_head(out: &mut Vec<u8>) -> Result<(), AllocError>
    ensures { OnOk result (out.new.items ≡ out.old.items ++ spelling head_records) }
{
    put(out, RecordType::Header, &RELEASE.to_be_bytes())?;
    put(out, RecordType::BgnLib, &NO_TIMES)?;
    put_text(out, RecordType::LibName, b"cellgen")?;
    put(out, RecordType::Units, &UNITS)?;
    Ok(())
}

fn put_rectangles(out: &mut Vec<u8>, shapes: &[Shape], unit: u32) -> Result<(), AllocError>
    requires { All (IsWritableShape unit) shapes.now }
    ensures { OnOk result (out.new.items ≡ out.old.items ++ flat_map (λ s.
        spelling (rectangle_records unit s)) shapes.now) }
{
    for shape in shapes {
        put_rectangle(out, shape, unit)?;
    }
    Ok(())
}

fn put_references(out: &mut Vec<u8>, refs: &[Ref], unit: u32) -> Result<(), AllocError>
    requires { All (IsWritableRef unit) refs.now }
    ensures { OnOk result (out.new.items ≡ out.old.items ++ flat_map (λ r.
        spelling (reference_records unit r)) refs.now) }
{
    for reference in refs {
        put_reference(out, reference, unit)?;
    }
    Ok(())
}

fn put_labels(out: &mut Vec<u8>, labels: &[Label], unit: u32) -> Result<(), AllocError>
    requires { All (IsLabelUpTo 68 unit) labels.now }
    ensures { OnOk result (out.new.items ≡ out.old.items ++ flat_map (λ l.
        spelling (label_records unit l)) labels.now) }
{
    for label in labels {
        put_label(out, label, unit)?;
    }
    Ok(())
}

fn put_structure(
    out: &mut Vec<u8>,
    name: &[u8],
    shapes: &Shapes,
    refs: &[Ref],
    unit: u32,
) -> Result<(), AllocError>
    requires name { IsWritableName name.now }
    requires rects { All (IsWritableShape unit) shapes.now.rects }
    requires refs { All (IsWritableRef unit) refs.now }
    requires labels { All (IsLabelUpTo 68 unit) shapes.now.labels }
    ensures { OnOk result (out.new.items ≡ out.old.items ++ spelling (structure_records unit
        (record { name = name.now; shapes = shapes.now; refs = refs.now }))) }
{
    put(out, RecordType::BgnStr, &NO_TIMES)?;
    put_text(out, RecordType::StrName, name)?;
    put_rectangles(out, shapes.rects.as_slice(), unit)?;
    put_references(out, refs, unit)?;
    put_labels(out, shapes.labels.as_slice(), unit)?;
    put(out, RecordType::EndStr, &[])?;
    Ok(())
}

fn put_end(out: &mut Vec<u8>) -> Result<(), AllocError>
    ensures { OnOk result (out.new.items ≡ out.old.items ++ spelling (raw record_type.EndLib [] ∷ [])) }
{
    put(out, RecordType::EndLib, &[])?;
    Ok(())
}

fn put_structures(out: &mut Vec<u8>, structs: &[Struct], unit: u32) -> Result<(), AllocError>
    requires { All (IsWritableStruct unit) structs.now }
    ensures { OnOk result (out.new.items ≡ out.old.items ++ flat_map (λ s.
        spelling (structure_records unit s)) structs.now) }
{
    for s in structs {
        put_structure(out, s.name.as_slice(), &s.shapes, s.refs.as_slice(), unit)?;
    }
    Ok(())
}

/// The bytes of a library with one structure of that name: first the rectangles, then the labels,
/// each in its order. A grid unit has `unit_nm` nanometres. The name has 1 to 32 bytes, the name of a
/// label 1 to 64, and each coordinate in nanometres fits an `i32`.
pub fn write_cell(
    alloc: Global,
    name: &Name,
    shapes: &Shapes,
    unit_nm: u32,
) -> Result<Vec<u8>, NoMemory>
    requires name { IsWritableName name.now }
    requires rects { All (IsWritableShape unit_nm) shapes.now.rects }
    requires labels { All (IsWritableLabel unit_nm) shapes.now.labels }
    ensures { IfOk result (λ bytes. bytes.items ≡ written name.now shapes.now unit_nm) }
{
    let mut out = Vec::new(alloc);
    put_head(&mut out)?;
    put_structure(&mut out, name.as_slice(), shapes, &[], unit_nm)?;
    put_end(&mut out)?;
    Ok(out)
}

/// The bytes of a library with those structures in their order: in each first the rectangles, then the
/// references, then the labels, each in its order. A grid unit has `unit_nm` nanometres. The name of a
/// structure has 1 to 32 bytes, the name of a label 1 to 68, and each coordinate in nanometres fits an
/// `i32`.
pub fn write_library(alloc: Global, structs: &StructList, unit_nm: u32) -> Result<Vec<u8>, NoMemory>
    requires { All (IsWritableStruct unit_nm) structs.now }
    ensures exact { IfOk result (λ bytes. bytes.items ≡ library_of structs.now unit_nm) }
{
    let mut out = Vec::new(alloc);
    put_head(&mut out)?;
    put_structures(&mut out, structs.as_slice(), unit_nm)?;
    put_end(&mut out)?;
    Ok(out)
}
