// The elements of a structure.
ghost use Rattle.std.specs.Prelude.{◌≡◌, ◌++◌, OnOk};
ghost use Rattle.gds_record.specs.Layers.{layer_number};
ghost use Rattle.gds_record.specs.Records.{raw, spelled, spelling};
ghost use Rattle.gds_record.specs.declared.types.RecordType.TheVariants as record_type;
ghost use Rattle.gds_write.specs.Written.{short, point, corners, Fits, rectangle_records, label_records};
ghost use Rattle.gds_write.specs.Written.{reference_records, IsWritableShape, IsLabelUpTo, IsWritableRef};

use crate::library::Ref;
use crate::put::{put, put_header, put_point, put_text};
use box_geom::{Label, Layer, Shape};
use gds_record::{RecordType, layers};
use std::alloc::AllocError;

fn put_layer(out: &mut Vec<u8>, layer: Layer) -> Result<(), AllocError>
    ensures { OnOk result (out.new.items ≡ out.old.items ++ spelled (raw record_type.Layer (short
        (layer_number layer)))) }
{
    put(out, RecordType::Layer, &layers::number(layer).to_be_bytes())?;
    Ok(())
}

#[tactic(auto, unfolding(crate::specs::Written::corners))]
fn put_corners(out: &mut Vec<u8>, shape: &Shape, unit: u32) -> Result<(), AllocError>
    requires { IsWritableShape unit shape.now }
    ensures { OnOk result (out.new.items ≡ out.old.items ++ corners unit shape.now.rect) }
{
    let rect = &shape.rect;
    put_point(out, rect.x1, rect.y1, unit)?;
    put_point(out, rect.x1, rect.y2, unit)?;
    put_point(out, rect.x2, rect.y2, unit)?;
    put_point(out, rect.x2, rect.y1, unit)?;
    put_point(out, rect.x1, rect.y1, unit)?;
    Ok(())
}

fn put_boundary_points(out: &mut Vec<u8>, shape: &Shape, unit: u32) -> Result<(), AllocError>
    requires { IsWritableShape unit shape.now }
    ensures { OnOk result (out.new.items ≡ out.old.items ++ spelled (raw record_type.Xy
        (corners unit shape.now.rect))) }
{
    put_header(out, RecordType::Xy, 40)?;
    put_corners(out, shape, unit)?;
    Ok(())
}

fn put_place(out: &mut Vec<u8>, x: i32, y: i32, unit: u32) -> Result<(), AllocError>
    requires x { Fits unit x }
    requires y { Fits unit y }
    ensures { OnOk result (out.new.items ≡ out.old.items ++ spelled (raw record_type.Xy (point unit x y))) }
{
    put_header(out, RecordType::Xy, 8)?;
    put_point(out, x, y, unit)?;
    Ok(())
}

/// A rectangle, as a boundary of five points.
pub fn put_rectangle(out: &mut Vec<u8>, shape: &Shape, unit: u32) -> Result<(), AllocError>
    requires { IsWritableShape unit shape.now }
    ensures { OnOk result (out.new.items ≡ out.old.items ++ spelling (rectangle_records unit shape.now)) }
{
    put(out, RecordType::Boundary, &[])?;
    put_layer(out, shape.layer)?;
    put(out, RecordType::DataType, &[0, 0])?;
    put_boundary_points(out, shape, unit)?;
    put(out, RecordType::EndEl, &[])?;
    Ok(())
}

/// A label, as a text.
pub fn put_label(out: &mut Vec<u8>, label: &Label, unit: u32) -> Result<(), AllocError>
    requires { IsLabelUpTo 68 unit label.now }
    ensures { OnOk result (out.new.items ≡ out.old.items ++ spelling (label_records unit label.now)) }
{
    put(out, RecordType::Text, &[])?;
    put_layer(out, label.layer)?;
    put(out, RecordType::TextType, &[0, 0])?;
    put_place(out, label.x, label.y, unit)?;
    put_text(out, RecordType::StringText, label.name.as_slice())?;
    put(out, RecordType::EndEl, &[])?;
    Ok(())
}

/// A reference to a structure, neither mirrored nor turned.
pub fn put_reference(out: &mut Vec<u8>, reference: &Ref, unit: u32) -> Result<(), AllocError>
    requires { IsWritableRef unit reference.now }
    ensures { OnOk result (out.new.items ≡ out.old.items ++ spelling (reference_records unit reference.now)) }
{
    put(out, RecordType::SRef, &[])?;
    put_text(out, RecordType::SName, reference.name.as_slice())?;
    put_place(out, reference.x, reference.y, unit)?;
    put(out, RecordType::EndEl, &[])?;
    Ok(())
}
