// GDSII libraries that are put together of records, and the structures that are read from them.
use crate::texts::prints;
use box_geom::Shapes;
use cell_num::copy;
use gds_area::GdsFault;
use gds_read::read_cell;
use std::alloc::{AllocError, Global};
use std::test::Fail;

/// A part of a library: some bytes, a record by its type, its data type and its data, or the points of an element.
#[derive(Clone, Copy)]
pub enum Part<'a> {
    Bytes(&'a [u8]),
    Record(u8, u8, &'a [u8]),
    Points(&'a [[i32; 2]]),
}

// A library up to its first structure, and the beginning of a structure without its name.
const LIBRARY_BYTES: [u8; 66] = [
    0x00, 0x06, 0x00, 0x02, 0x02, 0x58, 0x00, 0x1c, 0x01, 0x02, 0x00, 0x00, 0x00, 0x00, 0x00, 0x00,
    0x00, 0x00, 0x00, 0x00, 0x00, 0x00, 0x00, 0x00, 0x00, 0x00, 0x00, 0x00, 0x00, 0x00, 0x00, 0x00,
    0x00, 0x00, 0x00, 0x0c, 0x02, 0x06, 0x63, 0x65, 0x6c, 0x6c, 0x67, 0x65, 0x6e, 0x00, 0x00, 0x14,
    0x03, 0x05, 0x3e, 0x41, 0x89, 0x37, 0x4b, 0xc6, 0xa7, 0xf0, 0x39, 0x44, 0xb8, 0x2f, 0xa0, 0x9b,
    0x5a, 0x54,
];

pub const LIBRARY: Part = Part::Bytes(&LIBRARY_BYTES);

pub const STRUCTURE: Part = Part::Record(5, 2, &[0; 24]);

/// The name of the structure `inv`.
pub const INV: Part = Part::Record(6, 6, b"inv\0");

pub const END_OF_ELEMENT: Part = Part::Bytes(&[0x00, 0x04, 0x11, 0x00]);

pub const END_OF_STRUCTURE: Part = Part::Bytes(&[0x00, 0x04, 0x07, 0x00]);

pub const END_OF_LIBRARY: Part = Part::Bytes(&[0x00, 0x04, 0x04, 0x00]);

pub fn put_record(out: &mut Vec<u8>, code: u8, form: u8, content: &[u8]) -> Result<(), Fail> {
    if content.len() > 65_000 {
        return Err(Fail::from("a long record"));
    }
    let size = content.len() as u16 + 4;
    out.extend_from_slice(&size.to_be_bytes())?;
    out.extend_from_slice(&[code, form])?;
    out.extend_from_slice(content)?;
    Ok(())
}

fn put_points(out: &mut Vec<u8>, points: &[[i32; 2]]) -> Result<(), Fail> {
    if points.len() > 8000 {
        return Err(Fail::from("many points"));
    }
    let size = 8 * points.len() as u16 + 4;
    out.extend_from_slice(&size.to_be_bytes())?;
    out.extend_from_slice(&[0x10, 3])?;
    for point in points {
        out.extend_from_slice(&point[0].to_be_bytes())?;
        out.extend_from_slice(&point[1].to_be_bytes())?;
    }
    Ok(())
}

fn put(out: &mut Vec<u8>, part: &Part) -> Result<(), Fail> {
    match part {
        Part::Bytes(bytes) => Ok(out.extend_from_slice(bytes)?),
        Part::Record(code, form, content) => put_record(out, *code, *form, content),
        Part::Points(points) => put_points(out, points),
    }
}

pub fn put_all(out: &mut Vec<u8>, parts: &[Part]) -> Result<(), Fail> {
    for part in parts {
        put(out, part)?;
    }
    Ok(())
}

/// A library without the elements of one structure: its name, what comes before them and after them.
pub struct Around {
    pub name: &'static [u8],
    pub front: &'static [Part<'static>],
    pub end: &'static [Part<'static>],
}

fn put_library(out: &mut Vec<u8>, around: &Around, elements: &[Part]) -> Result<(), Fail> {
    put_all(out, around.front)?;
    put_all(out, elements)?;
    put_all(out, around.end)
}

pub fn library(alloc: Global, around: &Around, elements: &[Part]) -> Result<Vec<u8>, Fail> {
    let mut out = Vec::new(alloc);
    put_library(&mut out, around, elements)?;
    Ok(out)
}

// It has no clauses, so that the reader's stay out of the tests' proofs.
fn read(alloc: Global, bytes: &[u8], name: &[u8], lambda_nm: u32) -> Result<Shapes, GdsFault> {
    let name = copy(alloc, name)?;
    let front = &bytes[..bytes.len().min(200_000)];
    read_cell(alloc, front, &name, lambda_nm.max(1))
}

/// Whether this is printed of the structure of that name.
pub fn is_read(
    alloc: Global,
    bytes: &[u8],
    name: &[u8],
    lambda_nm: u32,
    want: &str,
) -> Result<bool, AllocError> {
    prints(alloc, &read(alloc, bytes, name, lambda_nm), want)
}

/// Whether this is printed of the structure with these elements.
pub fn is_told(
    alloc: Global,
    around: &Around,
    elements: &[Part],
    lambda_nm: u32,
    want: &str,
) -> Result<bool, Fail> {
    let bytes = library(alloc, around, elements)?;
    let is = is_read(alloc, &bytes, around.name, lambda_nm, want);
    drop(bytes);
    Ok(is?)
}
