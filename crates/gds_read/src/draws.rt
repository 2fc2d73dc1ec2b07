// Whether an element may draw where its structure is referred to. What covers nothing, and has no fault, is
// looked at once; no copy visits it.
ghost use Rattle.std.specs.Prelude.{◌≡◌, ◌≤◌, ℕ, length, IfOk};
ghost use Rattle.gds_record.specs.Records.{items_from};
ghost use Rattle.gds_record.specs.Types.{type_numbered};
ghost use Rattle.gds_record.specs.declared.types.RecordType.TheVariants as record_type;
ghost use Rattle.gds_area.specs.Points.{points_of};
ghost use Rattle.gds_read.specs.Elements.{inside_of, boundary_areas, areas_along, path_areas_of};
ghost use Rattle.gds_read.specs.Index.{has_areas, covers, element_draws, draws};

use crate::element::reach;
use crate::field::{element_content, element_layer};
use cell_num::{MOST_BYTES, NoMemory};
use gds_area::{Reach, close, encloses, has_path_areas, points, slanted};
use gds_record::{GdsRec, RecordType};
use std::alloc::Global;

#[tactic(auto, using(crate::proofs::Visited::slant_told, crate::proofs::Visited::boundary_told))]
fn boundary_has_areas(alloc: Global, xy: &[u8]) -> Result<bool, NoMemory>
    ensures { IfOk result (λ some. (at : ℕ) → some ≡ has_areas (boundary_areas at (points_of xy.now))) }
{
    let mut walk = points(alloc, xy)?;
    close(&mut walk)?;
    if slanted(walk.as_slice()) {
        return Ok(true);
    }
    Ok(encloses(alloc, walk.as_slice())?)
}

#[tactic(auto, using(crate::proofs::Visited::slant_along, crate::proofs::Visited::along_told))]
fn along_has_areas(alloc: Global, xy: &[u8], reach: &Reach) -> Result<bool, NoMemory>
    ensures { IfOk result (λ some. (at : ℕ) → some ≡ has_areas (areas_along at reach.now (points_of xy.now))) }
{
    let points = points(alloc, xy)?;
    if slanted(points.as_slice()) {
        return Ok(true);
    }
    Ok(has_path_areas(reach, points))
}

fn path_has_areas(alloc: Global, bytes: &[u8], rec: &GdsRec) -> Result<bool, NoMemory>
    requires size { length bytes.now ≤ MOST_BYTES }
    requires place { rec.now.next ≤ length bytes.now }
    ensures { IfOk result (λ some. (at : ℕ) → some ≡ has_areas (path_areas_of at (inside_of bytes.now rec.now))) }
{
    let Ok(reach) = reach(bytes, rec) else {
        return Ok(true);
    };
    along_has_areas(
        alloc,
        element_content(bytes, rec.next, RecordType::Xy),
        &reach,
    )
}

fn boundary_covers(alloc: Global, bytes: &[u8], rec: &GdsRec) -> Result<bool, NoMemory>
    requires size { length bytes.now ≤ MOST_BYTES }
    requires place { rec.now.next ≤ length bytes.now }
    ensures { IfOk result (λ some. some ≡ covers record_type.Boundary (inside_of bytes.now rec.now)) }
{
    let Some(_) = element_layer(bytes, rec.next) else {
        return Ok(false);
    };
    boundary_has_areas(alloc, element_content(bytes, rec.next, RecordType::Xy))
}

fn path_covers(alloc: Global, bytes: &[u8], rec: &GdsRec) -> Result<bool, NoMemory>
    requires size { length bytes.now ≤ MOST_BYTES }
    requires place { rec.now.next ≤ length bytes.now }
    ensures { IfOk result (λ some. some ≡ covers record_type.Path (inside_of bytes.now rec.now)) }
{
    let Some(_) = element_layer(bytes, rec.next) else {
        return Ok(false);
    };
    let some = path_has_areas(alloc, bytes, rec)?;
    Ok(some)
}

// Whether the element draws, or has a fault, that a record of a type begins.
fn element_draws(
    alloc: Global,
    bytes: &[u8],
    kind: RecordType,
    rec: &GdsRec,
    labels: bool,
) -> Result<bool, NoMemory>
    requires size { length bytes.now ≤ MOST_BYTES }
    requires place { rec.now.next ≤ length bytes.now }
    ensures { IfOk result (λ some. some ≡ element_draws labels kind (inside_of bytes.now rec.now)) }
{
    match kind {
        RecordType::Boundary => boundary_covers(alloc, bytes, rec),
        RecordType::Path => path_covers(alloc, bytes, rec),
        RecordType::Text => Ok(labels),
        RecordType::SRef => Ok(true),
        RecordType::ARef => Ok(true),
        _ => Ok(false),
    }
}

/// Whether a record begins an element that may draw something, or has a fault; a text draws where labels are
/// asked for.
pub fn draws(alloc: Global, bytes: &[u8], rec: &GdsRec, labels: bool) -> Result<bool, NoMemory>
    requires size { length bytes.now ≤ MOST_BYTES }
    requires place { rec.now.next ≤ length bytes.now }
    ensures { IfOk result (λ some.
        some ≡ draws labels (type_numbered rec.now.code) (items_from bytes.now rec.now.next)) }
{
    match RecordType::numbered(rec.code) {
        Some(kind) => element_draws(alloc, bytes, kind, rec, labels),
        None => Ok(false),
    }
}
