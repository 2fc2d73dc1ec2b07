// What boundaries and paths draw.
ghost use Rattle.std.specs.Prelude.{◌≡◌, ◌≤◌, ◌<◌, length, OnOk};
ghost use Rattle.gds_record.specs.declared.types.RecordType.TheVariants as record_type;
ghost use Rattle.gds_area.specs.Points.{points_of};
ghost use Rattle.gds_area.specs.Areas.{put_all, Puts};
ghost use Rattle.gds_area.specs.Progress.{amount, Adds};
ghost use Rattle.gds_read.specs.Flat.{drawn_from};
ghost use Rattle.gds_read.specs.Elements.{inside_of, draw_context_for, boundary_areas};
ghost use Rattle.gds_read.specs.Elements.{reach_of, areas_along, path_areas_of};

use crate::field::{element_content, element_layer, field_place, short};
use box_geom::ShapeList;
use cell_num::MOST_BYTES;
use gds_area::{
    DrawContext, GdsFault, Grid, MOST_PICOMETRES, MOST_RECTANGLES, Move, Origin, Progress, Reach,
    add_inside, add_path_areas, close, past_ends, points, slanted, width,
};
use gds_record::{GdsRec, RecordType};
use std::alloc::Global;

// What the element draws with, where the drawing has its layer.
fn draw_context(bytes: &[u8], rec: &GdsRec, grid: &Grid, stands: &Move) -> Option<DrawContext>
    requires size { length bytes.now ≤ MOST_BYTES }
    requires place { rec.now.next ≤ length bytes.now }
    ensures { result ≡ draw_context_for grid.now stands.now (inside_of bytes.now rec.now) }
{
    let Some(layer) = element_layer(bytes, rec.next) else {
        return None;
    };
    Some(DrawContext {
        grid: *grid,
        stands: *stands,
        layer,
        at: field_place(bytes, rec.next, RecordType::Xy),
    })
}

#[tactic(auto, unfolding(crate::specs::Elements::boundary_areas), using(gds_area::proofs::Putting::stops))]
fn boundary(
    alloc: Global,
    xy: &[u8],
    draw_context: &DrawContext,
    rects: &mut ShapeList,
) -> Result<(), GdsFault>
    requires grid { 1 ≤ draw_context.now.grid.lambda_nm }
    requires unit { draw_context.now.grid.picometres ≤ MOST_PICOMETRES }
    ensures { Puts result rects.new
        (put_all draw_context.now rects.old (boundary_areas draw_context.now.at (points_of xy.now))) }
{
    let mut walk = points(alloc, xy)?;
    close(&mut walk)?;
    if slanted(walk.as_slice()) {
        return Err(GdsFault::Slant {
            at: draw_context.at,
        });
    }
    add_inside(alloc, walk.as_slice(), draw_context, rects)
}

/// How broad a path is, and how far it goes past its outer points.
pub fn reach(bytes: &[u8], rec: &GdsRec) -> Result<Reach, GdsFault>
    requires size { length bytes.now ≤ MOST_BYTES }
    requires place { rec.now.next ≤ length bytes.now }
    ensures { result ≡ reach_of (inside_of bytes.now rec.now) }
{
    let half = width(element_content(bytes, rec.next, RecordType::Width));
    let form = short(element_content(bytes, rec.next, RecordType::PathType));
    match past_ends(half, form) {
        Some(ends) => Ok(Reach { half, ends }),
        None => {
            Err(GdsFault::Kind {
                at: field_place(bytes, rec.next, RecordType::PathType),
                code: RecordType::PathType.number(),
            })
        }
    }
}

#[tactic(auto, unfolding(crate::specs::Elements::areas_along))]
fn along(
    alloc: Global,
    xy: &[u8],
    reach: &Reach,
    draw_context: &DrawContext,
    rects: &mut ShapeList,
) -> Result<(), GdsFault>
    requires grid { 1 ≤ draw_context.now.grid.lambda_nm }
    requires unit { draw_context.now.grid.picometres ≤ MOST_PICOMETRES }
    ensures { Puts result rects.new
        (put_all draw_context.now rects.old (areas_along draw_context.now.at reach.now (points_of xy.now))) }
{
    let points = points(alloc, xy)?;
    if slanted(points.as_slice()) {
        return Err(GdsFault::Slant {
            at: draw_context.at,
        });
    }
    add_path_areas(reach, points, draw_context, rects)
}

#[tactic(auto, using(gds_area::proofs::Putting::puts_same))]
fn path(
    alloc: Global,
    bytes: &[u8],
    rec: &GdsRec,
    draw_context: &DrawContext,
    rects: &mut ShapeList,
) -> Result<(), GdsFault>
    requires size { length bytes.now ≤ MOST_BYTES }
    requires place { rec.now.next ≤ length bytes.now }
    requires grid { 1 ≤ draw_context.now.grid.lambda_nm }
    requires unit { draw_context.now.grid.picometres ≤ MOST_PICOMETRES }
    ensures { Puts result rects.new
        (put_all draw_context.now rects.old (path_areas_of draw_context.now.at (inside_of bytes.now rec.now))) }
{
    let reach = reach(bytes, rec)?;
    let xy = element_content(bytes, rec.next, RecordType::Xy);
    along(alloc, xy, &reach, draw_context, rects)
}

/// Adds what a boundary draws.
#[tactic(auto, using(crate::proofs::Limits::limit_rules))]
pub fn add_boundary(
    alloc: Global,
    bytes: &[u8],
    rec: &GdsRec,
    grid: &Grid,
    origin: &Origin,
    progress: &mut Progress,
) -> Result<(), GdsFault>
    requires size { length bytes.now ≤ MOST_BYTES }
    requires place { rec.now.next ≤ length bytes.now }
    requires grid { 1 ≤ grid.now.lambda_nm }
    requires unit { grid.now.picometres ≤ MOST_PICOMETRES }
    requires room { amount progress.now ≤ MOST_RECTANGLES }
    ensures adds { Adds result progress.old progress.new
        (drawn_from grid.now origin.now (amount progress.old) (inside_of bytes.now rec.now) record_type.Boundary) }
    ensures room { OnOk result (amount progress.new ≤ MOST_RECTANGLES) }
{
    let Some(draw_context) = draw_context(bytes, rec, grid, &origin.stands) else {
        return Ok(());
    };
    let xy = element_content(bytes, rec.next, RecordType::Xy);
    boundary(alloc, xy, &draw_context, &mut progress.shapes.rects)?;
    if MOST_RECTANGLES - (progress.refs as usize) < progress.shapes.rects.len() {
        return Err(GdsFault::Wide { at: origin.outer });
    }
    Ok(())
}

/// Adds what a path draws.
#[tactic(auto, using(crate::proofs::Limits::limit_rules))]
pub fn add_path(
    alloc: Global,
    bytes: &[u8],
    rec: &GdsRec,
    grid: &Grid,
    origin: &Origin,
    progress: &mut Progress,
) -> Result<(), GdsFault>
    requires size { length bytes.now ≤ MOST_BYTES }
    requires place { rec.now.next ≤ length bytes.now }
    requires grid { 1 ≤ grid.now.lambda_nm }
    requires unit { grid.now.picometres ≤ MOST_PICOMETRES }
    requires room { amount progress.now ≤ MOST_RECTANGLES }
    ensures adds { Adds result progress.old progress.new
        (drawn_from grid.now origin.now (amount progress.old) (inside_of bytes.now rec.now) record_type.Path) }
    ensures room { OnOk result (amount progress.new ≤ MOST_RECTANGLES) }
{
    let Some(draw_context) = draw_context(bytes, rec, grid, &origin.stands) else {
        return Ok(());
    };
    path(alloc, bytes, rec, &draw_context, &mut progress.shapes.rects)?;
    if MOST_RECTANGLES - (progress.refs as usize) < progress.shapes.rects.len() {
        return Err(GdsFault::Wide { at: origin.outer });
    }
    Ok(())
}
