// Labels.
ghost use Rattle.std.specs.Prelude.{◌≡◌, ◌≤◌, ◌<◌, length, None, OnOk};
ghost use Rattle.gds_record.specs.declared.types.RecordType.TheVariants as record_type;
ghost use Rattle.gds_area.specs.Progress.{plain, both, amount, Adds};
ghost use Rattle.gds_read.specs.Flat.{text_by};
ghost use Rattle.gds_read.specs.Elements.{element_of, spot_of, text_spot, with_label};

use crate::field::{element_content, element_layer, field_place};
use crate::structure::trim;
use box_geom::{Label, Layer};
use cell_num::{MOST_BYTES, NoMemory, copy};
use gds_area::{GdsFault, Grid, MOST_RECTANGLES, Progress, floor_units, signed};
use gds_record::{GdsRec, RecordType};
use std::alloc::Global;

/// The place of a label, in grid units.
#[derive(Clone, Copy, Debug, PartialEq, Eq)]
pub struct Spot {
    pub layer: Layer,
    pub x: i32,
    pub y: i32,
}

fn label_spot(grid: &Grid, layer: Layer, xy: &[u8]) -> Option<Spot>
    requires { 1 ≤ grid.now.lambda_nm }
    ensures { result ≡ spot_of grid.now layer xy.now }
{
    if xy.len() != 8 {
        return None;
    }
    let x = floor_units(grid, signed(xy, 0))?;
    let y = floor_units(grid, signed(xy, 4))?;
    Some(Spot { layer, x, y })
}

// The place of a text, if its layer is in the drawing.
fn text(bytes: &[u8], rec: &GdsRec, grid: &Grid) -> Result<Option<Spot>, GdsFault>
    requires size { length bytes.now ≤ MOST_BYTES }
    requires place { rec.now.next ≤ length bytes.now }
    requires grid { 1 ≤ grid.now.lambda_nm }
    ensures { result ≡ text_spot grid.now (element_of bytes.now rec.now record_type.Text) }
{
    let Some(layer) = element_layer(bytes, rec.next) else {
        return Ok(None);
    };
    let xy = element_content(bytes, rec.next, RecordType::Xy);
    match label_spot(grid, layer, xy) {
        Some(spot) => Ok(Some(spot)),
        None => {
            Err(GdsFault::Grid {
                at: field_place(bytes, rec.next, RecordType::Xy),
            })
        }
    }
}

// Adds a label, if there is one.
fn add_label(
    alloc: Global,
    progress: &mut Progress,
    spot: Option<Spot>,
    name: &[u8],
) -> Result<(), NoMemory>
    ensures { OnOk result (progress.new ≡ both progress.old (plain (with_label name.now spot))) }
{
    let Some(spot) = spot else {
        return Ok(());
    };
    let name = copy(alloc, name)?;
    let label = Label {
        layer: spot.layer,
        x: spot.x,
        y: spot.y,
        name,
    };
    progress.shapes.labels.push(label)?;
    Ok(())
}

/// Adds the label of a text.
#[tactic(auto, using(crate::proofs::Drawings::adds_same, crate::proofs::Drawings::same_amount))]
pub fn add_text(
    alloc: Global,
    bytes: &[u8],
    rec: &GdsRec,
    grid: &Grid,
    progress: &mut Progress,
) -> Result<(), GdsFault>
    requires size { length bytes.now ≤ MOST_BYTES }
    requires place { rec.now.next ≤ length bytes.now }
    requires grid { 1 ≤ grid.now.lambda_nm }
    requires room { amount progress.now ≤ MOST_RECTANGLES }
    ensures adds { Adds result progress.old progress.new
        (text_by grid.now None (element_of bytes.now rec.now record_type.Text)) }
    ensures room { OnOk result (amount progress.new ≤ MOST_RECTANGLES) }
{
    let spot = text(bytes, rec, grid)?;
    let name = element_content(bytes, rec.next, RecordType::StringText);
    add_label(alloc, progress, spot, trim(name))?;
    Ok(())
}
