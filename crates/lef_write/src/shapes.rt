// The rectangles of a layer.
ghost use Rattle.std.specs.Prelude.{◌≡◌, ◌++◌, OnOk};
ghost use Rattle.lef_write.specs.Lef.{corner_text, rect_text, rects_text};

use crate::number::put_coordinate;
use box_geom::Shape;
use cell_num::{Bytes, NoMemory};

#[tactic(auto, unfolding(crate::specs::Lef::corner_text))]
fn put_corner(out: &mut Bytes, x: i32, y: i32, unit_nm: u32) -> Result<(), NoMemory>
    ensures { OnOk result (out.new ≡ out.old ++ corner_text unit_nm x y) }
{
    put_coordinate(out, x, unit_nm)?;
    out.extend(b" ")?;
    put_coordinate(out, y, unit_nm)
}

#[tactic(auto, unfolding(crate::specs::Lef::rect_text))]
fn put_rect(out: &mut Bytes, indent: &[u8], shape: &Shape, unit_nm: u32) -> Result<(), NoMemory>
    ensures { OnOk result (out.new ≡ out.old ++ rect_text indent.now unit_nm shape.now) }
{
    let rect = &shape.rect;
    out.extend(indent)?;
    out.extend(b"RECT ")?;
    put_corner(out, rect.x1, rect.y1, unit_nm)?;
    out.extend(b" ")?;
    put_corner(out, rect.x2, rect.y2, unit_nm)?;
    out.extend(b" ;\n")
}

/// Adds a line for each of the rectangles.
pub fn put_rects(
    out: &mut Bytes,
    indent: &[u8],
    shapes: &[Shape],
    unit_nm: u32,
) -> Result<(), NoMemory>
    ensures { OnOk result (out.new ≡ out.old ++ rects_text indent.now unit_nm shapes.now) }
{
    for shape in shapes {
        put_rect(out, indent, shape, unit_nm)?;
    }
    Ok(())
}
