// The obstructions of a macro.
ghost use Rattle.std.specs.Prelude.{◌≡◌, ◌==◌, ◌&&◌, ◌++◌, length, OnOk};
ghost use Rattle.lef_write.specs.Lef.{layer_text, metal1_text, metal2_text, block_text, obstructions_text};

use crate::shapes::put_rects;
use box_geom::Shape;
use cell_num::{Bytes, NoMemory};

#[tactic(auto, unfolding(crate::specs::Lef::layer_text))]
fn put_layer(out: &mut Bytes, layer: &[u8], shapes: &[Shape], unit_nm: u32) -> Result<(), NoMemory>
    ensures { OnOk result (out.new ≡ out.old ++ layer_text layer.now unit_nm shapes.now) }
{
    if shapes.is_empty() {
        return Ok(());
    }
    out.extend(layer)?;
    put_rects(out, b"    ", shapes, unit_nm)
}

#[tactic(auto, unfolding(crate::specs::Lef::metal1_text))]
fn put_metal1(out: &mut Bytes, shapes: &[Shape], unit_nm: u32) -> Result<(), NoMemory>
    ensures { OnOk result (out.new ≡ out.old ++ metal1_text unit_nm shapes.now) }
{
    put_layer(out, b"    LAYER metal1 ;\n", shapes, unit_nm)
}

#[tactic(auto, unfolding(crate::specs::Lef::metal2_text))]
fn put_metal2(out: &mut Bytes, shapes: &[Shape], unit_nm: u32) -> Result<(), NoMemory>
    ensures { OnOk result (out.new ≡ out.old ++ metal2_text unit_nm shapes.now) }
{
    put_layer(out, b"    LAYER metal2 ;\n", shapes, unit_nm)
}

#[tactic(auto, unfolding(crate::specs::Lef::block_text))]
fn put_block(
    out: &mut Bytes,
    metal1: &[Shape],
    metal2: &[Shape],
    unit_nm: u32,
) -> Result<(), NoMemory>
    ensures { OnOk result (out.new ≡ out.old ++ block_text unit_nm metal1.now metal2.now) }
{
    out.extend(b"  OBS\n")?;
    put_metal1(out, metal1, unit_nm)?;
    put_metal2(out, metal2, unit_nm)?;
    out.extend(b"  END\n")
}

fn are_empty(metal1: &[Shape], metal2: &[Shape]) -> bool
    ensures { result ≡ (length metal1.now == 0 && length metal2.now == 0) }
{
    metal1.is_empty() && metal2.is_empty()
}

/// Adds the obstructions, where there are any.
#[tactic(auto, unfolding(crate::specs::Lef::obstructions_text))]
pub fn put_obstructions(
    out: &mut Bytes,
    metal1: &[Shape],
    metal2: &[Shape],
    unit_nm: u32,
) -> Result<(), NoMemory>
    ensures { OnOk result (out.new ≡ out.old ++ obstructions_text unit_nm metal1.now metal2.now) }
{
    if are_empty(metal1, metal2) {
        Ok(())
    } else {
        put_block(out, metal1, metal2, unit_nm)
    }
}
