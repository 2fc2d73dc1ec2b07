// The shapes of a layout, group by group.

ghost use Rattle.std.specs.Prelude.{◌≡◌, ◌≤◌, ◌++◌, ◌∷◌, [], pos, All, IfOk, OnOk};
ghost use Rattle.std.specs.List.{flat_map};
ghost use Rattle.box_geom.specs.declared.layer.Layer.TheVariants.{Via};
ghost use Rattle.cell_draw.specs.Shapes.{around, frame_shapes, finger, reach_shapes, contact_shapes};
ghost use Rattle.cell_draw.specs.Shapes.{pad_shapes, gate_shapes, via_shapes, bar_shapes, shapes_of};
ghost use Rattle.cell_draw.specs.Small.{IsSmall, IsSmallFrame, IsSmallStrip};
ghost use Rattle.cell_draw.specs.Small.{IsSmallContact, IsSmallGate, IsSmallBar, IsReach};

use crate::{
    Bar, Contact, Frame, Gate, HALF_CUT, HALF_PAD, Layout, MOST_X, MOST_Y, Strip, channel_shapes,
    row_shapes, shape,
};
use box_geom::{Layer, Shape, ShapeList};
use cell_num::{NoMemory, Row};
use std::alloc::Global;

fn add_frame(out: &mut ShapeList, frame: &Frame) -> Result<(), NoMemory>
    requires { IsSmallFrame frame.now }
    ensures { OnOk result (out.new ≡ out.old ++ frame_shapes frame.now) }
{
    out.push(shape::well(frame))?;
    out.push(shape::p_select(frame))?;
    out.push(shape::n_select(frame))?;
    out.push(shape::gnd_rail(frame))?;
    out.push(shape::vdd_rail(frame))
}

fn add_fingers(out: &mut ShapeList, frame: &Frame, strips: &[Strip]) -> Result<(), NoMemory>
    requires frame { IsSmallFrame frame.now }
    requires strips { All (IsSmallStrip frame.now) strips.now }
    ensures { OnOk result (out.new ≡ out.old ++ flat_map (λ s. finger frame.now s ∷ []) strips.now) }
{
    for strip in strips {
        out.push(row_shapes::finger(frame, strip))?;
    }
    Ok(())
}

fn via(x: u32, y: u32) -> Shape
    requires x { x ≤ MOST_X }
    requires y { y ≤ MOST_Y }
    ensures { result ≡ around Via x (pos y) HALF_CUT }
{
    shape::square(Layer::Via, x, y, HALF_CUT)
}

// The landing via of a signal and its metal2.
fn add_reach(
    out: &mut ShapeList,
    frame: &Frame,
    row: Row,
    x: u32,
    reach: Option<u32>,
) -> Result<(), NoMemory>
    requires frame { IsSmallFrame frame.now }
    requires x { x ≤ MOST_X }
    requires reach { IsReach frame.now reach }
    ensures { OnOk result (out.new ≡ out.old ++ reach_shapes frame.now row x reach) }
{
    let Some(reach) = reach else {
        return Ok(());
    };
    let landing = row_shapes::landing(frame, row);
    out.push(via(x, landing))?;
    out.push(row_shapes::branch(frame, row, x, reach))
}

fn add_contact(out: &mut ShapeList, frame: &Frame, contact: &Contact) -> Result<(), NoMemory>
    requires frame { IsSmallFrame frame.now }
    requires contact { IsSmallContact frame.now contact.now }
    ensures { OnOk result (out.new ≡ out.old ++ contact_shapes frame.now contact.now) }
{
    let centre = row_shapes::centre(frame, contact.row);
    out.push(shape::square(Layer::Active, contact.x, centre, HALF_PAD))?;
    out.push(shape::square(Layer::Contact, contact.x, centre, HALF_CUT))?;
    out.push(row_shapes::strap(frame, contact))?;
    add_reach(out, frame, contact.row, contact.x, contact.reach)
}

fn add_contacts(out: &mut ShapeList, frame: &Frame, contacts: &[Contact]) -> Result<(), NoMemory>
    requires frame { IsSmallFrame frame.now }
    requires contacts { All (IsSmallContact frame.now) contacts.now }
    ensures { OnOk result (out.new ≡ out.old ++ flat_map (contact_shapes frame.now) contacts.now) }
{
    for contact in contacts {
        add_contact(out, frame, contact)?;
    }
    Ok(())
}

fn add_pad(out: &mut ShapeList, x: u32, track: Option<u32>, frame: &Frame) -> Result<(), NoMemory>
    requires frame { IsSmallFrame frame.now }
    requires x { x ≤ MOST_X }
    requires track { IsReach frame.now track }
    ensures { OnOk result (out.new ≡ out.old ++ pad_shapes x track) }
{
    let Some(track) = track else {
        return Ok(());
    };
    out.push(shape::square(Layer::Poly, x, track, HALF_PAD))?;
    out.push(shape::square(Layer::Contact, x, track, HALF_CUT))
}

fn add_gate(out: &mut ShapeList, frame: &Frame, gate: &Gate) -> Result<(), NoMemory>
    requires frame { IsSmallFrame frame.now }
    requires gate { IsSmallGate frame.now gate.now }
    ensures { OnOk result (out.new ≡ out.old ++ gate_shapes frame.now gate.now) }
{
    out.push(channel_shapes::gate_strip(frame, gate))?;
    add_pad(out, gate.x, gate.track, frame)
}

fn add_gates(out: &mut ShapeList, frame: &Frame, gates: &[Gate]) -> Result<(), NoMemory>
    requires frame { IsSmallFrame frame.now }
    requires gates { All (IsSmallGate frame.now) gates.now }
    ensures { OnOk result (out.new ≡ out.old ++ flat_map (gate_shapes frame.now) gates.now) }
{
    for gate in gates {
        add_gate(out, frame, gate)?;
    }
    Ok(())
}

fn add_vias(out: &mut ShapeList, y: u32, vias: &[u32]) -> Result<(), NoMemory>
    requires y { y ≤ MOST_Y }
    requires vias { All (λ x. x ≤ MOST_X) vias.now }
    ensures { OnOk result (out.new ≡ out.old ++ flat_map (via_shapes y) vias.now) }
{
    for x in vias {
        out.push(via(*x, y))?;
    }
    Ok(())
}

fn add_bar(out: &mut ShapeList, frame: &Frame, bar: &Bar) -> Result<(), NoMemory>
    requires frame { IsSmallFrame frame.now }
    requires bar { IsSmallBar frame.now bar.now }
    ensures { OnOk result (out.new ≡ out.old ++ bar_shapes bar.now) }
{
    out.push(channel_shapes::bar_metal(frame, bar))?;
    add_vias(out, bar.y, bar.vias.as_slice())
}

fn add_bars(out: &mut ShapeList, frame: &Frame, bars: &[Bar]) -> Result<(), NoMemory>
    requires frame { IsSmallFrame frame.now }
    requires bars { All (IsSmallBar frame.now) bars.now }
    ensures { OnOk result (out.new ≡ out.old ++ flat_map bar_shapes bars.now) }
{
    for bar in bars {
        add_bar(out, frame, bar)?;
    }
    Ok(())
}

/// The shapes of a layout: well, selects and rails; fingers; contacted places; gates; bars.
pub fn shapes(alloc: Global, layout: &Layout) -> Result<ShapeList, NoMemory>
    requires { IsSmall layout.now }
    ensures { IfOk result (λ shapes. shapes ≡ shapes_of layout.now) }
{
    let frame = &layout.frame;
    let mut out = ShapeList::new(alloc);
    add_frame(&mut out, frame)?;
    add_fingers(&mut out, frame, layout.strips.as_slice())?;
    add_contacts(&mut out, frame, layout.contacts.as_slice())?;
    add_gates(&mut out, frame, layout.gates.as_slice())?;
    add_bars(&mut out, frame, layout.bars.as_slice())?;
    Ok(out)
}
