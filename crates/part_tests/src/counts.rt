// Drawings as large as the extractor takes them, and one larger.
use crate::drawings::{add_label, no_shapes};
use crate::nets::netlist;
use box_geom::{LabelList, Layer, Rect, Shape, ShapeList, Shapes};
use cell_num::NoMemory;
use net_extract::ExtractFault;
use std::alloc::Global;
use std::test::Fail;

fn bar(layer: Layer, low: [i16; 2], high: [i16; 2]) -> Result<Shape, Fail> {
    if low[0] >= high[0] || low[1] >= high[1] {
        return Err(Fail::from("no rectangle"));
    }
    let rect = Rect {
        x1: i32::from(low[0]),
        y1: i32::from(low[1]),
        x2: i32::from(high[0]),
        y2: i32::from(high[1]),
    };
    Ok(Shape { layer, rect })
}

// Bars one above another.
fn add_bars(rects: &mut ShapeList, layer: Layer, count: i16) -> Result<(), Fail> {
    for at in 0..count {
        let low = at.saturating_mul(3);
        rects.push(bar(layer, [0, low], [200, low.saturating_add(2)])?)?;
    }
    Ok(())
}

// Wells beside one another, higher than all bars.
fn add_wells(rects: &mut ShapeList, count: i16) -> Result<(), Fail> {
    for at in 0..count {
        let left = at.saturating_mul(6).saturating_add(2);
        let right = left.saturating_add(2);
        rects.push(bar(Layer::Well, [left, -1], [right, 32_000])?)?;
    }
    Ok(())
}

// Labels of one name on the lowest bar.
fn add_labels(alloc: Global, labels: &mut LabelList, count: u32) -> Result<(), NoMemory> {
    for _ in 0..count {
        add_label(alloc, labels, b"a", Layer::Metal1, [1, 1])?;
    }
    Ok(())
}

// Bars of a layer, wells over them, labels on the lowest bar, and the number of nets, or of what is too many.
struct Case {
    layer: Layer,
    bars: i16,
    wells: i16,
    labels: u32,
    want: Result<usize, u64>,
}

fn add_all(alloc: Global, shapes: &mut Shapes, case: &Case) -> Result<(), Fail> {
    add_bars(&mut shapes.rects, case.layer, case.bars)?;
    add_wells(&mut shapes.rects, case.wells)?;
    Ok(add_labels(alloc, &mut shapes.labels, case.labels)?)
}

fn drawn(alloc: Global, case: &Case) -> Result<Shapes, Fail> {
    let mut shapes = no_shapes(alloc);
    add_all(alloc, &mut shapes, case)?;
    Ok(shapes)
}

// Whether a drawing has this number of nets and no device, or is refused.
fn counts(alloc: Global, shapes: &Shapes, want: &Result<usize, u64>) -> bool {
    match (netlist(alloc, shapes), want) {
        (Ok(netlist), Ok(nets)) => [netlist.names.len(), netlist.devices.len()] == [*nets, 0],
        (Err(ExtractFault::TooMany { count }), Err(most)) => count == *most,
        _ => false,
    }
}

fn is_counted(alloc: Global, case: &Case) -> Result<bool, Fail> {
    let shapes = drawn(alloc, case)?;
    let is = counts(alloc, &shapes, &case.want);
    drop(shapes);
    Ok(is)
}

// At last each of 9,970 bars of active lies in 30 wells and in 31 places outside. To look at each pair of the 608,170
// pieces would take minutes. `rt try` may want `--seconds 400` for it.
const CASES: [Case; 5] = [
    Case {
        layer: Layer::Metal1,
        bars: 2001,
        wells: 0,
        labels: 2000,
        want: Ok(2001),
    },
    Case {
        layer: Layer::Metal1,
        bars: 10_000,
        wells: 0,
        labels: 0,
        want: Ok(10_000),
    },
    Case {
        layer: Layer::Metal1,
        bars: 10_000,
        wells: 0,
        labels: 2001,
        want: Err(2001),
    },
    Case {
        layer: Layer::Metal1,
        bars: 10_001,
        wells: 0,
        labels: 2001,
        want: Err(10_001),
    },
    Case {
        layer: Layer::Active,
        bars: 9970,
        wells: 30,
        labels: 0,
        want: Ok(608_170),
    },
];

#[test]
fn takes_so_many(rt: HostRuntime) -> Result<(), Fail> {
    for case in &CASES {
        let bars = case.bars;
        assert!(rt; is_counted(rt.alloc(), case)?, "{bars}");
    }
    Ok(())
}
