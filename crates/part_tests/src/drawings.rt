use box_geom::{Label, LabelList, Layer, Rect, Shape, ShapeList, Shapes};
use cell_num::{NoMemory, copy};
use std::alloc::Global;
use std::test::Fail;

pub type Sides = [i32; 4];

pub fn rect(sides: Sides) -> Result<Rect, Fail> {
    let [x1, y1, x2, y2] = sides;
    if x1 < x2 && y1 < y2 && -1000 < x1 && x2 < 1000 && -1000 < y1 && y2 < 1000 {
        Ok(Rect { x1, y1, x2, y2 })
    } else {
        Err(Fail::from("no small rectangle"))
    }
}

pub fn add_shapes(rects: &mut ShapeList, table: &[(Layer, Sides)]) -> Result<(), Fail> {
    for (layer, sides) in table {
        let rect = rect(*sides)?;
        rects.push(Shape {
            layer: *layer,
            rect,
        })?;
    }
    Ok(())
}

pub fn no_shapes(alloc: Global) -> Shapes {
    Shapes {
        rects: ShapeList::new(alloc),
        labels: LabelList::new(alloc),
    }
}

pub fn shapes_of(alloc: Global, table: &[(Layer, Sides)]) -> Result<Shapes, Fail> {
    let mut shapes = no_shapes(alloc);
    add_shapes(&mut shapes.rects, table)?;
    Ok(shapes)
}

pub fn add_label(
    alloc: Global,
    labels: &mut LabelList,
    name: &[u8],
    layer: Layer,
    [x, y]: [i32; 2],
) -> Result<(), NoMemory> {
    let name = copy(alloc, name)?;
    labels.push(Label { layer, x, y, name })
}
