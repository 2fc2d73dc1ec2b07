// Structures that refer to others. A box from (0, 0) to (10, 4) is in `box`, the reference in `top`.
use crate::libraries::{
    Around, END_OF_ELEMENT, END_OF_LIBRARY, END_OF_STRUCTURE, LIBRARY, Part, STRUCTURE, is_told,
};
use std::alloc::Global;
use std::test::Fail;

pub const TOP: Part = Part::Record(6, 6, b"top\0");

// The element of `top` is at 192, after the head of the library, `box`, and the records before it.
const AROUND: Around = Around {
    name: b"top",
    front: &[
        LIBRARY,
        STRUCTURE,
        Part::Record(6, 6, b"box\0"),
        Part::Bytes(&[0, 4, 8, 0, 0, 6, 0x0d, 2, 0, 49]),
        Part::Points(&[[0, 0], [1500, 0], [1500, 600], [0, 600]]),
        END_OF_ELEMENT,
        END_OF_STRUCTURE,
        STRUCTURE,
        TOP,
    ],
    end: &[END_OF_ELEMENT, END_OF_STRUCTURE, END_OF_LIBRARY],
};

pub const SREF: Part = Part::Record(10, 0, &[]);

pub const AREF: Part = Part::Record(11, 0, &[]);

pub const AT_ZERO: Part = Part::Points(&[[0, 0]]);

const OF_BOX: Part = Part::Record(0x12, 6, b"box\0");

const MIRRORED: Part = Part::Record(0x1a, 1, &[0x80, 0]);

const QUARTER: Part = Part::Record(0x1c, 5, &[0x42, 0x5a, 0, 0, 0, 0, 0, 0]);

const HALF: Part = Part::Record(0x1c, 5, &[0x42, 0xb4, 0, 0, 0, 0, 0, 0]);

const THREE_QUARTERS: Part = Part::Record(0x1c, 5, &[0x43, 0x10, 0xe0, 0, 0, 0, 0, 0]);

const SLANT: Part = Part::Record(0x1c, 5, &[0x42, 0x2d, 0, 0, 0, 0, 0, 0]);

const LONG_ONE: Part = Part::Record(0x1b, 5, &[0x42, 0x01, 0, 0, 0, 0, 0, 0]);

const TWO: Part = Part::Record(0x1b, 5, &[0x41, 0x20, 0, 0, 0, 0, 0, 0]);

// A reference to `box`, and the rectangle that it draws.
const TURNED: [(&[Part], &str); 7] = [
    (&[SREF, OF_BOX, AT_ZERO], "x1: 0, y1: 0, x2: 10, y2: 4"),
    (
        &[SREF, OF_BOX, QUARTER, AT_ZERO],
        "x1: -4, y1: 0, x2: 0, y2: 10",
    ),
    (
        &[SREF, OF_BOX, HALF, AT_ZERO],
        "x1: -10, y1: -4, x2: 0, y2: 0",
    ),
    (
        &[SREF, OF_BOX, THREE_QUARTERS, AT_ZERO],
        "x1: 0, y1: -10, x2: 4, y2: 0",
    ),
    (
        &[SREF, OF_BOX, MIRRORED, AT_ZERO],
        "x1: 0, y1: -4, x2: 10, y2: 0",
    ),
    (
        &[SREF, OF_BOX, MIRRORED, QUARTER, AT_ZERO],
        "x1: 0, y1: 0, x2: 4, y2: 10",
    ),
    (
        &[SREF, OF_BOX, LONG_ONE, AT_ZERO],
        "x1: 0, y1: 0, x2: 10, y2: 4",
    ),
];

fn is_turned(alloc: Global, elements: &[Part], sides: &str) -> Result<bool, Fail> {
    let want = format!(in alloc;
        "Ok(Shapes {{ rects: List {{ items: [Shape {{ layer: Metal1, rect: Rect {{ {sides} }} }}] }}, \
          labels: List {{ items: [] }} }})"
    )?;
    let is = is_told(alloc, &AROUND, elements, 300, want.as_str());
    drop(want);
    is
}

#[test]
fn turns_boxes(rt: HostRuntime) -> Result<(), Fail> {
    for (elements, sides) in &TURNED {
        assert!(rt; is_turned(rt.alloc(), elements, sides)?, "{sides}");
    }
    Ok(())
}

const TWO_BY_TWO: Part = Part::Record(0x13, 2, &[0, 2, 0, 2]);

const BELOW_ONE: Part = Part::Record(0x13, 2, &[0xff, 0xff, 0, 1]);

const SPREAD: &str = "Ok(Shapes { rects: List { items: [\
    Shape { layer: Metal1, rect: Rect { x1: 0, y1: 0, x2: 10, y2: 4 } }, \
    Shape { layer: Metal1, rect: Rect { x1: 20, y1: 0, x2: 30, y2: 4 } }, \
    Shape { layer: Metal1, rect: Rect { x1: 0, y1: 30, x2: 10, y2: 34 } }, \
    Shape { layer: Metal1, rect: Rect { x1: 20, y1: 30, x2: 30, y2: 34 } }] }, labels: List { items: [] } })";

// A reference, and what is read.
const REFERENCES: [(&[Part], &str); 10] = [
    (
        &[
            AREF,
            OF_BOX,
            TWO_BY_TWO,
            Part::Points(&[[0, 0], [6000, 0], [0, 9000]]),
        ],
        SPREAD,
    ),
    (
        &[
            AREF,
            OF_BOX,
            TWO_BY_TWO,
            Part::Points(&[[0, 0], [6001, 0], [0, 9000]]),
        ],
        "Err(Reference { at: 192 })",
    ),
    (
        &[AREF, OF_BOX, BELOW_ONE, Part::Points(&[[0, 0]; 3])],
        "Err(Reference { at: 192 })",
    ),
    (
        &[AREF, OF_BOX, BELOW_ONE, Part::Points(&[[300, 600]; 3])],
        "Err(Reference { at: 192 })",
    ),
    (
        &[SREF, OF_BOX, SLANT, Part::Points(&[[0, 0]])],
        "Err(Reference { at: 192 })",
    ),
    (
        &[SREF, OF_BOX, TWO, Part::Points(&[[0, 0]])],
        "Err(Reference { at: 192 })",
    ),
    (
        &[SREF, OF_BOX, MIRRORED, MIRRORED, Part::Points(&[[0, 0]])],
        "Err(Reference { at: 192 })",
    ),
    (
        &[
            SREF,
            Part::Record(0x12, 6, b"none"),
            Part::Points(&[[0, 0]]),
        ],
        "Err(Reference { at: 192 })",
    ),
    (
        &[
            SREF,
            Part::Record(0x12, 6, b"top\0"),
            Part::Points(&[[0, 0]]),
        ],
        "Err(Deep { at: 192 })",
    ),
    (
        &[SREF, OF_BOX, Part::Points(&[[75, 0]])],
        "Err(Grid { at: 112 })",
    ),
];

#[test]
fn reads_references(rt: HostRuntime) -> Result<(), Fail> {
    for (elements, want) in &REFERENCES {
        assert!(rt;
            is_told(rt.alloc(), &AROUND, elements, 300, want)?,
            "{want}"
        );
    }
    Ok(())
}
