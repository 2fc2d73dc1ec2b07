// Boundaries and paths with any points, and what they draw; the faults of a library.
use crate::libraries::{
    Around, END_OF_ELEMENT, END_OF_LIBRARY, END_OF_STRUCTURE, INV, LIBRARY, Part, STRUCTURE,
    is_read, is_told, library,
};
use std::alloc::Global;
use std::test::Fail;

const AROUND: Around = Around {
    name: b"inv",
    front: &[LIBRARY, STRUCTURE, INV],
    end: &[END_OF_STRUCTURE, END_OF_LIBRARY],
};

const BOUNDARY: Part = Part::Record(8, 0, &[]);

const PATH: Part = Part::Record(9, 0, &[]);

// Metal1, with a data type that is not read.
const METAL1: Part = Part::Bytes(&[0, 6, 0x0d, 2, 0, 49, 0, 6, 0x0e, 2, 0, 7]);

// The bytes of a well from (-1500, 9300) to (8100, 17700) nanometres and of the label `a` at (3300, 8100).
const BYTES: [u8; 102] = [
    0x00, 0x04, 0x08, 0x00, 0x00, 0x06, 0x0d, 0x02, 0x00, 0x2a, 0x00, 0x06, 0x0e, 0x02, 0x00, 0x00,
    0x00, 0x2c, 0x10, 0x03, 0xff, 0xff, 0xfa, 0x24, 0x00, 0x00, 0x24, 0x54, 0xff, 0xff, 0xfa, 0x24,
    0x00, 0x00, 0x45, 0x24, 0x00, 0x00, 0x1f, 0xa4, 0x00, 0x00, 0x45, 0x24, 0x00, 0x00, 0x1f, 0xa4,
    0x00, 0x00, 0x24, 0x54, 0xff, 0xff, 0xfa, 0x24, 0x00, 0x00, 0x24, 0x54, 0x00, 0x04, 0x11, 0x00,
    0x00, 0x04, 0x0c, 0x00, 0x00, 0x06, 0x0d, 0x02, 0x00, 0x31, 0x00, 0x06, 0x16, 0x02, 0x00, 0x00,
    0x00, 0x0c, 0x10, 0x03, 0x00, 0x00, 0x0c, 0xe4, 0x00, 0x00, 0x1f, 0xa4, 0x00, 0x06, 0x19, 0x06,
    0x61, 0x00, 0x00, 0x04, 0x11, 0x00,
];

// A frame: its two walks are joined by a side that is passed twice.
const RING: [[i32; 2]; 10] = [
    [0, 0],
    [0, 2],
    [2, 2],
    [2, 4],
    [4, 4],
    [4, 2],
    [0, 2],
    [0, 6],
    [6, 6],
    [6, 0],
];

const RING_READ: &str = "Ok(Shapes { rects: List { items: [\
    Shape { layer: Metal1, rect: Rect { x1: 0, y1: 0, x2: 6, y2: 2 } }, \
    Shape { layer: Metal1, rect: Rect { x1: 0, y1: 2, x2: 2, y2: 4 } }, \
    Shape { layer: Metal1, rect: Rect { x1: 4, y1: 2, x2: 6, y2: 4 } }, \
    Shape { layer: Metal1, rect: Rect { x1: 0, y1: 4, x2: 6, y2: 6 } }] }, labels: List { items: [] } })";

const BEND_READ: &str = "Ok(Shapes { rects: List { items: [\
    Shape { layer: Metal1, rect: Rect { x1: -2, y1: -2, x2: 12, y2: 2 } }, \
    Shape { layer: Metal1, rect: Rect { x1: 8, y1: -2, x2: 12, y2: 12 } }] }, labels: List { items: [] } })";

const ODD_READ: &str = "Ok(Shapes { rects: List { items: [\
    Shape { layer: Metal1, rect: Rect { x1: 0, y1: -3, x2: 20, y2: 3 } }] }, labels: List { items: [] } })";

const BYTES_READ: &str = "Ok(Shapes { rects: List { items: [\
    Shape { layer: Well, rect: Rect { x1: -10, y1: 62, x2: 54, y2: 118 } }] }, \
    labels: List { items: [Label { layer: Metal1, x: 22, y: 54, name: List { items: [97] } }] } })";

// The elements of a structure, a lambda in nanometres, and what is read.
const ELEMENTS: [(&[Part], u32, &str); 9] = [
    (&[Part::Bytes(&BYTES)], 300, BYTES_READ),
    (&[Part::Bytes(&BYTES)], 280, "Err(Grid { at: 118 })"),
    (
        &[BOUNDARY, METAL1, Part::Points(&RING), END_OF_ELEMENT],
        2,
        RING_READ,
    ),
    (
        &[
            PATH,
            METAL1,
            Part::Record(0x21, 2, &[0, 2]),
            Part::Record(0x0f, 3, &[0xff, 0xff, 0xff, 0xfc]),
            Part::Points(&[[0, 0], [10, 0], [10, 10]]),
            END_OF_ELEMENT,
        ],
        2,
        BEND_READ,
    ),
    (
        &[
            PATH,
            METAL1,
            Part::Record(0x21, 2, &[0, 0]),
            Part::Record(0x0f, 3, &[0, 0, 0, 3]),
            Part::Points(&[[0, 0], [10, 0]]),
            END_OF_ELEMENT,
        ],
        1,
        ODD_READ,
    ),
    (
        &[
            BOUNDARY,
            METAL1,
            Part::Points(&[[0, 0], [0, 4], [2, 4]]),
            END_OF_ELEMENT,
        ],
        2,
        "Err(Slant { at: 118 })",
    ),
    (
        &[
            PATH,
            METAL1,
            Part::Record(0x21, 2, &[0, 1]),
            Part::Record(0x0f, 3, &[0, 0, 0, 2]),
            Part::Points(&[[0, 0], [3, 4]]),
            END_OF_ELEMENT,
        ],
        2,
        "Err(Kind { at: 118, code: 33 })",
    ),
    (
        &[
            PATH,
            METAL1,
            Part::Record(0x21, 2, &[0, 2]),
            Part::Record(0x0f, 3, &[0x80, 0, 0, 0]),
            Part::Points(&[[0, 0], [i32::MAX, 0]]),
            END_OF_ELEMENT,
        ],
        2,
        "Err(Grid { at: 132 })",
    ),
    // The structure and its end a second time.
    (
        &[END_OF_STRUCTURE, STRUCTURE, INV],
        300,
        "Err(Twice { name: List { items: [105, 110, 118] } })",
    ),
];

#[test]
fn reads_elements(rt: HostRuntime) -> Result<(), Fail> {
    for (elements, lambda_nm, want) in &ELEMENTS {
        assert!(rt;
            is_told(rt.alloc(), &AROUND, elements, *lambda_nm, want)?,
            "{want}"
        );
    }
    Ok(())
}

// Whether this is printed of the front of the library of the well and the label with one byte changed.
fn is_changed(alloc: Global, at: usize, value: u8, len: usize, want: &str) -> Result<bool, Fail> {
    let mut bytes = library(alloc, &AROUND, &[Part::Bytes(&BYTES)])?;
    if let Some(byte) = bytes.get_mut(at) {
        *byte = value;
    }
    let is = is_read(alloc, bytes.get(..len).unwrap_or(&[]), b"inv", 300, want);
    drop(bytes);
    Ok(is?)
}

// A place, the byte there, how many bytes there are, and the fault.
const CHANGED: [(usize, u8, usize, &str); 8] = [
    (58, 0xb9, 212, "Err(Unit { picometres: 0 })"),
    (99, 0x6d, 212, "Err(NoCell)"),
    (104, 0x11, 212, "Err(Order { at: 102, code: 17 })"),
    (104, 0x0b, 212, "Err(Reference { at: 102 })"),
    (105, 2, 212, "Err(Kind { at: 102, code: 8 })"),
    (107, 7, 212, "Err(Length { at: 106 })"),
    (210, 1, 212, "Err(Order { at: 208, code: 1 })"),
    (0, 0, 210, "Err(Cut { at: 208 })"),
];

#[test]
fn refuses_changed_bytes(rt: HostRuntime) -> Result<(), Fail> {
    for (at, value, len, want) in &CHANGED {
        assert!(rt; is_changed(rt.alloc(), *at, *value, *len, want)?, "{want}");
    }
    Ok(())
}
