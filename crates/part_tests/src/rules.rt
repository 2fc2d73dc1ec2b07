use crate::drawings::{Sides, shapes_of};
use crate::texts::prints;
use box_geom::{Layer, Shapes};
use scmos_rules::{Rules, violations};
use std::alloc::{AllocError, Global};
use std::test::Fail;

fn prints_broken(
    alloc: Global,
    shapes: &Shapes,
    rules: &Rules,
    want: &str,
) -> Result<bool, AllocError> {
    prints(alloc, &violations(alloc, shapes, rules), want)
}

// Whether this is printed of the rules that the shapes break.
fn breaks(
    alloc: Global,
    rules: &Rules,
    table: &[(Layer, Sides)],
    want: &str,
) -> Result<bool, Fail> {
    let shapes = shapes_of(alloc, table)?;
    let are = prints_broken(alloc, &shapes, rules, want);
    drop(shapes);
    Ok(are?)
}

const BAR: (Layer, Sides) = (Layer::Metal1, [0, 0, 10, 10]);

// A tap of the substrate, and a well whose left side is at a column.
const fn beside_well(column: i32) -> [(Layer, Sides); 3] {
    [
        (Layer::Active, [0, 0, 6, 6]),
        (Layer::PSelect, [-4, -4, 10, 10]),
        (Layer::Well, [column, -20, 60, 30]),
    ]
}

const NONE: &str = "Ok(List { items: [] })";

// Two bars of metal1 at two distances, and a via of a wrong size in the corner of the first.
const PLAIN: [([(Layer, Sides); 2], &str); 3] = [
    (
        [BAR, (Layer::Metal1, [14, 0, 24, 10])],
        "Ok(List { items: [Violation { rule: N7_2, x: 8, y: 0 }] })",
    ),
    ([BAR, (Layer::Metal1, [16, 0, 26, 10])], NONE),
    (
        [BAR, (Layer::Via, [0, 0, 4, 5])],
        "Ok(List { items: [Violation { rule: N8_1, x: 0, y: 0 }, Violation { rule: N8_3, x: 0, y: 0 }, \
          Violation { rule: N9_3, x: 0, y: 0 }] })",
    ),
];

// The tap 5 units from the well, and 6.
const TAPS: [(i32, &str); 2] = [
    (
        11,
        "Ok(List { items: [Violation { rule: N2_4, x: 5, y: 0 }] })",
    ),
    (12, NONE),
];

#[test]
fn rules_broken(rt: HostRuntime) -> Result<(), Fail> {
    for (table, want) in &PLAIN {
        assert!(rt;
            breaks(rt.alloc(), &Rules::profile(), table, want)?,
            "{want}"
        );
    }
    for (column, want) in &TAPS {
        let table = beside_well(*column);
        assert!(rt;
            breaks(rt.alloc(), &Rules::with_taps(), &table, want)?,
            "{want}"
        );
    }
    Ok(())
}
