// Macros read from LEF texts; the grid unit is 150 nm.
use crate::texts::prints;
use cell_num::copy;
use lef_read::{LefFault, Macro, read_macro};
use std::alloc::{AllocError, Global};
use std::test::Fail;

// It has no clauses, so that the reader's stay out of the tests' proofs.
fn read(alloc: Global, text: &[u8]) -> Result<Macro, LefFault> {
    let name = copy(alloc, b"inv")?;
    read_macro(alloc, &text[..text.len().min(2000)], &name, 150)
}

// Whether this is printed of the macro of a text.
fn is_read(alloc: Global, text: &[u8], want: &str) -> Result<bool, AllocError> {
    prints(alloc, &read(alloc, text), want)
}

// Forms of words and numbers, and what is passed over.
const FORMS: &[u8] = b"units end ; units end end UNITS
version \"a
;\" ; # MACRO inv
macro inv
size -6.150 by .5 ; origin -0 .0 ; property p \"; END inv\" ;
pin END class core ; END END
OBS
LAYER METAL2 ; RECT -.30 -0 0000.1500 6. ; LAYER poly ; RECT 0 0 0.1 0.1 ;
END
END inv
MACRO inv PIN a END a END inv
END LIBRARY x \" ; #";

// Its pin `END` without a port, and its obstruction.
const READ: &str = "Ok(Macro { name: List { items: [105, 110, 118] }, \
    pins: List { items: [LefPin { name: List { items: [69, 78, 68] }, ports: List { items: [] } }] }, \
    obstructions: List { items: [LefRect { layer: Metal2, rect: Rect { x1: -2, y1: 0, x2: 1, y2: 40 } }] } })";

const TEXTS: [(&[u8], &str); 14] = [
    (FORMS, READ),
    (
        b"MACRO inv\nDENSITY 1 ;\nEND inv\n",
        "Err(Statement { line: 2 })",
    ),
    (b"MACRO inv\nEND INV\n", "Err(Statement { line: 2 })"),
    (b"MACRO inv\nORIGIN 0 1 ;\n", "Err(Statement { line: 2 })"),
    (
        b"MACRO inv\nOBS\nRECT 0 0 1 1 ;\n",
        "Err(Statement { line: 3 })",
    ),
    (
        b"MACRO inv\nOBS\nLAYER metal1 ;\nRECT 0 0 0.3\n;\n",
        "Err(Statement { line: 5 })",
    ),
    (
        b"MACRO inv\nSIZE 1000000.001 BY 1 ;\n",
        "Err(Number { line: 2 })",
    ),
    (
        b"MACRO inv\nOBS\nLAYER metal1 ;\nRECT 0 0 1\n2.7001 ;\n",
        "Err(Number { line: 5 })",
    ),
    (
        b"MACRO inv\nOBS\nLAYER metal1 ;\nRECT\n3 0 1 1",
        "Err(Number { line: 4 })",
    ),
    (b"", "Err(NoMacro)"),
    (b"MACRO inw\nEND inw\n", "Err(NoMacro)"),
    (b"MACRO inv\nPIN a\nUSE \"POWER ;\n", "Err(Cut)"),
    (
        b"MACRO inv\nOBS\nLAYER metal1 ;\nRECT\n0 0 0.3 0.2 ;\nEND\n",
        "Err(Cut)",
    ),
    (
        b"MACRO inv\nOBS\nLAYER metal1 ;\nRECT\n0 0 0.3 0.2 ;\nEND\nEND inv\n",
        "Err(Grid { line: 4 })",
    ),
];

#[test]
fn reads_macros(rt: HostRuntime) -> Result<(), Fail> {
    for (text, want) in &TEXTS {
        assert!(rt; is_read(rt.alloc(), text, want)?, "{want}");
    }
    Ok(())
}
