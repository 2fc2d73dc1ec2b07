// Structures that refer to others in a chain, and to many copies.
use crate::libraries::{
    Around, END_OF_ELEMENT, END_OF_LIBRARY, END_OF_STRUCTURE, LIBRARY, Part, STRUCTURE, is_read,
    library, put_all, put_record,
};
use crate::references::{AREF, AT_ZERO, SREF, TOP};
use std::alloc::Global;
use std::test::Fail;

const LINK_END: [Part; 3] = [AT_ZERO, END_OF_ELEMENT, END_OF_STRUCTURE];

// A structure with a reference to the one of the next letter.
fn put_link(out: &mut Vec<u8>, letter: u8) -> Result<(), Fail> {
    put_all(out, &[STRUCTURE])?;
    put_record(out, 6, 6, &[letter, 0])?;
    put_all(out, &[SREF])?;
    put_record(out, 0x12, 6, &[letter.wrapping_add(1), 0])?;
    put_all(out, &LINK_END)
}

const LAST: [Part; 4] = [
    STRUCTURE,
    Part::Record(6, 6, b"q\0"),
    END_OF_STRUCTURE,
    END_OF_LIBRARY,
];

// The structures from `a` to `q`. Each refers to the next one, and the last is empty.
fn put_chain(out: &mut Vec<u8>) -> Result<(), Fail> {
    for letter in b'a'..b'q' {
        put_link(out, letter)?;
    }
    put_all(out, &LAST)
}

const AROUND: Around = Around {
    name: b"top",
    front: &[LIBRARY, STRUCTURE, TOP],
    end: &[END_OF_STRUCTURE],
};

// Whether this is printed of `top` with these elements, before such a chain.
fn is_chained(alloc: Global, elements: &[Part], want: &str) -> Result<bool, Fail> {
    let mut bytes = library(alloc, &AROUND, elements)?;
    put_chain(&mut bytes)?;
    let is = is_read(alloc, &bytes, b"top", 300, want);
    drop(bytes);
    Ok(is?)
}

const COPIES_AT_ZERO: Part = Part::Points(&[[0, 0]; 3]);

const OF_A: Part = Part::Record(0x12, 6, b"a\0");

const OF_Q: Part = Part::Record(0x12, 6, b"q\0");

// 1,000 columns and 999 rows; then 8 columns and some rows.
const MANY: Part = Part::Record(0x13, 2, &[3, 0xe8, 3, 0xe7]);

const MORE: Part = Part::Record(0x13, 2, &[0, 8, 0, 123]);

const ONE_MORE: Part = Part::Record(0x13, 2, &[0, 8, 0, 124]);

// From `b` on the references are nested 16 deep, from `a` on 17. 999,000 copies of an empty structure and 8 rows more
// leave room for 16 references or fewer: the seventeenth is too deep before it is one too many.
const CHAINS: [(&[Part], &str); 4] = [
    (
        &[SREF, Part::Record(0x12, 6, b"b\0"), AT_ZERO, END_OF_ELEMENT],
        "Ok(Shapes { rects: List { items: [] }, labels: List { items: [] } })",
    ),
    (
        &[SREF, OF_A, AT_ZERO, END_OF_ELEMENT],
        "Err(Deep { at: 102 })",
    ),
    (
        &[
            AREF,
            OF_Q,
            MANY,
            COPIES_AT_ZERO,
            END_OF_ELEMENT,
            AREF,
            OF_Q,
            MORE,
            COPIES_AT_ZERO,
            END_OF_ELEMENT,
            SREF,
            OF_A,
            AT_ZERO,
            END_OF_ELEMENT,
        ],
        "Err(Deep { at: 202 })",
    ),
    (
        &[
            AREF,
            OF_Q,
            MANY,
            COPIES_AT_ZERO,
            END_OF_ELEMENT,
            AREF,
            OF_Q,
            ONE_MORE,
            COPIES_AT_ZERO,
            END_OF_ELEMENT,
            SREF,
            OF_A,
            AT_ZERO,
            END_OF_ELEMENT,
        ],
        "Err(Wide { at: 202 })",
    ),
];

#[test]
fn reads_chains_of_references(rt: HostRuntime) -> Result<(), Fail> {
    for (elements, want) in &CHAINS {
        assert!(rt; is_chained(rt.alloc(), elements, want)?, "{want}");
    }
    Ok(())
}
