use cell_num::{Fixed, copy, lower, snap};
use std::test::Fail;

const LENGTHS: [(u64, i8, Option<u32>); 10] = [
    (3, -6, Some(20)),
    (1575, -9, Some(11)),
    (825, -9, Some(6)),
    (75, -8, Some(5)),
    (15, -3, Some(100_000)),
    (15_000_074_999, -12, Some(100_000)),
    (15_000_075, -9, None),
    (1, 60, None),
    (u64::MAX, -60, Some(0)),
    (0, 127, Some(0)),
];

fn snaps(digits: u64, ten: i8, units: Option<u32>) -> bool {
    snap(&Fixed { digits, ten }, 150_000) == units
}

#[test]
fn snaps_to_the_nearest_unit(rt: HostRuntime) -> Result<(), Fail> {
    for (digits, ten, units) in &LENGTHS {
        assert!(rt; snaps(*digits, *ten, *units), "at {digits}e{ten}");
    }
    Ok(())
}

#[test]
fn copies_names(rt: HostRuntime) -> Result<(), Fail> {
    let name = copy(rt.alloc(), b"Vdd")?;
    assert_eq!(rt; name.as_slice(), b"Vdd".as_slice());
    let name = lower(rt.alloc(), b"N1_X$")?;
    assert_eq!(rt; name.as_slice(), b"n1_x$".as_slice());
    Ok(())
}
