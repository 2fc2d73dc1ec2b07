// Numbers of a SPICE text.
use cell_num::Fixed;
use spice_text::read_fixed;
use std::test::Fail;

const NUMBERS: [(&[u8], u64, i8); 16] = [
    (b"3u", 3, -6),
    (b"0.6u", 6, -7),
    (b"600N", 6, -7),
    (b"1.5UM", 15, -7),
    (b"1.5E-6", 15, -7),
    (b".5", 5, -1),
    (b"5.", 5, 0),
    (b"1Meg", 1, 6),
    (b"1m", 1, -3),
    (b"1x", 1, 0),
    (b"1e", 1, 0),
    (b"1e5u", 1, -1),
    (b"007.500", 75, -1),
    (b"0e99", 0, 0),
    (b"123456789012345678", 123456789012345678, 0),
    (b"10e59", 1, 60),
];

const NO_NUMBERS: [&[u8]; 9] = [
    b"1MILS",
    b"1e+",
    b"1e100",
    b"1234567890123456789",
    b"1e61",
    b"-1",
    b"1.2.3",
    b"u",
    b"",
];

fn reads_as(word: &[u8], want: Option<Fixed>) -> bool {
    read_fixed(word) == want
}

#[test]
fn reads_numbers(rt: HostRuntime) -> Result<(), Fail> {
    for (word, digits, ten) in &NUMBERS {
        let want = Fixed {
            digits: *digits,
            ten: *ten,
        };
        assert!(rt; reads_as(word, Some(want)));
    }
    for word in &NO_NUMBERS {
        assert!(rt; reads_as(word, None));
    }
    Ok(())
}
