use crate::doglegs::{DOG, MADE_DOG, ends_so, makes};
use crate::make::NAND;
use crate::setup::{INVERTER, INVERTERS, are_usage};
use cell_run::Status;
use std::test::Fail;

const CELLS: [(&str, &str, &str, &str, [usize; 2]); 4] = [
    (
        "",
        INVERTER,
        "make - c.sp inv out --taps",
        "tracks 1\nsize 41 118\nlemmas 0\n",
        [2890, 997],
    ),
    (
        "",
        NAND,
        "make - c.sp nand2 out --taps",
        "tracks 2\nsize 60 144\nlemmas 0\n",
        [3736, 1210],
    ),
    (
        "height = 130",
        INVERTER,
        "make t.toml c.sp inv out --taps",
        "tracks 1\nsize 41 130\nlemmas 0\n",
        [2890, 998],
    ),
    (
        "",
        DOG,
        "make - c.sp dog out --dogleg --taps",
        MADE_DOG,
        [5832, 2067],
    ),
];

// Twelve shapes of 64 bytes more than without the word, and the same report and abstract.
#[test]
fn makes_cells_with_taps(rt: HostRuntime) -> Result<(), Fail> {
    for (tech, spice, words, said, lengths) in &CELLS {
        let files = [*tech, *spice];
        assert!(rt;
            ends_so(rt.alloc(), words, files, Status::Done, said, *lengths)?,
            "{said}"
        );
    }
    Ok(())
}

const UNDRAWN: [(&str, &str, &str, Status, &str); 3] = [
    (
        "height = 117",
        INVERTER,
        "make t.toml c.sp inv out --taps",
        Status::TooTall,
        "status 11 tall\nneeded 118\ngiven 117\n",
    ),
    (
        "",
        DOG,
        "make - c.sp dog out --taps",
        Status::Cycle,
        "status 5 cycle\ny above x at line 4\nx above y at line 0\n",
    ),
    (
        "budget = 1",
        INVERTERS,
        "make t.toml c.sp x3 out --taps",
        Status::Unfinished,
        "status 6 unfinished\nproved 1\nlemmas 1\n",
    ),
];

// The search, the channel and the height do not look at taps.
#[test]
fn ends_as_without_taps(rt: HostRuntime) -> Result<(), Fail> {
    for (tech, spice, words, status, said) in &UNDRAWN {
        let files = [*tech, *spice];
        assert!(rt;
            ends_so(rt.alloc(), words, files, *status, said, [0, 0])?,
            "{said}"
        );
    }
    Ok(())
}

// The word asks for taps only as the last word after OUT, and in the place of OUT it is OUT.
#[test]
fn takes_taps_as_the_last_word(rt: HostRuntime) -> Result<(), Fail> {
    let alloc = rt.alloc();
    let words = [
        "make - c.sp inv o --Taps",
        "make - c.sp inv o --tap",
        "make - c.sp inv o --taps --dogleg",
        "make - c.sp inv o --taps --taps",
        "make - c.sp inv o --dogleg --taps --taps",
        "make --taps - c.sp inv o",
        "plan - c.sp inv --taps",
    ];
    assert!(rt; are_usage(alloc, &words, "o.clog")?);
    assert!(rt; makes(alloc, "make - c.sp inv --taps", "--taps.gds", 2122)?);
    assert!(rt;
        makes(
            alloc,
            "make - c.sp inv --dogleg --taps",
            "--dogleg.gds",
            2890
        )?
    );
    Ok(())
}
