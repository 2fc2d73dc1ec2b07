// Cells with gates that pair in too many ways, whichever half columns stay open: fingers are left out.
use crate::calls::{End, Left, Said, ends};
use crate::setup::inputs;
use cell_run::Status;
use std::alloc::Global;
use std::test::Fail;

// With the fingers of one row left out one column is lost: no gap is proved, and the row has none.
const ROW: End = End {
    status: Status::Done,
    said: Said::First("status 0 ok\ncell many\ncolumns 16\ngaps 0\nwidth 16\n"),
    files: &[],
};

const LEMMAS: End = End {
    status: Status::Done,
    said: Said::Last("lemmas 2\nfilled 0\n"),
    files: &[],
};

const IN_VAIN_TRAILS: &[u8] = b"cellgen-trails 3
without N 0
cellgen-trails 2
cell many
fill -
order 0
lemma 3 0 - - -
open
end
";

// With the fingers of one row left out, one gap is proved of the two.
const IN_VAIN: End = End {
    status: Status::Unfinished,
    said: Said::Whole(&["status 6 unfinished\nproved 1\nlemmas 1\n"]),
    files: &[
        ("out.ctrail", Left::Bytes(IN_VAIN_TRAILS)),
        ("out.clog", Left::Nothing),
        ("out.gds", Left::Nothing),
        ("out.lef", Left::Nothing),
    ],
};

// A check looks at such a gate before the lemmas and the row.
const CROWDED_TRAILS: &str = "cellgen-trails 1\ncell many\nfill -\norder 0\nopen\nend\n";

const REFUSED: End = End {
    status: Status::Rejected,
    said: Said::Whole(&["status 7 rejected\ntrails Choices gate g\n"]),
    files: &[],
};

// A gate of seven different fingers over seven: after its fifth column 7! / 2! * 2^5 = 80,640 ways to pair them. P
// fingers follow each other three and four in a row, N fingers two and five. So each row alone has one gap, and both
// have two.
fn put_crowded(alloc: Global, text: &mut String) -> Result<(), Fail> {
    text.push_str(".SUBCKT many g vdd gnd\n")?;
    for at in 0..7u32 {
        let (p, n) = (at + u32::from(at > 2), at + u32::from(at > 1));
        let (q, m) = (p + 1, n + 1);
        let pair = format!(in alloc;
            "MP{at} p{p} g p{q} vdd p W=3u L=0.6u\nMN{at} n{n} g n{m} gnd n W=3u L=0.6u\n"
        )?;
        text.push_str(pair.as_str())?;
    }
    Ok(text.push_str(".ENDS\n")?)
}

// A gate of eight different P fingers over seven N fingers, and one of seven over eight. Each row of a gate is a chain.
fn put_two_crowded(alloc: Global, text: &mut String) -> Result<(), Fail> {
    text.push_str(".SUBCKT many g h vdd gnd\n")?;
    for at in 0..8u32 {
        let end = at + 1;
        let long = format!(in alloc;
            "MPg{at} pg{at} g pg{end} vdd p W=3u L=0.6u\nMNh{at} nh{at} h nh{end} gnd n W=3u L=0.6u\n"
        )?;
        text.push_str(long.as_str())?;
    }
    for at in 0..7u32 {
        let end = at + 1;
        let short = format!(in alloc;
            "MNg{at} ng{at} g ng{end} gnd n W=3u L=0.6u\nMPh{at} ph{at} h ph{end} vdd p W=3u L=0.6u\n"
        )?;
        text.push_str(short.as_str())?;
    }
    Ok(text.push_str(".ENDS\n")?)
}

fn ends_over(alloc: Global, words: &str, spice: &str, end: &End) -> Result<bool, Fail> {
    let given = inputs(["", spice, CROWDED_TRAILS]);
    ends(alloc, words, &given, &[], end)
}

// Whether a call over the cell with one such gate ends so.
fn is_crowded(alloc: Global, words: &str, end: &End) -> Result<bool, Fail> {
    let mut spice = String::new(alloc);
    put_crowded(alloc, &mut spice)?;
    let is = ends_over(alloc, words, &spice, end);
    drop(spice);
    is
}

// Whether a call over the cell with two ends so.
fn are_crowded(alloc: Global, words: &str, end: &End) -> Result<bool, Fail> {
    let mut spice = String::new(alloc);
    put_two_crowded(alloc, &mut spice)?;
    let are = ends_over(alloc, words, &spice, end);
    drop(spice);
    are
}

#[test]
fn makes_the_certificate_of_what_is_proved_in_vain(rt: HostRuntime) -> Result<(), Fail> {
    let words = "make - c.sp many out --trails";
    assert!(rt; is_crowded(rt.alloc(), words, &IN_VAIN)?);
    Ok(())
}

#[test]
fn plans_a_row_of_two_crowded_gates(rt: HostRuntime) -> Result<(), Fail> {
    let words = "plan - c.sp many --trails";
    assert!(rt; are_crowded(rt.alloc(), words, &ROW)?);
    assert!(rt; are_crowded(rt.alloc(), words, &LEMMAS)?);
    Ok(())
}

#[test]
fn checks_up_to_a_crowded_gate(rt: HostRuntime) -> Result<(), Fail> {
    let words = "check - c.sp many l.clog --trails";
    assert!(rt; is_crowded(rt.alloc(), words, &REFUSED)?);
    Ok(())
}
