use crate::extract::{inverter, put_box, says, says_to};
use crate::setup::are_usage;
use cell_run::Status;
use std::alloc::Global;
use std::test::Fail;

const WORDS: &str = "extract - f.gds inv --taps";

// The first records of a rectangle on a layer.
const fn on(layer: u8) -> [u8; 16] {
    [0, 4, 8, 0, 0, 6, 13, 2, 0, layer, 0, 6, 14, 2, 0, 0]
}

// The well and the taps of the inverter, as another program draws them: the layer, and two corners in nanometres.
const TAPS: [(u8, [i32; 2], [i32; 2]); 13] = [
    (42, [-1_500, 9_300], [7_650, 18_300]),
    (43, [450, 450], [1_950, 1_950]),
    (44, [-150, -150], [2_550, 2_550]),
    (25, [900, 900], [1_500, 1_500]),
    (43, [450, 15_750], [1_950, 17_250]),
    (45, [-150, 15_150], [2_550, 17_850]),
    (25, [900, 16_200], [1_500, 16_800]),
    (43, [4_200, 450], [5_700, 1_950]),
    (44, [3_600, -150], [6_300, 2_550]),
    (25, [4_650, 900], [5_250, 1_500]),
    (43, [4_200, 15_750], [5_700, 17_250]),
    (45, [3_600, 15_150], [6_300, 17_850]),
    (25, [4_650, 16_200], [5_250, 16_800]),
];

const PLAIN: &str = "status 7 rejected\nviolation 2.3 at 3 110\nviolation 4.2 at 3 3\n";

const N_DEVICE: &str = "device 0 n gate a ends gnd y width 10 length 4 body ";

const P_DEVICE: &str = "\ndevice 1 p gate a ends y vdd width 20 length 4 body ";

const NETS: &str = "status 0 ok
cell inv
nets 4
devices 2
net 0 gnd
net 1 a
net 2 y
net 3 vdd
";

fn add_tapped(out: &mut Vec<u8>, made: &[u8]) -> Result<(), Fail> {
    let Some((front, end)) = made.split_at_checked(2114) else {
        return Err(Fail::from("no inverter"));
    };
    out.extend_from_slice(front)?;
    for (layer, low, high) in &TAPS {
        put_box(out, &on(*layer), *low, *high)?;
    }
    Ok(out.extend_from_slice(end)?)
}

// Whether these bodies of the N and of the P device are reported.
fn has_bodies(alloc: Global, bytes: &[u8], n: &str, p: &str) -> Result<bool, Fail> {
    let said = [NETS, N_DEVICE, n, P_DEVICE, p, "\n"];
    says_to(alloc, WORDS, bytes, Status::Done, &said)
}

fn is_told(alloc: Global, tapped: &[u8]) -> Result<bool, Fail> {
    Ok(has_bodies(alloc, tapped, "gnd", "vdd")? && says(alloc, tapped, Status::Rejected, &[PLAIN])?)
}

// With taps a cell has bodies, and breaks rules of the plain deck. A device without taps has no body.
fn is_tapped(alloc: Global, made: &[u8]) -> Result<bool, Fail> {
    let mut tapped = Vec::new(alloc);
    add_tapped(&mut tapped, made)?;
    let is = is_told(alloc, &tapped);
    drop(tapped);
    is
}

fn has_all(alloc: Global, made: &[u8]) -> Result<bool, Fail> {
    Ok(has_bodies(alloc, made, "-", "-")? && is_tapped(alloc, made)?)
}

// Bodies are reported only with the word.
#[test]
fn tells_bodies(rt: HostRuntime) -> Result<(), Fail> {
    let alloc = rt.alloc();
    let made = inverter(alloc)?;
    let is = has_all(alloc, &made);
    drop(made);
    assert!(rt; is?);
    assert!(rt;
        says_to(
            alloc,
            WORDS,
            &[],
            Status::Layout,
            &["status 9 layout\ngds Cut at 0\n"]
        )?
    );
    Ok(())
}

// The word follows CELL, once, and taps are no word of another form.
#[test]
fn takes_taps_after_the_cell(rt: HostRuntime) -> Result<(), Fail> {
    let words = [
        "extract - f.gds inv --taps --taps",
        "extract - f.gds inv --dogleg",
        "extract --taps - f.gds inv",
        "plan - c.sp inv --taps",
    ];
    assert!(rt; are_usage(rt.alloc(), &words, "f.clog")?);
    Ok(())
}
