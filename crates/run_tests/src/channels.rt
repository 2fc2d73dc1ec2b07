use crate::rows::ends_so;
use cell_run::Status;
use std::alloc::Global;
use std::test::Fail;

// Cells are 298 high. The N edge of each is 24 and its N finger above the lower end, its P edge 24 and its P finger
// below the upper end.
const TECH: &str = "wmax_p = 200\nwmax_n = 200\nheight = 298";

// Cells of a wide P finger, or of a wide N finger: 200 units each; then 113, 113 and 114.
const WIDE: &str = ".SUBCKT pw a y vdd gnd
MP y a vdd vdd p W=30u L=0.6u
MN y a gnd gnd n W=1.5u L=0.6u
.ENDS
.SUBCKT nw a y vdd gnd
MP y a vdd vdd p W=1.5u L=0.6u
MN y a gnd gnd n W=30u L=0.6u
.ENDS
.SUBCKT p113 a y vdd gnd
MP y a vdd vdd p W=16.95u L=0.6u
MN y a gnd gnd n W=1.5u L=0.6u
.ENDS
.SUBCKT n113 a y vdd gnd
MP y a vdd vdd p W=1.5u L=0.6u
MN y a gnd gnd n W=16.95u L=0.6u
.ENDS
.SUBCKT n114 a y vdd gnd
MP y a vdd vdd p W=1.5u L=0.6u
MN y a gnd gnd n W=17.1u L=0.6u
.ENDS
";

const ROW: &str = "status 0 ok\ncell top\ncells 2\nsize 82 298\n";

const NO_ROW: &str = "status 12 row\nrow Channel left 0 right 1\n";

// Two of them, the end, and the length of the library. Between the N edge and the P edge are 24 of the cells of 113,
// and 23 where one is of 114.
const CALLS: [(&str, Status, &str, usize); 6] = [
    ("row t.toml c.sp out top pw nw", Status::Row, NO_ROW, 0),
    ("row t.toml c.sp out top nw pw", Status::Row, NO_ROW, 0),
    ("row t.toml c.sp out top n113 p113", Status::Done, ROW, 4510),
    ("row t.toml c.sp out top p113 n113", Status::Done, ROW, 4510),
    ("row t.toml c.sp out top n114 p113", Status::Row, NO_ROW, 0),
    ("row t.toml c.sp out top p113 n114", Status::Row, NO_ROW, 0),
];

fn are_ended(alloc: Global) -> Result<bool, Fail> {
    for (words, status, said, len) in &CALLS {
        if !ends_so(alloc, [TECH, WIDE], words, *status, said, *len)? {
            return Ok(false);
        }
    }
    Ok(true)
}

// The N edge of one of two neighbours has to be 24 below the P edge of the other, whichever is the left one.
#[test]
fn keeps_a_channel_between_cells(rt: HostRuntime) -> Result<(), Fail> {
    assert!(rt; are_ended(rt.alloc())?);
    Ok(())
}
