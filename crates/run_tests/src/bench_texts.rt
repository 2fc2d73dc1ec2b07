use crate::calls::mark;
use bench_command::bench_text;
use cell_num::NoMemory;
use std::alloc::Global;
use std::test::Fail;

const FIRST: &[u8] = b".SUBCKT c0 i0 s1 o1 vdd gnd
M0 o0 i0 vdd vdd p W=3u L=0.6u
M1 o0 i0 gnd gnd n W=1.5u L=0.6u
M2 o1 o0 vdd vdd p W=3u L=0.6u
M3 o1 s1 vdd vdd p W=3u L=0.6u
M4 o1 o0 t1 gnd n W=1.5u L=0.6u
M5 t1 s1 gnd gnd n W=1.5u L=0.6u
.ENDS
";

fn is_first(alloc: Global) -> Result<bool, NoMemory> {
    Ok(bench_text(alloc, 1)?.as_slice() == FIRST)
}

// The length and the sum of what another program wrote by the same rules.
fn are_all(alloc: Global) -> Result<bool, NoMemory> {
    let text = bench_text(alloc, 200)?;
    Ok(mark(&text) == (82_518, 4_129_721_220))
}

#[test]
fn writes_cells(rt: HostRuntime) -> Result<(), Fail> {
    assert!(rt; is_first(rt.alloc())?);
    assert!(rt; are_all(rt.alloc())?);
    Ok(())
}
