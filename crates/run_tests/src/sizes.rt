// Rows of 32 columns, and a log of many blocks.
use crate::calls::{End, Left, Said, call, desk_of, ends, made_file, mark};
use crate::setup::inputs;
use cell_io::MemDesk;
use cell_run::Status;
use std::alloc::Global;
use std::test::Fail;

fn mark_of(file: Option<&[u8]>) -> (usize, u32) {
    mark(file.unwrap_or(&[]))
}

fn are_marks(desk: &MemDesk, want: &[(usize, u32); 4]) -> bool {
    mark(desk.all_said()) == want[0]
        && mark_of(desk.file("out.clog")) == want[1]
        && mark_of(desk.file("out.gds")) == want[2]
        && mark_of(desk.file("out.lef")) == want[3]
}

fn is_marked(
    alloc: Global,
    words: &str,
    desk: &mut MemDesk,
    want: &[(usize, u32); 4],
) -> Result<bool, Fail> {
    let status = call(alloc, words, desk)?;
    Ok(status == Status::Done && are_marks(desk, want))
}

// Whether a cell is made, with these lengths and sums of what is said, its log, its drawing and its abstract.
fn is_made(
    alloc: Global,
    spice: &str,
    words: &str,
    want: &[(usize, u32); 4],
) -> Result<bool, Fail> {
    let mut desk = desk_of(alloc, &inputs(["", spice, ""]), &[])?;
    let is = is_marked(alloc, words, &mut desk, want);
    drop(desk);
    is
}

// An inverter of 32 fingers in each row.
const WIDE: &str = ".SUBCKT inv a y vdd gnd
MP y a vdd vdd p W=192u L=0.6u
MN y a gnd gnd n W=192u L=0.6u
.ENDS
";

// 32 gates, each between nets of its own: 162 nets with the rails.
fn put_gates(alloc: Global, text: &mut String) -> Result<(), Fail> {
    text.push_str(".subckt far vdd gnd\n")?;
    for gate in 0..32u32 {
        let pair = format!(in alloc;
            "mp{gate} a{gate} g{gate} b{gate} vdd p w=3u l=0.6u\nmn{gate} c{gate} g{gate} d{gate} gnd n w=1.5u l=0.6u\n"
        )?;
        text.push_str(&pair)?;
    }
    Ok(text.push_str(".ends\n")?)
}

const WIDE_MARKS: [(usize, u32); 4] = [
    (1317, 1_195_944_049),
    (578, 2_414_613_192),
    (29_066, 1_831_125_420),
    (4626, 2_140_104_770),
];

const FAR_MARKS: [(usize, u32); 4] = [
    (1462, 4_094_997_122),
    (5089, 4_019_103_432),
    (12_954, 2_044_628_244),
    (478, 1_516_003_034),
];

fn is_far(alloc: Global) -> Result<bool, Fail> {
    let mut far = String::new(alloc);
    put_gates(alloc, &mut far)?;
    let is = is_made(alloc, &far, "make - c.sp far out", &FAR_MARKS);
    drop(far);
    is
}

// The lengths and the sums of what another program said and wrote.
#[test]
fn makes_long_rows(rt: HostRuntime) -> Result<(), Fail> {
    assert!(rt; is_made(rt.alloc(), WIDE, "make - c.sp inv out", &WIDE_MARKS)?);
    assert!(rt; is_far(rt.alloc())?);
    Ok(())
}

const FLIP_FLOP: &str = ".subckt dff d clk q vdd gnd
mp1 ck clk vdd vdd pmos w=3u l=0.6u
mn1 ck clk gnd gnd nmos w=1.5u l=0.6u
mp2 p2 d vdd vdd pmos w=3u l=0.6u
mp3 m clk p2 vdd pmos w=3u l=0.6u
mn2 n2 d gnd gnd nmos w=1.5u l=0.6u
mn3 m ck n2 gnd nmos w=1.5u l=0.6u
mp4 mb m vdd vdd pmos w=3u l=0.6u
mn4 mb m gnd gnd nmos w=1.5u l=0.6u
mp5 p5 mb vdd vdd pmos w=0.9u l=0.6u
mp6 m ck p5 vdd pmos w=0.9u l=0.6u
mn5 n5 mb gnd gnd nmos w=0.9u l=0.6u
mn6 m clk n5 gnd nmos w=0.9u l=0.6u
mp7 p7 mb vdd vdd pmos w=3u l=0.6u
mp8 s ck p7 vdd pmos w=3u l=0.6u
mn7 n7 mb gnd gnd nmos w=1.5u l=0.6u
mn8 s clk n7 gnd nmos w=1.5u l=0.6u
mp9 q s vdd vdd pmos w=6u l=0.6u
mn9 q s gnd gnd nmos w=3u l=0.6u
mpa pa q vdd vdd pmos w=0.9u l=0.6u
mpb s clk pa vdd pmos w=0.9u l=0.6u
mna na q gnd gnd nmos w=0.9u l=0.6u
mnb s ck na gnd nmos w=0.9u l=0.6u
mpc qb q vdd vdd pmos w=3u l=0.6u
mnc qb q gnd gnd nmos w=1.5u l=0.6u
.ends
";

const SPENT: End = End {
    status: Status::Unfinished,
    said: Said::Whole(&["status 6 unfinished\nproved 3\nlemmas 109995\n"]),
    files: &[("out.clog", Left::Length(6_927_694))],
};

const UNSAID: End = End {
    status: Status::WriteFault,
    said: Said::Whole(&[]),
    files: &[("out.clog", Left::Length(6_927_694))],
};

const LOG_MARK: (usize, u32) = (6_927_694, 175_739_399);

// The log of the flip-flop's search with a budget of 110,000 nodes, where a call of the desk fails and it ends so.
fn long_log(alloc: Global, failing: u64, end: &End) -> Result<Vec<u8>, Fail> {
    let given = inputs(["budget = 110000\n", FLIP_FLOP, ""]);
    made_file(
        alloc,
        "make t.toml c.sp dff out",
        &given,
        &[failing],
        end,
        "out.clog",
    )
}

// Whether the log is whole where the report is not said.
fn is_unsaid(alloc: Global) -> Result<bool, Fail> {
    let log = long_log(alloc, 111, &UNSAID)?;
    Ok(mark(&log) == LOG_MARK)
}

// Whether the check of a log ends so, where a call of the desk fails.
fn is_checked(
    alloc: Global,
    log: &[u8],
    failing: u64,
    status: Status,
    said: &[&str],
) -> Result<bool, Fail> {
    let end = End {
        status,
        said: Said::Whole(said),
        files: &[],
    };
    let given = [("c.sp", FLIP_FLOP.as_bytes()), ("l.clog", log)];
    ends(alloc, "check - c.sp dff l.clog", &given, &[failing], &end)
}

// It is checked in 106 pieces and its end, after the two calls for the subcircuit.
fn is_right(alloc: Global, log: &[u8]) -> Result<bool, Fail> {
    Ok(
        mark(log) == LOG_MARK
            && is_checked(alloc, log, 109, Status::WriteFault, &[])?
            && is_checked(
                alloc,
                log,
                110,
                Status::Rejected,
                &["status 7 rejected\nlog NoRow best 3\n"],
            )?,
    )
}

// The log of 109,995 lemmas is made by one call and goes there in 106 blocks; two files are read before by two calls
// each, and the report is said last.
#[test]
fn writes_a_long_log(rt: HostRuntime) -> Result<(), Fail> {
    let alloc = rt.alloc();
    assert!(rt; is_unsaid(alloc)?);
    let log = long_log(alloc, 112, &SPENT)?;
    let is = is_right(alloc, &log);
    drop(log);
    assert!(rt; is?);
    Ok(())
}
