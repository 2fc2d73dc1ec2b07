use crate::calls::{End, Said, ends};
use crate::setup::{INVERTER, tells};
use cell_run::Status;
use std::alloc::Global;
use std::test::Fail;

const ROW: &str =
    "status 0 ok\ncell inv\ncolumns 1\ngaps 0\nwidth 1\ncolumn 0 gate a p y vdd 20 n y gnd 10\n";

const USAGE: &str = "status 1 usage
plan TECH SPICE CELL
make TECH SPICE CELL OUT
check TECH SPICE CELL LOG
extract TECH GDS CELL
bench NUMBER
make TECH SPICE CELL OUT --dogleg
make TECH SPICE CELL OUT --taps
make TECH SPICE CELL OUT --dogleg --taps
extract TECH GDS CELL --taps
row TECH SPICE OUT TOP CELL CELL ..
agree TECH GDS LEF CELL
plan TECH SPICE CELL --trails
check TECH SPICE CELL FILE --trails
make TECH SPICE CELL OUT [--dogleg] [--taps] --trails
make TECH SPICE CELL OUT [--dogleg] [--taps] [--trails] --from FILE
make TECH SPICE CELL OUT [--dogleg] [--taps] --low [--trails]
check TECH SPICE CELL FILE --low
row TECH SPICE OUT TOP CELL CELL .. --low
";

const BENCH: &str = "status 0 ok
bench 1
made 1
cycle 0
unfinished 0
columns 3
gaps 0
fingers 6
bytes 3962
";

// What another program came to by the same rules.
const TWELVE_BENCHED: &str = "status 0 ok
bench 12
made 12
cycle 0
unfinished 0
columns 69
gaps 11
fingers 138
bytes 82370
";

const ALL_BENCHED: &str = "status 0 ok
bench 200
made 200
cycle 0
unfinished 0
columns 1165
gaps 200
fingers 2330
bytes 1397094
";

// Calls over the inverter: the words and the end.
const CALLS: [(&str, Status, &str); 29] = [
    ("plan - c.sp INV", Status::Done, ROW),
    ("plan t.toml c.sp inv", Status::Done, ROW),
    ("plan - d.sp inv", Status::ReadFault, "status 2 read d.sp\n"),
    (
        "plan d.toml d.sp inv",
        Status::ReadFault,
        "status 2 read d.toml\n",
    ),
    (
        "plan c.sp d.sp inv",
        Status::Input,
        "status 4 input\ntech Text\n",
    ),
    (
        "check - c.sp inv d.clog",
        Status::ReadFault,
        "status 2 read d.clog\n",
    ),
    (
        "check - c.sp inw d.clog",
        Status::Input,
        "status 4 input\nspice NoCell\n",
    ),
    ("", Status::Usage, USAGE),
    ("make", Status::Usage, USAGE),
    ("plan - c.sp", Status::Usage, USAGE),
    ("plan - c.sp inv l.clog", Status::Usage, USAGE),
    ("check - c.sp inv", Status::Usage, USAGE),
    ("plan - c.sp a-b", Status::Usage, USAGE),
    ("make - c.sp inv out --trails --taps", Status::Usage, USAGE),
    ("make - c.sp inv out --from", Status::Usage, USAGE),
    (
        "make - c.sp inv out --from l.clog --trails",
        Status::Usage,
        USAGE,
    ),
    ("make - c.sp inv out --low --dogleg", Status::Usage, USAGE),
    ("make - c.sp inv out --low --taps", Status::Usage, USAGE),
    ("make - c.sp inv out --trails --low", Status::Usage, USAGE),
    (
        "make - c.sp inv out --low --from l.clog",
        Status::Usage,
        USAGE,
    ),
    (
        "check - c.sp inv l.clog --low --trails",
        Status::Usage,
        USAGE,
    ),
    ("bench", Status::Usage, USAGE),
    ("bench 0", Status::Usage, USAGE),
    ("bench 201", Status::Usage, USAGE),
    ("bench 01", Status::Usage, USAGE),
    ("bench +1", Status::Usage, USAGE),
    ("bench 1", Status::Done, BENCH),
    ("bench 12", Status::Done, TWELVE_BENCHED),
    ("bench 200", Status::Done, ALL_BENCHED),
];

#[test]
fn says_what_the_words_ask_for(rt: HostRuntime) -> Result<(), Fail> {
    for (words, status, said) in &CALLS {
        assert!(rt;
            tells(rt.alloc(), words, ["", INVERTER, ""], *status, &[said])?,
            "{words}"
        );
    }
    Ok(())
}

// Whether a technology and a subcircuit with these numbers of comment bytes end so.
fn ends_long(
    alloc: Global,
    tech: usize,
    spice: usize,
    status: Status,
    said: &str,
) -> Result<bool, Fail> {
    let comment = vec![in alloc; b'#'; tech]?;
    let is = ends_starred(alloc, &comment, spice, status, said);
    drop(comment);
    is
}

fn ends_starred(
    alloc: Global,
    tech: &[u8],
    spice: usize,
    status: Status,
    said: &str,
) -> Result<bool, Fail> {
    let stars = vec![in alloc; b'*'; spice]?;
    let is = ends_over(alloc, [tech, &stars], status, said);
    drop(stars);
    is
}

fn ends_over<'a>(
    alloc: Global,
    [tech, spice]: [&'a [u8]; 2],
    status: Status,
    said: &str,
) -> Result<bool, Fail> {
    let said = [said];
    let end = End {
        status,
        said: Said::Whole(&said),
        files: &[],
    };
    let given = [("t.toml", tech), ("c.sp", spice)];
    ends(alloc, "plan t.toml c.sp inv", &given, &[], &end)
}

const LONG: [(usize, usize, Status, &str); 3] = [
    (
        0,
        4_194_304,
        Status::Input,
        "status 4 input\nspice NoCell\n",
    ),
    (
        4_194_304,
        4_194_305,
        Status::TooLong,
        "status 10 long c.sp\n",
    ),
    (
        4_194_305,
        4_194_305,
        Status::TooLong,
        "status 10 long t.toml\n",
    ),
];

#[test]
fn refuses_long_files(rt: HostRuntime) -> Result<(), Fail> {
    for (tech, spice, status, said) in &LONG {
        assert!(rt;
            ends_long(rt.alloc(), *tech, *spice, *status, said)?,
            "{said}"
        );
    }
    Ok(())
}
