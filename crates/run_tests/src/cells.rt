use crate::logs::is_rejected;
use crate::setup::{HEAD, INVERTERS, LEMMA, LISTED, tells};
use cell_run::Status;
use std::alloc::Global;
use std::test::Fail;

// A technology, a subcircuit and its report.
const ROWS: [(&str, &str, &str); 10] = [
    (
        "",
        ".SUBCKT x a b y vdd gnd\nM1 y a vdd vdd p W=3u L=0.6u\nM2 y b vdd vdd p W=3u L=0.6u\n\
          M3 y a n1 gnd n W=3u L=0.6u\nM4 n1 b gnd gnd n W=3u L=0.6u\n.ENDS\n",
        "columns 2\ngaps 0\nwidth 2\ncolumn 0 gate a p y vdd 20 n y n1 20\ncolumn 1 gate b p vdd y 20 n n1 gnd 20\n",
    ),
    (
        "",
        ".SUBCKT x a b x y vdd gnd\nM1 x a vdd vdd p W=3u L=0.6u\nM2 x a gnd gnd n W=1.5u L=0.6u\n\
          M3 y b vdd vdd p W=3u L=0.6u\nM4 y b gnd gnd n W=1.5u L=0.6u\n.ENDS\n",
        "columns 2\ngaps 0\nwidth 2\ncolumn 0 gate a p x vdd 20 n x gnd 10\ncolumn 1 gate b p vdd y 20 n gnd y 10\n",
    ),
    (
        "wmax_p = 20",
        ".SUBCKT x a y vdd gnd\nMP y a vdd vdd p W=6.15u L=0.6u\nMN y a gnd gnd n W=1.5u L=0.6u\n.ENDS\n",
        "columns 3\ngaps 0\nwidth 3\ncolumn 0 gate a p y vdd 13 n y gnd 10\ncolumn 1 gate a p vdd y 14 n - - 0\n\
          column 2 gate a p y vdd 14 n - - 0\n",
    ),
    (
        "",
        ".SUBCKT x a y vdd gnd\nMP y a vdd vdd p W=12u L=0.6u\nMN y a gnd gnd n W=1.5u L=0.6u\n.ENDS\n",
        "columns 2\ngaps 0\nwidth 2\ncolumn 0 gate a p y vdd 40 n y gnd 10\ncolumn 1 gate a p vdd y 40 n - - 0\n",
    ),
    (
        "",
        ".SUBCKT x a b c cn vdd gnd\nMN a c b gnd n W=1.5u L=0.6u\nMP a cn b vdd p W=3u L=0.6u\n.ENDS\n",
        "columns 2\ngaps 0\nwidth 2\ncolumn 0 gate c p - - 0 n a b 10\ncolumn 1 gate cn p a b 20 n - - 0\n",
    ),
    (
        "",
        ".GLOBAL gnd\n.SUBCKT x a y vdd\nMP y a vdd vdd p W=3u L=0.6u\nMn Y a\n+ GND gnd NMOS w=1.5UM $ width\n\
          + L = 600N AD=2p\n.ENDS\n",
        "columns 1\ngaps 0\nwidth 1\ncolumn 0 gate a p y vdd 20 n y gnd 10\n",
    ),
    (
        "",
        ".SUBCKT x a y vdd gnd\nMP y a vdd vdd p W=3u L=0.6u m=2\nMN y a gnd gnd n W=1.5u L=0.6u m=2\n.ENDS\n",
        "columns 2\ngaps 0\nwidth 2\ncolumn 0 gate a p y vdd 20 n y gnd 10\ncolumn 1 gate a p vdd y 20 n gnd y 10\n",
    ),
    (
        "",
        ".SUBCKT x a y vdd gnd\nMP y a vdd vdd p W=3u L=0.6u nf=3\nMN y a gnd gnd n W=1.5u L=0.6u\n.ENDS\n",
        "columns 3\ngaps 0\nwidth 3\ncolumn 0 gate a p y vdd 6 n y gnd 10\ncolumn 1 gate a p vdd y 7 n - - 0\n\
          column 2 gate a p y vdd 7 n - - 0\n",
    ),
    // Rails and models of other names.
    (
        "n_models = ['N']\ngnd = 'Vss'\nvdd = 'VCC'\np_models = ['PFET', 'pfet']",
        ".SUBCKT x a y vcc vss\nMP y a vcc vcc pFet W=3u L=0.6u\nMN y a vss vss n W=1.5u L=0.6u\n.ENDS\n",
        "columns 1\ngaps 0\nwidth 1\ncolumn 0 gate a p y vcc 20 n y vss 10\n",
    ),
    // Lines, words and numbers in many forms.
    (
        "",
        "+ a\n.SUBCKT X A  Y\t$ pins\r\n*.PinInfo A:I\n+ vdd gnd\n\nM1 y a vdd vdd p W = 3u L= 600N\n+ AD=2p $ b\n\
          * c\nMn Y a\n+ GND gnd NMOS w=.15e-5 l=.6UM\n+nf=1 m=1000m\n.ends",
        "columns 1\ngaps 0\nwidth 1\ncolumn 0 gate a p y vdd 20 n y gnd 10\n",
    ),
];

// Whether this is the report of the least row of `x`.
fn is_planned(alloc: Global, tech: &str, spice: &str, said: &str) -> Result<bool, Fail> {
    let said = ["status 0 ok\ncell x\n", said];
    tells(
        alloc,
        "plan t.toml c.sp x",
        [tech, spice, ""],
        Status::Done,
        &said,
    )
}

#[test]
fn plans_the_least_row(rt: HostRuntime) -> Result<(), Fail> {
    for (tech, spice, said) in &ROWS {
        assert!(rt; is_planned(rt.alloc(), tech, spice, said)?, "{said}");
    }
    Ok(())
}

const LARGER: [(&str, &str, Status, &str); 3] = [
    (
        "",
        INVERTERS,
        Status::Done,
        "status 0 ok\ncell x3\ncolumns 3\ngaps 1\nwidth 4\ncolumn 0 gate a p x vdd 20 n x gnd 10\n\
          column 1 gate b p y vdd 20 n y gnd 10\ncolumn 2 gate c p vdd z 20 n gnd z 10\n",
    ),
    (
        "budget = 1",
        INVERTERS,
        Status::Unfinished,
        "status 6 unfinished\nproved 1\nlemmas 1\ncellgen-log 2\ncell x3\nlemma 1 P 1,1,1 1,1,1 - -\nopen\nend\n",
    ),
    (
        "",
        ".GLOBAL vdd gnd\n.SUBCKT x3 e d q\nM1 en e vdd vdd p W=3u L=0.6u AD=3p PD=4u\n\
          M2 en e gnd gnd n W=1.5u L=0.6u\nM3 p1 d vdd vdd p W=3u L=0.6u\nM4 m en p1 vdd p W=3u L=0.6u\n\
          M5 n1 d gnd gnd n W=1.5u L=0.6u\nM6 m e n1 gnd n W=1.5u L=0.6u\nM7 q m vdd vdd p W=3u L=0.6u\n\
          M8 q m gnd gnd n W=1.5u L=0.6u\nM9 m q vdd vdd p W=0.9u L=0.6u\nM10 m q gnd gnd n W=0.9u L=0.6u\n.ENDS\n",
        Status::Done,
        "status 0 ok\ncell x3\ncolumns 6\ngaps 0\nwidth 6\ncolumn 0 gate e p en vdd 20 n en gnd 10\n\
          column 1 gate d p vdd p1 20 n gnd n1 10\ncolumn 2 gate e p - - 0 n n1 m 10\n\
          column 3 gate en p p1 m 20 n - - 0\ncolumn 4 gate q p m vdd 6 n m gnd 6\n\
          column 5 gate m p vdd q 20 n gnd q 10\n",
    ),
];

#[test]
fn plans_larger_cells(rt: HostRuntime) -> Result<(), Fail> {
    for (tech, spice, status, said) in &LARGER {
        let files = [*tech, *spice, ""];
        assert!(rt;
            tells(rt.alloc(), "plan t.toml c.sp x3", files, *status, &[said])?,
            "{said}"
        );
    }
    Ok(())
}

const TWO: &str = "gaps 2\ncolumn 0 0 0 0 0\ncolumn 1 1 0 1 0\ncolumn 2 2 1 2 1\nend\n";

const ONE: &str = "gaps 1\ncolumn 0 0 0 0 0\nend\n";

const LEAF: &str = "lemma 1 P 1,1,1 1,1,1 - -\nlemma 1 B 0,0,0 0,0,0 - -\n";

// The parts of a log, and why it is rejected.
const REJECTED: [(&str, &str, &str, &str); 13] = [
    (
        HEAD,
        "lemma 2 P 1,1,1 1,1,1 - -\n",
        LISTED,
        "Unproved line 3",
    ),
    (HEAD, LEAF, LISTED, "Unproved line 4"),
    (HEAD, LEMMA, "open\nend\n", "NoRow best 1"),
    (HEAD, LEMMA, ONE, "NotArrangement"),
    (HEAD, LEMMA, TWO, "Gaps said 2 counted 1"),
    (HEAD, "", LISTED, "NotLeast best 0 said 1"),
    (HEAD, "lemma 1 P 1,1 1,1,1 - -\n", LISTED, "Line line 3"),
    (HEAD, "", "gaps 0\nend\n\n", "Line line 5"),
    ("", "", "", "Cut"),
    (HEAD, LEMMA, "open\n", "Cut"),
    (HEAD, "lemma 2 P 1,1,1 1,1,1 - -\n", "open\n", "Cut"),
    ("cellgen-log 3\ncell x3\n", LEMMA, LISTED, "Version"),
    ("cellgen-log 1\ncell X3\n", LEMMA, LISTED, "Cell"),
];

#[test]
fn rejects_logs(rt: HostRuntime) -> Result<(), Fail> {
    for (head, lemmas, row, line) in &REJECTED {
        assert!(rt;
            is_rejected(rt.alloc(), &[head, lemmas, row], line)?,
            "{line}"
        );
    }
    Ok(())
}
