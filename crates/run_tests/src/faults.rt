// Technologies and subcircuits that are refused, and the faults that are reported.
use crate::setup::{INVERTER, joined, tells};
use cell_run::Status;
use std::alloc::Global;
use std::test::Fail;

// Whether a technology or a subcircuit is refused so.
fn is_refused(alloc: Global, tech: &str, spice: &str, line: &str) -> Result<bool, Fail> {
    let said = ["status 4 input\n", line];
    tells(
        alloc,
        "plan t.toml c.sp inv",
        [tech, spice, ""],
        Status::Input,
        &said,
    )
}

const TECHNOLOGIES: [(&str, &str); 16] = [
    ("lambda_nm", "tech Text\n"),
    ("colour = 1", "tech Key name colour\n"),
    ("vdd = 5", "tech Form name vdd\n"),
    ("lambda_nm = 301", "tech Range name lambda_nm value 301\n"),
    ("lambda_nm = -2", "tech Range name lambda_nm value -2\n"),
    ("lambda_nm = 2002", "tech Range name lambda_nm value 2002\n"),
    ("lambda_nm = 20.0", "tech Form name lambda_nm\n"),
    (
        "zz = 1\n'B' = 2\na = 3\nlambda_nm = 301",
        "tech Key name B\n",
    ),
    (
        "vdd = 5\nlambda_nm = 301",
        "tech Range name lambda_nm value 301\n",
    ),
    ("wmax_n = 11", "tech Range name wmax_n value 11\n"),
    (
        "height = 4001\nbudget = 0",
        "tech Range name budget value 0\n",
    ),
    (
        "vdd = 5\nheight = 4001",
        "tech Range name height value 4001\n",
    ),
    ("vdd = 'a(b'", "tech Form name vdd\n"),
    ("vdd = 'gnd'", "tech Form name gnd\n"),
    ("p_models = []", "tech Form name p_models\n"),
    ("p_models = ['n']", "tech Form name n_models\n"),
];

#[test]
fn names_the_fault_of_a_technology(rt: HostRuntime) -> Result<(), Fail> {
    for (tech, line) in &TECHNOLOGIES {
        assert!(rt; is_refused(rt.alloc(), tech, INVERTER, line)?, "{line}");
    }
    Ok(())
}

const P: &str = "MP y a vdd vdd p W=3u L=0.6u\n";

// Pins, transistors, and the fault.
const SUBCIRCUITS: [(&str, &str, &str); 7] = [
    ("vdd gnd", "", "spice Empty\n"),
    (
        "a y vdd",
        "MP y a vdd vdd p W=3u L=0.6u\nMN y a gnd gnd n W=1.5u L=0.6u\n",
        "spice NoRail\n",
    ),
    ("a y q vdd gnd", P, "spice IdlePin name q\n"),
    (
        "a y vdd gnd",
        "MP y a vdd vdd p W=3u L=0.6u\nMN y a gnd gnd n W=0.75u L=0.6u\n",
        "spice Narrow line 3 units 5\n",
    ),
    (
        "a y vdd gnd",
        "*.PININFO a:I y:O\nMP y a vdd vdd p W=3u L=0.6u\nMN y a gnd gnd n W=1.5u L=0.6u nf=3\n",
        "spice Narrow line 4 units 10\n",
    ),
    (
        "a y vdd gnd",
        "*.PININFO a:I y:O\nMP y a vdd vdd p W=3u L=0.6u m=1.5\nMN y a gnd gnd n W=1.5u L=0.6u\n",
        "spice Multiple line 3\n",
    ),
    (
        "a y vdd gnd",
        "MP y a vdd vdd p W=192.15u L=0.6u\nMN y a gnd gnd n W=192u L=0.6u\n",
        "fold TooManyColumns count 33\n",
    ),
];

// Whether the subcircuit of these parts is refused so.
fn are_refused(alloc: Global, parts: &[&str], line: &str) -> Result<bool, Fail> {
    let spice = joined(alloc, parts)?;
    let is = is_refused(alloc, "", &spice, line);
    drop(spice);
    is
}

#[test]
fn names_the_fault_of_a_subcircuit(rt: HostRuntime) -> Result<(), Fail> {
    for (pins, transistors, line) in &SUBCIRCUITS {
        let parts = [".SUBCKT inv ", pins, "\n", transistors, ".ENDS\n"];
        assert!(rt; are_refused(rt.alloc(), &parts, line)?, "{line}");
    }
    Ok(())
}

// A line of a subcircuit before one that is refused, too, and the fault.
const LINES: [(&str, &str); 17] = [
    ("R1 y a 5", "spice Element line 2\n"),
    ("MN y a gnd gnd", "spice Fields line 2\n"),
    ("MN y a gnd (gnd x w=1.5u l=.6u", "spice Fields line 2\n"),
    ("MN y a gnd gnd n w=1.5u l=.6u 5", "spice Fields line 2\n"),
    ("MN y a gnd gnd n w=1.5u", "spice Fields line 2\n"),
    ("MN y a gnd gnd x w=-1 l=.6u", "spice Model line 2\n"),
    ("MN y a gnd gnd n w=1.5u w=-1 l=1u", "spice Number line 2\n"),
    ("MN y a gnd gnd n w=15.1m l=.6u", "spice Number line 2\n"),
    (
        "MN y a gnd gnd n w=1.5u l=.6u m=one",
        "spice Number line 2\n",
    ),
    (
        "MN y a gnd gnd n w=.75u l=1u",
        "spice Length line 2 units 7\n",
    ),
    (
        "MN y a gnd vdd n w=.75u l=.6u",
        "spice Narrow line 2 units 5\n",
    ),
    ("MN y vdd gnd vdd n w=1.5u l=.6u", "spice Body line 2\n"),
    ("MN y vdd gnd gnd n w=1.5u l=.6u m=0", "spice Rail line 2\n"),
    (
        "MN y vdd gnd vdd n w=1.5u l=.6u nf=2",
        "spice Narrow line 2 units 10\n",
    ),
    (
        "MN y vdd gnd vdd n w=1.5u l=.6u nf=65",
        "spice Body line 2\n",
    ),
    ("MN y a vdd gnd n w=1.5u l=.6u", "spice Rail line 2\n"),
    (
        "MN y a gnd gnd n w=1.5u l=.6u m=0",
        "spice Multiple line 2\n",
    ),
];

#[test]
fn names_the_first_fault_of_a_line(rt: HostRuntime) -> Result<(), Fail> {
    for (transistor, line) in &LINES {
        let parts = [".SUBCKT inv a y vdd gnd\n", transistor, "\nR2\n.ENDS\n"];
        assert!(rt; are_refused(rt.alloc(), &parts, line)?, "{transistor}");
    }
    Ok(())
}

// Words at the ends of the lines of an inverter, and the fault.
const WORDS: [(&str, &str, &str); 14] = [
    ("w=57.45u nf=64", "", "spice Narrow line 2 units 383\n"),
    ("m=0", "", "spice Multiple line 2\n"),
    ("m=65", "", "spice Multiple line 2\n"),
    ("nf=0", "", "spice Multiple line 2\n"),
    ("nf=65", "", "spice Multiple line 2\n"),
    ("nf=3.5", "", "spice Multiple line 2\n"),
    ("nf=1e40", "", "spice Multiple line 2\n"),
    ("m=64", "m=65", "spice Multiple line 3\n"),
    (
        "m=60",
        "m=64\nmo y a gnd gnd n w=1.5u l=.6u m=5",
        "spice TooMany what devices count 129\n",
    ),
    ("w=384u", "", "fold TooManyColumns count 64\n"),
    ("w=384.15u", "w=390.15u", "fold TooManyFingers count 65\n"),
    ("", "w=390.15u", "fold TooManyFingers count 66\n"),
    ("m=33", "", "fold TooManyColumns count 33\n"),
    ("m=22 nf=3", "", "fold TooManyFingers count 66\n"),
];

#[test]
fn names_the_fault_of_copies_and_fingers(rt: HostRuntime) -> Result<(), Fail> {
    for (p, n, line) in &WORDS {
        let parts = [
            ".SUBCKT inv a y vdd gnd\nmp y a vdd vdd p w=3u l=.6u ",
            p,
            "\nmn y a gnd gnd n w=1.5u l=.6u ",
            n,
            "\n.ENDS\n",
        ];
        assert!(rt; are_refused(rt.alloc(), &parts, line)?, "{p} {n}");
    }
    Ok(())
}

// Whole texts, and the fault.
const TEXTS: [(&str, &str); 6] = [
    ("", "spice NoCell\n"),
    (
        "* a\n.subckt d\n.ends\nr1 \x01\n",
        "spice NotAscii line 4\n",
    ),
    (".subckt inv a\ry vdd gnd\n", "spice NotAscii line 1\n"),
    (".subckt inv a y\n+ vdd gnd\r", "spice NotAscii line 2\n"),
    (".subckt inv a y vdd gnd\n", "spice Unended\n"),
    (
        ".subckt inv a y vdd gnd y\n.ends\n",
        "spice Fields line 1\n",
    ),
];

#[test]
fn names_the_fault_of_a_text(rt: HostRuntime) -> Result<(), Fail> {
    for (text, line) in &TEXTS {
        assert!(rt; is_refused(rt.alloc(), "", text, line)?, "{line}");
    }
    Ok(())
}
