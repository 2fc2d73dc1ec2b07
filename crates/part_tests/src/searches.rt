use crate::rows::{INVERTER, INVERTERS, Pair, fingers};
use bound_log::{Log, write_log};
use cell_num::copy;
use row_search::{Stop, search};
use row_state::Parity;
use std::alloc::Global;
use std::test::Fail;

// The log of a search, and the bound that is proved where its budget is spent.
fn ended(
    alloc: Global,
    nets: u32,
    pairs: &[Pair],
    budget: u64,
) -> Result<(Log, Option<u32>), Fail> {
    let rows = fingers(alloc, nets, pairs)?;
    match search(alloc, &rows, &Parity, budget) {
        Ok(found) => Ok((found.log, None)),
        Err(Stop::Unfinished { log, proved }) => Ok((log, Some(proved))),
        Err(Stop::NoMemory) => Err(Fail::from("no memory")),
    }
}

// Whether a search within that budget ends so, with these lines after the first two.
fn ends(
    alloc: Global,
    nets: u32,
    pairs: &[Pair],
    budget: u64,
    proved: Option<u32>,
    lines: &[u8],
) -> Result<bool, Fail> {
    let (log, told) = ended(alloc, nets, pairs, budget)?;
    if log.lemmas.len() > 1000 {
        return Err(Fail::from("a long log"));
    }
    let text = write_log(alloc, &copy(alloc, b"c")?, &log)?;
    let mut want = Vec::new(alloc);
    want.extend_from_slice(b"cellgen-log 1\ncell c\n")?;
    want.extend_from_slice(lines)?;
    Ok(told == proved && text == want)
}

const TWO: [Pair; 2] = [(0, 2, 4, 5), (1, 3, 4, 5)];

// Fingers of the P row begin and end on one net.
const RINGS: [Pair; 3] = [(0, 4, 4, 5), (1, 3, 3, 5), (2, 4, 4, 5)];

// Six inverters on nets of their own, whose rails and outputs ask for two gaps at the start.
const SIX: [Pair; 6] = [
    (0, 6, 12, 13),
    (1, 7, 12, 13),
    (2, 8, 12, 13),
    (3, 9, 12, 13),
    (4, 10, 12, 13),
    (5, 11, 12, 13),
];

// The number of nets, the fingers, the budget, the bound that is proved where it is spent, and the lines.
const SEARCHES: [(u32, &[Pair], u64, Option<u32>, &[u8]); 8] = [
    (4, &INVERTER, 1, Some(0), b"open\nend\n"),
    (4, &INVERTER, 2, None, b"gaps 0\ncolumn 0 0 0 0 0\nend\n"),
    (
        6,
        &TWO,
        3,
        None,
        b"gaps 0\ncolumn 0 0 0 0 0\ncolumn 1 1 1 1 1\nend\n",
    ),
    (
        8,
        &INVERTERS,
        4,
        Some(1),
        b"lemma 1 P 1,1,1 1,1,1 - -\nopen\nend\n",
    ),
    (
        8,
        &INVERTERS,
        5,
        None,
        b"lemma 1 P 1,1,1 1,1,1 - -\ngaps 1\ncolumn 0 0 0 0 0\ncolumn 1 1 0 1 0\ncolumn 2 2 1 2 1\nend\n",
    ),
    // A state whose bound is kept takes no node, so that the last node is left for another.
    (
        6,
        &RINGS,
        8,
        Some(1),
        b"lemma 1 N 0,1,1 0,1,1 4 5\nlemma 1 B 0,1,0 0,1,0 4 5\nlemma 1 B 0,1,1 0,1,1 4 4\n\
          lemma 1 B 1,0,1 1,0,1 3 5\nlemma 1 B 1,0,1 1,0,1 3 3\nlemma 1 N 1,1,0 1,1,0 4 5\n\
          lemma 1 B 1,1,0 1,1,0 4 4\nlemma 1 B 1,1,1 1,1,1 - -\nopen\nend\n",
    ),
    // The row takes 15 nodes. A budget of ten is spent within the last limit.
    (
        14,
        &SIX,
        15,
        None,
        b"lemma 1 P 1,1,1,1,1,1 1,1,1,1,1,1 - -\nlemma 2 P 1,1,1,1,1,1 1,1,1,1,1,1 - -\n\
          lemma 2 P 0,0,1,1,1,1 0,0,1,1,1,1 12 13\nlemma 2 P 0,0,1,1,1,1 0,0,1,1,1,1 12 7\n\
          lemma 2 P 0,0,1,1,1,1 0,0,1,1,1,1 7 13\nlemma 1 P 0,0,0,0,1,1 0,0,0,0,1,1 12 13\n\
          lemma 1 P 0,0,0,0,1,1 0,0,0,0,1,1 12 9\nlemma 1 P 0,0,0,0,1,1 0,0,0,0,1,1 9 13\n\
          gaps 2\ncolumn 0 0 0 0 0\ncolumn 1 1 1 1 1\ncolumn 2 2 0 2 0\ncolumn 3 3 1 3 1\n\
          column 4 4 0 4 0\ncolumn 5 5 1 5 1\nend\n",
    ),
    (
        14,
        &SIX,
        10,
        Some(2),
        b"lemma 1 P 1,1,1,1,1,1 1,1,1,1,1,1 - -\nlemma 2 P 1,1,1,1,1,1 1,1,1,1,1,1 - -\n\
          lemma 2 P 0,0,1,1,1,1 0,0,1,1,1,1 12 13\nlemma 2 P 0,0,1,1,1,1 0,0,1,1,1,1 12 7\n\
          lemma 2 P 0,0,1,1,1,1 0,0,1,1,1,1 7 13\nlemma 1 P 0,0,0,0,1,1 0,0,0,0,1,1 12 13\nopen\nend\n",
    ),
];

#[test]
fn searches_within_budgets(rt: HostRuntime) -> Result<(), Fail> {
    for (nets, pairs, budget, proved, lines) in &SEARCHES {
        assert!(rt;
            ends(rt.alloc(), *nets, pairs, *budget, *proved, lines)?,
            "{nets} {budget}"
        );
    }
    Ok(())
}

// Twelve pairs between two nets and two between two others need a gap, and no parity shows it.
#[test]
fn searches_long(rt: HostRuntime) -> Result<(), Fail> {
    let alloc = rt.alloc();
    let mut pairs = [(0, 14, 15, 15); 14];
    for gate in 0..14 {
        let ends = if gate < 12 { (14, 15) } else { (16, 17) };
        pairs[gate] = (gate as u32, ends.0, ends.1, ends.1);
    }
    let (log, proved) = ended(alloc, 18, &pairs, 200_000)?;
    assert!(rt; proved.is_none() && log.lemmas.len() == 16_393);
    Ok(())
}
