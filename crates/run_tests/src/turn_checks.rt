// Checks of certificates of tracks where nets may change theirs. Another program, written after the definitions, made
// and judged the first ones: of nets that may turn, and of nets that go straight.
use crate::calls::{End, Said, ends};
use crate::doglegs::DOG;
use crate::low_doglegs::TURN;
use crate::low_rows::{MUX, RING};
use crate::setup::{are_usage, inputs, joined};
use crate::track_checks::is_checked;
use cell_run::Status;
use std::alloc::Global;
use std::test::Fail;

const HEAD: &str = "cellgen-tracks 1\ncell turn\ngaps 1\n";

const TURN_HEAD: &str = "cellgen-tracks 2\ncell turn\ngaps 1\n";

const TURNING: &str = "lemma 1 0,1,1 0,1,1 0 4 0:0
lemma 1 1,0,1 1,0,1 0 4 4:0
lemma 1 1,0,1 1,0,1 0 2 4:0
lemma 1 1,1,0 1,1,0 6 0 6:0
lemma 1 1,1,1 1,1,1 - - -
end
";

const STRAIGHT: &str = "lemma 0 0,0,0 0,0,0 6 0 6:0
lemma 1 0,0,1 0,0,1 4 2 4:0
lemma 1 0,1,1 0,1,1 0 4 -
lemma 1 0,0,1 0,0,1 4 4 4:0
lemma 1 0,1,1 0,1,1 0 2 4:0
lemma 1 0,0,1 0,0,1 0 2 0:1
lemma 1 1,0,1 1,0,1 0 4 -
lemma 1 0,0,1 0,0,1 0 4 -
lemma 1 1,0,1 1,0,1 0 2 -
lemma 0 0,1,0 0,1,0 0 4 0:0
lemma 0 1,0,0 1,0,0 0 4 4:1
lemma 0 0,0,0 0,0,0 0 4 4:1
lemma 0 1,0,0 1,0,0 0 2 4:1
lemma 1 1,1,0 1,1,0 6 2 6:1
lemma 1 1,1,0 1,1,0 6 0 -
lemma 1 1,1,1 1,1,1 - - -
end
";

// The parts of a certificate, the end of its check, and the last line of the report.
const JUDGED: [([&str; 3], Status, &str); 7] = [
    (
        [TURN_HEAD, "tracks 2\n", TURNING],
        Status::Done,
        "\nfewest-dogleg 2\n",
    ),
    (
        [TURN_HEAD, "tracks 1\n", TURNING],
        Status::Done,
        "\nfewest-dogleg 1\n",
    ),
    ([HEAD, "tracks 2\n", TURNING], Status::Done, "\nfewest 2\n"),
    ([HEAD, "tracks 3\n", STRAIGHT], Status::Done, "\nfewest 3\n"),
    // What holds of nets that go straight need not hold of nets that turn.
    (
        [TURN_HEAD, "tracks 3\n", STRAIGHT],
        Status::Rejected,
        "\ntracks Unproved line 10\n",
    ),
    (
        [TURN_HEAD, "tracks 3\n", TURNING],
        Status::Rejected,
        "\ntracks Unproved line 6\n",
    ),
    (
        [TURN_HEAD, "tracks 2\ncycle 1 1,1,1 1,1,1 - - -\n", TURNING],
        Status::Rejected,
        "\ntracks Unproved line 5\n",
    ),
];

fn ends_last(alloc: Global, text: &str, status: Status, said: &str) -> Result<bool, Fail> {
    let end = End {
        status,
        said: Said::Last(said),
        files: &[],
    };
    let given = inputs(["", TURN, text]);
    ends(alloc, "check - c.sp turn l.clog --low", &given, &[], &end)
}

fn is_judged(alloc: Global, parts: &[&str], status: Status, said: &str) -> Result<bool, Fail> {
    let text = joined(alloc, parts)?;
    let is = ends_last(alloc, &text, status, said);
    drop(text);
    is
}

#[test]
fn checks_certificates_with_doglegs(rt: HostRuntime) -> Result<(), Fail> {
    for (parts, status, said) in &JUDGED {
        assert!(rt; is_judged(rt.alloc(), parts, *status, said)?, "{said}");
    }
    Ok(())
}

// A call that leaves evidence, the file of it, a call that checks this file, and its report.
const CHECKED: [(&str, &str, Status, &str, &str, &str); 5] = [
    (
        TURN,
        "make - c.sp turn out --dogleg --low",
        Status::Done,
        "out.ctrack",
        "check - c.sp turn l.clog --low",
        "status 0 ok\ncell turn\ngaps 1\nfewest-dogleg 2\n",
    ),
    (
        TURN,
        "make - c.sp turn out --low",
        Status::Done,
        "out.ctrack",
        "check - c.sp turn l.clog --low",
        "status 0 ok\ncell turn\ngaps 1\nfewest 3\n",
    ),
    (
        MUX,
        "make - c.sp mux2 out --dogleg --taps --low",
        Status::Done,
        "out.ctrack",
        "check - c.sp mux2 l.clog --low",
        "status 0 ok\ncell mux2\ngaps 2\nfewest-dogleg 4\n",
    ),
    (
        RING,
        "make - c.sp ring out --dogleg --low",
        Status::Unfinished,
        "out.ctrack",
        "check - c.sp ring l.clog --low",
        "status 0 ok\ncell ring\ngaps 1\nfewest-dogleg 6\n",
    ),
    (
        DOG,
        "make - c.sp dog out --dogleg --low --trails",
        Status::Done,
        "out.ctrack",
        "check - c.sp dog l.clog --low",
        "status 0 ok\ncell dog\ngaps 1\nfewest-dogleg 3\n",
    ),
];

#[test]
fn certifies_tracks_with_doglegs(rt: HostRuntime) -> Result<(), Fail> {
    for (spice, make, status, name, check, said) in &CHECKED {
        assert!(rt;
            is_checked(rt.alloc(), ["", spice], [make, name, check, said], *status)?,
            "{check}"
        );
    }
    Ok(())
}

// The word stands before `--taps` and `--low`, once.
#[test]
fn takes_the_word_before_low(rt: HostRuntime) -> Result<(), Fail> {
    let words = [
        "make - c.sp inv o --low --dogleg",
        "make - c.sp inv o --taps --dogleg --low",
        "make - c.sp inv o --dogleg --dogleg --low",
        "make - c.sp inv o --dogleg --low --from l.clog",
        "row - c.sp o top inv inv --dogleg --low",
        "check - c.sp inv l.clog --dogleg --low",
        "check - c.sp inv l.clog --low --dogleg",
    ];
    assert!(rt; are_usage(rt.alloc(), &words, "o.ctrack")?);
    Ok(())
}
