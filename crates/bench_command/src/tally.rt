ghost use Rattle.std.specs.Prelude.{◌≡◌};
ghost use Rattle.bench_command.specs.Tally.{IsWithin, added, nothing};

/// What is counted of generated cells: those made, those whose row has a cycle and those with an unfinished search;
/// and of the made ones the columns, the gaps, the fingers and the bytes of their libraries.
#[derive(Clone, Copy, Debug, PartialEq, Eq)]
pub struct Tally {
    pub made: u64,
    pub cycles: u64,
    pub unfinished: u64,
    pub columns: u64,
    pub gaps: u64,
    pub fingers: u64,
    pub bytes: u64,
}

impl Tally {
    /// The tally of no cells.
    pub fn nothing() -> Tally
        ensures { result ≡ nothing }
    {
        Tally {
            made: 0,
            cycles: 0,
            unfinished: 0,
            columns: 0,
            gaps: 0,
            fingers: 0,
            bytes: 0,
        }
    }

    /// The tally of at most 200 cells and of one more.
    pub fn plus(self, one: Tally) -> Tally
        requires few { IsWithin 200 self }
        requires one { IsWithin 1 one }
        ensures { result ≡ added self one }
    {
        Tally {
            made: self.made + one.made,
            cycles: self.cycles + one.cycles,
            unfinished: self.unfinished + one.unfinished,
            columns: self.columns + one.columns,
            gaps: self.gaps + one.gaps,
            fingers: self.fingers + one.fingers,
            bytes: self.bytes + one.bytes,
        }
    }
}
