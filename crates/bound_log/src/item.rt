use crate::{Lemma, LogStep};

/// What a piece of a log says, up to the end of a line: nothing yet, or with the line of the name the version,
/// a lemma, the gaps of the row that is listed next, one of its columns, that no row is listed, or the end.
#[derive(Debug, Drop)]
pub enum LogItem {
    More,
    Head { version: u32 },
    Lemma(Lemma),
    Gaps(u32),
    Column(LogStep),
    Open,
    End,
}

/// What line of a log comes next: the first line, or the second of a log of some version, one of the lemmas or
/// the line after them, a column or the last line, the last line alone, or none, after it.
#[derive(Clone, Copy, Debug, PartialEq, Eq)]
pub enum LogPlace {
    Version,
    Cell { version: u32 },
    Lemmas,
    Columns,
    End,
    Behind,
}
