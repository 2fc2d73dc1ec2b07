/// When attempts by trails are made to refute states of a row.
#[derive(Clone, Copy, Debug, PartialEq, Eq)]
pub enum Attempts {
    Never,
    AtOnce,
    /// With the second half of the units, where a search without attempts has spent the first half.
    InSecondHalf,
}
