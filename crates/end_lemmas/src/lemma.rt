/// From the state after the first `done` levels on, at least `bound` more ends come.
#[derive(Debug, Drop)]
pub struct EndLemma<S> {
    pub bound: u32,
    pub done: u32,
    pub state: S,
}
