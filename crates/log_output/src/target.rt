/// Where a text goes: to the end of a file that was made, or to what is said.
#[derive(Clone, Copy)]
pub enum Target<'a> {
    File(&'a str),
    Report,
}
