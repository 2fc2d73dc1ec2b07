/// A token of a LEF text with the line on which it begins.
#[derive(Clone, Copy, Debug)]
pub enum Token<'a> {
    Word { line: u32, text: &'a [u8] },
    /// A text between quotes.
    Quoted { line: u32 },
    Semicolon { line: u32 },
    /// A text without its second quote.
    Torn,
}

/// A word and its line.
#[derive(Clone, Copy, Debug)]
pub struct Word<'a> {
    pub line: u32,
    pub text: &'a [u8],
}
