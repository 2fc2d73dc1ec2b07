ghost use Rattle.std.specs.Prelude.{◌≡◌};
ghost use Rattle.lef_read.specs.Keywords.{is, is_header, block_word, keyword_of};

/// The keywords of LEF that the reading knows, in upper or lower case.
#[derive(Clone, Copy, Debug, PartialEq, Eq)]
pub enum Keyword {
    By,
    Class,
    Density,
    End,
    /// VERSION, BUSBITCHARS, DIVIDERCHAR, NAMESCASESENSITIVE or MANUFACTURINGGRID
    Header,
    Layer,
    Library,
    Macro,
    Obs,
    Origin,
    Pin,
    Port,
    Rect,
    Size,
    Units,
    /// any other word
    Other,
}

/// Whether a word is a keyword, in either case.
pub fn is(word: &[u8], text: &[u8]) -> bool
    ensures { result ≡ is word.now text.now }
{
    word.eq_ignore_ascii_case(text)
}

fn is_header(word: &[u8]) -> bool
    ensures { result ≡ is_header word.now }
{
    is(word, b"VERSION")
        || is(word, b"BUSBITCHARS")
        || is(word, b"DIVIDERCHAR")
        || is(word, b"NAMESCASESENSITIVE")
        || is(word, b"MANUFACTURINGGRID")
}

// A word that begins or ends a block, or else the other keyword.
fn block_word(word: &[u8], other: Keyword) -> Keyword
    ensures { result ≡ block_word word.now other }
{
    if is(word, b"END") {
        Keyword::End
    } else if is(word, b"MACRO") {
        Keyword::Macro
    } else if is(word, b"PIN") {
        Keyword::Pin
    } else if is(word, b"PORT") {
        Keyword::Port
    } else if is(word, b"OBS") {
        Keyword::Obs
    } else if is(word, b"UNITS") {
        Keyword::Units
    } else if is(word, b"LIBRARY") {
        Keyword::Library
    } else {
        other
    }
}

/// The keyword that a word is.
#[tactic(auto, unfolding(crate::specs::Keywords::keyword_of))]
pub fn keyword_of(word: &[u8]) -> Keyword
    ensures { result ≡ keyword_of word.now }
{
    let other = if is(word, b"RECT") {
        Keyword::Rect
    } else if is(word, b"LAYER") {
        Keyword::Layer
    } else if is(word, b"CLASS") {
        Keyword::Class
    } else if is(word, b"SIZE") {
        Keyword::Size
    } else if is(word, b"BY") {
        Keyword::By
    } else if is(word, b"ORIGIN") {
        Keyword::Origin
    } else if is(word, b"DENSITY") {
        Keyword::Density
    } else if is_header(word) {
        Keyword::Header
    } else {
        Keyword::Other
    };
    block_word(word, other)
}
