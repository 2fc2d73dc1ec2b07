ghost use Rattle.std.specs.Prelude.{◌≡◌, ◌<◌, [], ◌∷◌, ◌==◌, not};
ghost use Rattle.std.specs.Prelude.{false, true, filter, map, length, IfOk, OnOk};
ghost use Rattle.std.specs.List.{slice_split, join_with_byte, list_any};
ghost use Rattle.cell_num.specs.Names.{lowered};
ghost use Rattle.spice_text.specs.Physical.{is_blank, without_comment, without_blanks_in_front};
ghost use Rattle.spice_text.specs.Physical.{is_comment, is_bad, is_refused};
ghost use Rattle.spice_text.specs.Words.{without_blanks_at_end, trimmed, joined_at_equals, words_of};

use cell_num::{Bytes, Names, NoMemory, lower};
use std::alloc::{AllocError, Global};

fn blank(byte: u8) -> bool
    ensures { result ≡ is_blank byte }
{
    byte == b' ' || byte == b'\t'
}

fn bad(byte: u8) -> bool
    ensures { result ≡ is_bad byte }
{
    byte != b'\t' && (byte < 32 || 126 < byte)
}

/// The line up to its `$` comment.
pub fn before_mark(line: &[u8]) -> &[u8]
    ensures { result.now ≡ without_comment true line.now }
{
    let mut after_blank = true;
    for at in 0..line.len() {
        if after_blank && line[at] == b'$' {
            return &line[..at];
        }
        after_blank = blank(line[at]);
    }
    line
}

/// A text without the blanks at its beginning.
pub fn behind_blanks(line: &[u8]) -> &[u8]
    ensures { result.now ≡ without_blanks_in_front line.now }
{
    for at in 0..line.len() {
        if !blank(line[at]) {
            return &line[at..];
        }
    }
    &[]
}

fn is_comment(body: &[u8]) -> bool
    ensures { result ≡ is_comment body.now }
{
    match body {
        [b'*', ..] => true,
        _ => false,
    }
}

fn any_bad(line: &[u8]) -> bool
    ensures { result ≡ list_any is_bad line.now }
{
    line.iter().any(|b| bad(*b))
}

/// Whether a line that is no comment holds a byte that it may not hold.
pub fn refused(line: &[u8]) -> bool
    ensures { result ≡ is_refused line.now }
{
    !is_comment(behind_blanks(line)) && any_bad(line)
}

// what stands before the blanks at the end
fn before_blanks(text: &[u8]) -> &[u8]
    ensures { result.now ≡ without_blanks_at_end text.now }
{
    let mut end = text.len();
    while 0 < end {
        if !blank(text[end - 1]) {
            return &text[..end];
        }
        end -= 1;
    }
    &[]
}

fn trim(text: &[u8]) -> &[u8]
    ensures { result.now ≡ trimmed text.now }
{
    before_blanks(behind_blanks(text))
}

fn parts_between_equals(alloc: Global, text: &[u8]) -> Result<Vec<&[u8]>, AllocError>
    ensures { IfOk result (λ v. map (λ w. w.now) v.items ≡ slice_split (λ b. b == 61) text.now) }
{
    text.split(|b| *b == b'=').collect(alloc)
}

// after a text, each part without the blanks around it, `=` before each
fn add_parts(out: &mut Bytes, parts: &[&[u8]]) -> Result<(), NoMemory>
    ensures { OnOk result (out.new ≡ join_with_byte 61 (out.old ∷ map trimmed (map (λ w. w.now) parts.now))) }
{
    for part in parts {
        out.push(b'=')?;
        out.extend(trim(part))?;
    }
    Ok(())
}

fn join(alloc: Global, parts: &[&[u8]]) -> Result<Bytes, NoMemory>
    ensures { IfOk result (λ t. t ≡ join_with_byte 61 (map trimmed (map (λ w. w.now) parts.now))) }
{
    let mut out = Bytes::new(alloc);
    if let [first, others @ ..] = parts {
        out.extend(trim(first))?;
        add_parts(&mut out, others)?;
    }
    Ok(out)
}

fn join_at_equals(alloc: Global, text: &[u8]) -> Result<Bytes, NoMemory>
    ensures { IfOk result (λ t. t ≡ joined_at_equals text.now) }
{
    let parts = parts_between_equals(alloc, text)?;
    join(alloc, parts.as_slice())
}

fn parts_between_blanks(alloc: Global, text: &[u8]) -> Result<Vec<&[u8]>, AllocError>
    ensures { IfOk result (λ v. map (λ w. w.now) v.items ≡ slice_split is_blank text.now) }
{
    text.split(|b| blank(*b)).collect(alloc)
}

fn split_at_blanks(alloc: Global, text: &[u8]) -> Result<Names, NoMemory>
    ensures { IfOk result (λ ns. ns ≡ map lowered (filter (λ w. not (length w == 0)) (slice_split is_blank text.now))) }
{
    let parts = parts_between_blanks(alloc, text)?;
    let mut names = Names::new(alloc);
    for word in &parts {
        if !word.is_empty() {
            names.push(lower(alloc, word)?)?;
        }
    }
    Ok(names)
}

/// The words of a joined line.
pub fn words(alloc: Global, text: &[u8]) -> Result<Names, NoMemory>
    ensures { IfOk result (λ ns. ns ≡ words_of text.now) }
{
    let joined = join_at_equals(alloc, text)?;
    split_at_blanks(alloc, joined.as_slice())
}
