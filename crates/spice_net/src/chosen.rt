ghost use Rattle.std.specs.Prelude.{◌≡◌, ◌<◌, [], length, position, IfOk, IfErr, IfSome, Ok, Err};
ghost use Rattle.spice_net.specs.Chosen.{first_is, second_is, begins, ends, has_name};
ghost use Rattle.spice_net.specs.Chosen.{makes_global, is_global, from_first, chosen_in};

use crate::fault::SpiceFault;
use crate::pairs::behind_first;
use cell_num::Name;
use spice_text::Line;

/// The line that begins a subcircuit, and the lines between it and the `.ends` line.
#[derive(Clone, Copy)]
pub struct Block<'a> {
    pub head: &'a Line,
    pub lines: &'a [Line],
}

/// Whether a line's first word is this one.
pub fn first_is(words: &[Name], word: &[u8]) -> bool
    ensures { result ≡ first_is word.now words.now }
{
    match words {
        [first, ..] => first.as_slice() == word,
        [] => false,
    }
}

fn second_is(words: &[Name], word: &[u8]) -> bool
    ensures { result ≡ second_is word.now words.now }
{
    match words {
        [_, second, ..] => second.as_slice() == word,
        _ => false,
    }
}

fn begins(line: &Line, name: &[u8]) -> bool
    ensures { result ≡ begins name.now line.now }
{
    let words = line.words.as_slice();
    first_is(words, b".subckt") && second_is(words, name)
}

fn ends(line: &Line) -> bool
    ensures { result ≡ ends line.now }
{
    first_is(line.words.as_slice(), b".ends")
}

/// Whether a name is among others.
pub fn has_name(names: &[Name], name: &[u8]) -> bool
    ensures { result ≡ has_name names.now name.now }
{
    names.iter().any(|other| name == other.as_slice())
}

fn makes_global(line: &Line, net: &[u8]) -> bool
    ensures { result ≡ makes_global net.now line.now }
{
    let words = line.words.as_slice();
    first_is(words, b".global") && has_name(behind_first(words), net)
}

/// Whether a line of the file makes a net global.
pub fn is_global(lines: &[Line], net: &[u8]) -> bool
    ensures { result ≡ is_global lines.now net.now }
{
    lines.iter().any(|line| makes_global(line, net))
}

fn from_begin<'a>(lines: &'a [Line], name: &[u8]) -> &'a [Line]
    ensures { result.now ≡ from_first (begins name.now) lines.now }
{
    for at in 0..lines.len() {
        if begins(&lines[at], name) {
            return &lines[at..];
        }
    }
    &[]
}

fn find_end(lines: &[Line]) -> Option<usize>
    ensures end { result ≡ position ends lines.now }
    ensures within { IfSome result (λ at. at < length lines.now) }
{
    lines.iter().position(|line| ends(line))
}

/// The lines of the subcircuit of a name.
pub fn choose<'a>(lines: &'a [Line], name: &[u8]) -> Result<Block<'a>, SpiceFault>
    ensures lines { IfOk result (λ b. chosen_in name.now lines.now ≡ Ok (record
        { head = b.head.now; inside = b.lines.now })) }
    ensures fault { IfErr result (λ f. chosen_in name.now lines.now ≡ Err f) }
{
    let [head, behind @ ..] = from_begin(lines, name) else {
        return Err(SpiceFault::NoCell);
    };
    match find_end(behind) {
        Some(end) => Ok(Block {
            head,
            lines: &behind[..end],
        }),
        None => Err(SpiceFault::Unended),
    }
}
