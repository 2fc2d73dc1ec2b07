ghost use Rattle.std.specs.Prelude.{◌≡◌, ◌≤◌, ◌<◌, ◌+◌, ◌++◌, [], Some, None, length, ◌≢◌, Ok, Err, IfOk, IfErr};
ghost use Rattle.spice_text.specs.declared.logical.TextFault.TheVariants as fault;
ghost use Rattle.spice_text.specs.Words.{words_of};
ghost use Rattle.spice_text.specs.Logical.{Group, grouped, tells_directions, split_of};
ghost use Rattle.spice_text.specs.Reader.{closed, extended, finish, with_info};

use crate::physical::first_line;
use crate::words::{before_mark, behind_blanks, refused, words};
use cell_num::{Bytes, List, MOST_BYTES, Names, NoMemory, copy};
use std::alloc::Global;
use std::marker::Model;
use thiserror::Error;

/// The words of a logical line in lower case, and the number of its first physical line, counted
/// from 1. `info` marks a comment whose first word is `*.pininfo`.
#[derive(Debug, Drop)]
pub struct Line {
    pub number: u32,
    pub info: bool,
    pub words: Names,
}

/// Logical lines and the comments that give directions of pins, in the order of a text.
pub type Lines = List<Line>;

/// A logical line that may go on.
#[derive(Debug, Drop)]
pub struct Open {
    pub number: u32,
    pub text: Bytes,
}

impl Model for Open {
    ghost use Rattle.spice_text.specs.Reader.{Open as OpenOf};

    ghost Value = { OpenOf };

    ghost view = { λ o. record { number = o.number; text = o.text } };
}

/// Why a text has no lines.
#[derive(Debug, Drop, Error)]
pub enum TextFault {
    /// The first physical line that holds, outside comments, a byte that is neither printable ASCII
    /// nor a tab.
    #[error("NotAscii")]
    NotAscii { line: u32 },
    #[error("NoMemory")]
    NoMemory,
}

impl From<NoMemory> for TextFault {
    ghost use Rattle.spice_text.specs.declared.logical.TextFault.TheVariants.{NoMemory};

    ghost from_gives = { λ _ e. e ≡ NoMemory };

    fn from(_: NoMemory) -> TextFault {
        TextFault::NoMemory
    }
}

// the lines that are done, the one that may go on, and the comments after it
#[derive(Debug, Drop)]
struct State {
    done: Lines,
    last: Option<Open>,
    behind: Lines,
}

fn joined(done: Lines, behind: Lines) -> Result<Lines, NoMemory>
    ensures { IfOk result (λ all. all ≡ done ++ behind) }
{
    let mut all = done.into_vec();
    let mut more = behind.into_vec();
    all.append(&mut more)?;
    Ok(Lines::from_vec(all))
}

fn close(alloc: Global, state: State) -> Result<Lines, NoMemory>
    ensures { IfOk result (λ all. all ≡ closed state.done state.last state.behind) }
{
    let State {
        mut done,
        last,
        behind,
    } = state;
    match last {
        None => joined(done, behind),
        Some(line) => {
            let words = words(alloc, line.text.as_slice())?;
            done.push(Line {
                number: line.number,
                info: false,
                words,
            })?;
            joined(done, behind)
        }
    }
}

fn extend(last: Option<Open>, more: &[u8]) -> Result<Option<Open>, NoMemory>
    ensures { IfOk result (λ new. new ≡ extended more.now last) }
{
    match last {
        None => Ok(None),
        Some(mut line) => {
            line.text.push(b' ')?;
            line.text.extend(more)?;
            Ok(Some(line))
        }
    }
}

fn begin(alloc: Global, number: u32, text: &[u8]) -> Result<Open, NoMemory>
    ensures { IfOk result (λ o. o ≡ record { number = number; text = text.now }) }
{
    Ok(Open {
        number,
        text: copy(alloc, text)?,
    })
}

fn is_info(words: &Names) -> bool
    ensures { result ≡ tells_directions words.now }
{
    match words.as_slice() {
        [] => false,
        [word, ..] => word.as_slice() == b"*.pininfo".as_slice(),
    }
}

fn add_comment(alloc: Global, number: u32, line: &[u8], behind: Lines) -> Result<Lines, NoMemory>
    ensures { IfOk result (λ new. new ≡ with_info number (words_of line.now) behind) }
{
    let mut new = behind;
    let words = words(alloc, line)?;
    if is_info(&words) {
        new.push(Line {
            number,
            info: true,
            words,
        })?;
    }
    Ok(new)
}

// takes a physical line without its comment
#[tactic(auto, using(crate::proofs::Groups::line_rules))]
fn take_line(alloc: Global, number: u32, line: &[u8], state: State) -> Result<State, NoMemory>
    ensures { IfOk result (λ new. (g : Group) → finish new.done new.last new.behind g ≡
        finish state.done state.last state.behind (grouped number line.now g)) }
{
    match behind_blanks(line) {
        [] => Ok(state),
        [b'*', ..] => {
            let behind = add_comment(alloc, number, line, state.behind)?;
            Ok(State {
                done: state.done,
                last: state.last,
                behind,
            })
        }
        [b'+', more @ ..] => {
            let last = extend(state.last, more)?;
            Ok(State {
                done: state.done,
                last,
                behind: state.behind,
            })
        }
        [_, ..] => {
            let done = close(alloc, state)?;
            let last = begin(alloc, number, line)?;
            Ok(State {
                done,
                last: Some(last),
                behind: Lines::new(alloc),
            })
        }
    }
}

/// The logical lines of a text, and its comments that give directions of pins, in the order of
/// their first physical lines. The text has at most a gibibyte.
#[tactic(auto, using(crate::proofs::Groups::split_rules))]
pub fn split_lines(alloc: Global, bytes: &[u8]) -> Result<Lines, TextFault>
    requires { length bytes.now ≤ MOST_BYTES }
    // The lines of the definition, or the first line that it refuses; memory may run out.
    ensures lines { IfOk result (λ lines. split_of bytes.now ≡ Ok lines) }
    ensures fault { IfErr result (λ f. f ≢ fault.NoMemory → split_of bytes.now ≡ Err f) }

    // Memory alone makes it NoMemory: the definition never answers so.
    ensures told { split_of bytes.now ≢ Err fault.NoMemory }
{
    let mut state = State {
        done: Lines::new(alloc),
        last: None,
        behind: Lines::new(alloc),
    };
    let mut rest = bytes;
    let mut number = 1;
    'lines: while !rest.is_empty() {
        let (line, after) = first_line(rest);
        let kept = before_mark(line);
        if refused(kept) {
            return Err(TextFault::NotAscii { line: number });
        }
        state = take_line(alloc, number, kept, state)?;
        rest = after;
        number += 1;
    }
    let lines = close(alloc, state)?;
    Ok(lines)
}
