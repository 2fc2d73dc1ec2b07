ghost use Rattle.std.specs.Prelude.{◌≡◌, ◌≤◌, ◌++◌, IfOk, OnOk, map};
ghost use Rattle.log_lines.specs.Words.{words_in};
ghost use Rattle.fewer_log.specs.Line.{gates_in, out_in, row_in};
ghost use Rattle.fewer_log.specs.Text.{out_line, row_text};

use cell_num::{Bytes, MOST_NETS, NoMemory, Row};
use fewer_fingers::LeftOut;
use log_lines::{all_parts, is_word};
use order_log::{increases, put_list, read_each};
use std::alloc::Global;
use trail_log::NetList;

fn read_row(word: &[u8]) -> Option<Row>
    ensures { result ≡ row_in word.now }
{
    if is_word(word, b"P") {
        Some(Row::P)
    } else if is_word(word, b"N") {
        Some(Row::N)
    } else {
        None
    }
}

fn read_gates(alloc: Global, nets: u32, word: &[u8]) -> Result<Option<NetList>, NoMemory>
    requires { nets ≤ MOST_NETS }
    ensures { IfOk result (λ gates. gates ≡ gates_in nets word.now) }
{
    let Some(gates): Option<NetList> = read_each(alloc, nets, b',', word)? else {
        return Ok(None);
    };
    if increases(gates.as_slice()) {
        Ok(Some(gates))
    } else {
        Ok(None)
    }
}

fn out_of_words(alloc: Global, nets: u32, words: &[&[u8]]) -> Result<Option<LeftOut>, NoMemory>
    requires { nets ≤ MOST_NETS }
    ensures { IfOk result (λ out. out ≡ out_in nets (map (λ word. word.now) words.now)) }
{
    let [front, row, list] = words else {
        return Ok(None);
    };
    if !is_word(front, b"without") {
        return Ok(None);
    }
    let Some(row) = read_row(row) else {
        return Ok(None);
    };
    let Some(gates) = read_gates(alloc, nets, list)? else {
        return Ok(None);
    };
    Ok(Some(LeftOut { row, gates }))
}

/// What is left out, by its line.
pub(crate) fn read_out(alloc: Global, nets: u32, line: &[u8]) -> Result<Option<LeftOut>, NoMemory>
    requires { nets ≤ MOST_NETS }
    ensures { IfOk result (λ out. out ≡ out_in nets (words_in line.now)) }
{
    let words = all_parts(alloc, line, b' ')?;
    let out = out_of_words(alloc, nets, words.as_slice())?;
    Ok(out)
}

fn row_word(row: Row) -> &'static [u8]
    ensures { result.now ≡ row_text row }
{
    match row {
        Row::P => b"P",
        Row::N => b"N",
    }
}

/// Writes the line of what is left out.
#[tactic(auto, using(crate::proofs::Outs::out_behind))]
pub(crate) fn put_out(text: &mut Bytes, out: &LeftOut) -> Result<(), NoMemory>
    ensures { OnOk result (text.new ≡ text.old ++ out_line out.now) }
{
    text.extend(b"without ")?;
    text.extend(row_word(out.row))?;
    text.extend(b" ")?;
    put_list(text, out.gates.as_slice())?;
    text.extend(b"\n")
}
