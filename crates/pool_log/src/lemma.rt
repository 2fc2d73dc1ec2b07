ghost use Rattle.std.specs.Prelude.{◌≡◌, ◌≤◌, ◌++◌, IfOk, OnOk, map};
ghost use Rattle.order_log.specs.Text.{lemma_line};
ghost use Rattle.pool_log.specs.Line.{lemma_in};
ghost use Rattle.pool_log.specs.Text.{lemma_words};

use crate::balance::read_count;
use crate::ordered::read_classes;
use crate::{BalanceList, ClassList};
use cell_num::{Bytes, List, MOST_COLUMNS, MOST_NETS, NoMemory, put_number};
use log_lines::number_below;
use order_log::{LemmaText, put_list, read_ordered};
use std::alloc::Global;
use trail_log::NetPairs;

/// After the first `done` gates of the order, where they left an odd number of ends at the nodes `odd`, chained the
/// places that later gates can meet to these classes, and left these balances, at least `bound` more ends of trails
/// come.
#[derive(Debug, Drop)]
pub struct PoolLine {
    pub bound: u32,
    pub done: u32,
    pub odd: NetPairs,
    pub balances: BalanceList,
    pub classes: ClassList,
}

/// The lemmas of a certificate.
pub type PoolLines = List<PoolLine>;

fn read(alloc: Global, nets: u32, words: &[&[u8]]) -> Result<Option<PoolLine>, NoMemory>
    requires { nets ≤ MOST_NETS }
    ensures { IfOk result (λ lemma. lemma ≡ lemma_in nets (map (λ word. word.now) words.now)) }
{
    let [bound, done, odd_word, free, classes_word] = words else {
        return Ok(None);
    };
    let Some(bound) = read_count(bound) else {
        return Ok(None);
    };
    let Some(done) = number_below(done, MOST_COLUMNS as u32) else {
        return Ok(None);
    };
    let Some(odd) = read_ordered(alloc, nets, odd_word)? else {
        return Ok(None);
    };
    let Some(balances) = read_ordered(alloc, nets, free)? else {
        return Ok(None);
    };
    let Some(classes) = read_classes(alloc, nets, classes_word)? else {
        return Ok(None);
    };
    Ok(Some(PoolLine {
        bound,
        done,
        odd,
        balances,
        classes,
    }))
}

#[tactic(auto, using(crate::proofs::Lemmas::words_behind))]
fn put(lemma: &PoolLine, out: &mut Bytes) -> Result<(), NoMemory>
    ensures { OnOk result (out.new ≡ out.old ++ lemma_line lemma_words lemma.now) }
{
    out.extend(b"lemma ")?;
    put_number(out, u64::from(lemma.bound))?;
    out.extend(b" ")?;
    put_number(out, u64::from(lemma.done))?;
    out.extend(b" ")?;
    put_list(out, lemma.odd.as_slice())?;
    out.extend(b" ")?;
    put_list(out, lemma.balances.as_slice())?;
    out.extend(b" ")?;
    put_list(out, lemma.classes.as_slice())?;
    out.extend(b"\n")
}

impl LemmaText for PoolLine {
    ghost use Rattle.pool_log.specs.Line.{lemma_in};
    ghost use Rattle.pool_log.specs.Text.{lemma_words};

    ghost fields = { lemma_words };

    ghost said = { lemma_in };

    fn read(alloc: Global, nets: u32, words: &[&[u8]]) -> Result<Option<PoolLine>, NoMemory> {
        read(alloc, nets, words)
    }

    fn put(&self, out: &mut Bytes) -> Result<(), NoMemory> {
        put(self, out)
    }
}
