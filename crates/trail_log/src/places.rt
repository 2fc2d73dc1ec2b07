ghost use Rattle.std.specs.Prelude.{◌≡◌, ◌≤◌, ◌<◌, IfOk, map};
ghost use Rattle.trail_log.specs.Listed.{class_in, class_of, class_with, node_in, node_of};
ghost use Rattle.trail_log.specs.Spelling.{class_text, flag_text, node_text};

use crate::listed::{Listed, each_text, read_each};
use crate::nets::net;
use crate::text::number_text;
use crate::{Class, NetPair};
use cell_num::{Bytes, MOST_NETS, NoMemory};
use log_lines::all_parts;
use std::alloc::Global;

fn node_of_words(nets: u32, words: &[&[u8]]) -> Option<NetPair>
    requires { nets ≤ MOST_NETS }
    ensures { result ≡ node_of nets (map (λ word. word.now) words.now) }
{
    let [p, n] = words else {
        return None;
    };
    let p = net(p, nets)?;
    let n = net(n, nets)?;
    Some(NetPair { p, n })
}

fn wide(net: u32) -> u64
    ensures is { result ≡ net }
    ensures few { result < 4294967296 }
{
    u64::from(net)
}

impl Listed for NetPair {
    ghost use Rattle.trail_log.specs.Listed.{node_in};
    ghost use Rattle.trail_log.specs.Order.{node_rank};
    ghost use Rattle.trail_log.specs.Spelling.{node_text};

    ghost spelling = { node_text };

    ghost said = { node_in };

    ghost place = { node_rank };

    fn read(alloc: Global, nets: u32, word: &[u8]) -> Result<Option<NetPair>, NoMemory> {
        let words = all_parts(alloc, word, b'.')?;
        Ok(node_of_words(nets, words.as_slice()))
    }

    fn text(&self, alloc: Global) -> Result<Bytes, NoMemory> {
        let mut text = number_text(alloc, self.p.0)?;
        text.push(b'.')?;
        text.extend(number_text(alloc, self.n.0)?.as_slice())?;
        Ok(text)
    }

    fn rank(&self) -> u64 {
        4_294_967_296 * wide(self.p.0) + wide(self.n.0)
    }
}

fn class(alloc: Global, nets: u32, flagged: bool, word: &[u8]) -> Result<Option<Class>, NoMemory>
    requires { nets ≤ MOST_NETS }
    ensures { IfOk result (λ class. class ≡ class_with nets flagged word.now) }
{
    let Some(nodes) = read_each(alloc, nets, b'+', word)? else {
        return Ok(None);
    };
    Ok(Some(Class { nodes, flagged }))
}

fn class_of_words(alloc: Global, nets: u32, words: &[&[u8]]) -> Result<Option<Class>, NoMemory>
    requires { nets ≤ MOST_NETS }
    ensures { IfOk result (λ class. class ≡ class_of nets (map (λ word. word.now) words.now)) }
{
    match words {
        [nodes] => class(alloc, nets, false, nodes),
        [nodes, []] => class(alloc, nets, true, nodes),
        _ => Ok(None),
    }
}

fn flag(flagged: bool) -> &'static [u8]
    ensures { result.now ≡ flag_text flagged }
{
    if flagged { b"!" } else { b"" }
}

impl Listed for Class {
    ghost use Rattle.trail_log.specs.Listed.{class_in};
    ghost use Rattle.trail_log.specs.Order.{class_rank};
    ghost use Rattle.trail_log.specs.Spelling.{class_text};

    ghost spelling = { class_text };

    ghost said = { class_in };

    ghost place = { class_rank };

    fn read(alloc: Global, nets: u32, word: &[u8]) -> Result<Option<Class>, NoMemory> {
        let words = all_parts(alloc, word, b'!')?;
        let class = class_of_words(alloc, nets, words.as_slice())?;
        Ok(class)
    }

    fn text(&self, alloc: Global) -> Result<Bytes, NoMemory> {
        let mut text = each_text(alloc, b'+', self.nodes.as_slice())?;
        text.extend(flag(self.flagged))?;
        Ok(text)
    }

    fn rank(&self) -> u64 {
        match self.nodes.as_slice() {
            [first, ..] => first.rank(),
            [] => 0,
        }
    }
}
