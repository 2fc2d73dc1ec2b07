ghost use Rattle.std.specs.Prelude.{◌≡◌, ◌≤◌, ◌*◌, ◌++◌, decimal, length, IfOk, OnOk};
ghost use Rattle.std.specs.List.{enumerate_from, flat_map};
ghost use Rattle.bench_command.specs.Text.{bench_text, cell_name, cell_text, chain_text, head_text, model_text};
ghost use Rattle.bench_command.specs.Text.{net_text, transistor_text, word_text};

use crate::pins::pins;
use crate::stage::stages;
use crate::transistor::transistors;
use crate::{Net, Stage, Transistor};
use cell_num::{Bytes, Name, NoMemory, Row, put_number};
use std::alloc::Global;

fn put_stage_net(out: &mut Bytes, letter: &[u8], stage: usize) -> Result<(), NoMemory>
    ensures { OnOk result (out.new ≡ out.old ++ letter.now ++ decimal stage) }
{
    out.extend(letter)?;
    put_number(out, stage as u64)
}

fn put_net(out: &mut Bytes, net: &Net) -> Result<(), NoMemory>
    ensures { OnOk result (out.new ≡ out.old ++ net_text net.now) }
{
    match net {
        Net::Input => out.extend(b"i0"),
        Net::Second(stage) => put_stage_net(out, b"s", *stage),
        Net::Output(stage) => put_stage_net(out, b"o", *stage),
        Net::Inner(stage) => put_stage_net(out, b"t", *stage),
        Net::Vdd => out.extend(b"vdd"),
        Net::Gnd => out.extend(b"gnd"),
    }
}

#[tactic(auto, unfolding(crate::specs::Text::word_text))]
fn put_word(out: &mut Bytes, net: &Net) -> Result<(), NoMemory>
    ensures { OnOk result (out.new ≡ out.old ++ word_text net.now) }
{
    out.extend(b" ")?;
    put_net(out, net)
}

fn put_words(out: &mut Bytes, nets: &[Net]) -> Result<(), NoMemory>
    ensures { OnOk result (out.new ≡ out.old ++ flat_map word_text nets.now) }
{
    for net in nets {
        put_word(out, net)?;
    }
    Ok(())
}

fn put_name(out: &mut Bytes, cell: u32) -> Result<(), NoMemory>
    ensures { OnOk result (out.new ≡ out.old ++ cell_name cell) }
{
    out.extend(b"c")?;
    put_number(out, u64::from(cell))
}

#[tactic(auto, unfolding(crate::specs::Text::head_text))]
fn put_head(alloc: Global, out: &mut Bytes, cell: u32, stages: &[Stage]) -> Result<(), NoMemory>
    ensures { OnOk result (out.new ≡ out.old ++ head_text cell stages.now) }
{
    let pins = pins(alloc, stages)?;
    out.extend(b".SUBCKT ")?;
    put_name(out, cell)?;
    put_words(out, pins.as_slice())?;
    out.extend(b"\n")
}

#[tactic(auto, unfolding(crate::specs::Text::model_text))]
fn model_text(row: Row) -> &'static [u8]
    ensures { result.now ≡ model_text row }
{
    match row {
        Row::P => b" vdd p W=3u L=0.6u\n",
        Row::N => b" gnd n W=1.5u L=0.6u\n",
    }
}

#[tactic(auto, unfolding(crate::specs::Text::transistor_text))]
fn put_transistor(out: &mut Bytes, number: usize, one: &Transistor) -> Result<(), NoMemory>
    ensures { OnOk result (out.new ≡ out.old ++ transistor_text (number, one.now)) }
{
    out.extend(b"M")?;
    put_number(out, number as u64)?;
    put_word(out, &one.drain)?;
    put_word(out, &one.gate)?;
    put_word(out, &one.source)?;
    out.extend(model_text(one.row))
}

fn put_transistors(out: &mut Bytes, transistors: &[Transistor]) -> Result<(), NoMemory>
    ensures { OnOk result (out.new ≡ out.old ++ flat_map transistor_text (enumerate_from 0 transistors.now)) }
{
    'transistors: for (number, one) in transistors.iter().enumerate() {
        put_transistor(out, number, one)?;
    }
    Ok(())
}

#[tactic(auto, unfolding(crate::specs::Text::chain_text))]
fn put_chain(alloc: Global, out: &mut Bytes, cell: u32, stages: &[Stage]) -> Result<(), NoMemory>
    ensures { OnOk result (out.new ≡ out.old ++ chain_text cell stages.now) }
{
    let transistors = transistors(alloc, stages)?;
    put_head(alloc, out, cell, stages)?;
    put_transistors(out, transistors.as_slice())?;
    out.extend(b".ENDS\n")
}

fn put_cell(alloc: Global, out: &mut Bytes, cell: u32) -> Result<(), NoMemory>
    ensures { OnOk result (out.new ≡ out.old ++ cell_text cell) }
{
    let stages = stages(alloc, cell)?;
    put_chain(alloc, out, cell, stages.as_slice())
}

/// The most bytes of a generated cell.
pub const MOST_CELL_BYTES: usize = 800;

/// The SPICE text of the generated cells numbered below `number`, each a subcircuit of its own.
#[tactic(auto, using(crate::proofs::Lengths::bench_short))]
pub fn bench_text(alloc: Global, number: u32) -> Result<Vec<u8>, NoMemory>
    ensures text { IfOk result (λ text. text.items ≡ bench_text number) }
    ensures short { IfOk result (λ text. length text.items ≤ MOST_CELL_BYTES * number) }
{
    let mut out = Bytes::new(alloc);
    for cell in 0..number {
        put_cell(alloc, &mut out, cell)?;
    }
    Ok(out.into_vec())
}

/// The name of the generated cell of that number: `c` and the number in decimal digits.
pub fn cell_name(alloc: Global, cell: u32) -> Result<Name, NoMemory>
    ensures { IfOk result (λ name. name ≡ cell_name cell) }
{
    let mut name = Name::new(alloc);
    put_name(&mut name, cell)?;
    Ok(name)
}
