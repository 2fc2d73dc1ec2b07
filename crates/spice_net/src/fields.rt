ghost use Rattle.std.specs.Prelude.{◌≡◌};
ghost use Rattle.std.specs.List.{list_all};
ghost use Rattle.cell_num.specs.Names.{is_name};
ghost use Rattle.spice_net.specs.Transistors.{fields_of};

use crate::fault::SpiceFault;
use crate::parameters::{are_parameters, value_of, value_or_one};
use cell_num::{Name, is_name};
use std::marker::Model;

/// What the words of a transistor line say: its nets, its model, and the values that count for the
/// channel's width, its length, `m` and `nf`.
#[derive(Drop)]
pub struct Fields<'a> {
    pub drain: &'a [u8],
    pub gate: &'a [u8],
    pub source: &'a [u8],
    pub bulk: &'a [u8],
    pub model: &'a [u8],
    pub width: &'a [u8],
    pub channel: &'a [u8],
    pub m: &'a [u8],
    pub nf: &'a [u8],
}

impl<'a> Model for Fields<'a> {
    ghost use Rattle.spice_net.specs.Transistors.{Fields as FieldsOf};

    ghost Value = { FieldsOf };

    ghost view = { λ v. record {
      drain = v.drain.now;
      gate = v.gate.now;
      source = v.source.now;
      bulk = v.bulk.now;
      model = v.model.now;
      width = v.width.now;
      channel = v.channel.now;
      m = v.m.now;
      nf = v.nf.now;
    } };
}

/// Whether each of the words may name something.
pub fn are_names(words: &[Name]) -> bool
    ensures { result ≡ list_all is_name words.now }
{
    words.iter().all(|word| is_name(word.as_slice()))
}

/// What the words of a line say that is numbered `line`.
pub fn read_fields(line: u32, words: &[Name]) -> Result<Fields<'_>, SpiceFault>
    ensures { result ≡ fields_of line words.now }
{
    let [_, drain, gate, source, bulk, model, parameters @ ..] = words else {
        return Err(SpiceFault::Fields { line });
    };
    if !are_names(&words[..6]) || !are_parameters(parameters) {
        return Err(SpiceFault::Fields { line });
    }
    let Some(width) = value_of(b"w=", parameters) else {
        return Err(SpiceFault::Fields { line });
    };
    let Some(channel) = value_of(b"l=", parameters) else {
        return Err(SpiceFault::Fields { line });
    };
    Ok(Fields {
        drain: drain.as_slice(),
        gate: gate.as_slice(),
        source: source.as_slice(),
        bulk: bulk.as_slice(),
        model: model.as_slice(),
        width,
        channel,
        m: value_or_one(b"m=", parameters),
        nf: value_or_one(b"nf=", parameters),
    })
}
