ghost use Rattle.std.specs.Prelude.{◌≡◌, ◌≢◌, ◌≤◌, ◌<◌, ◌+◌, Err, IfErr, IfOk, None, Ok, OnOk, Some, length, take};
ghost use Rattle.log_lines.specs.Fronts.{IsShort, longer};
ghost use Rattle.bound_log.specs.declared.fault.LogFault.TheVariants as fault;
ghost use Rattle.bound_log.specs.Fits.{IsLogName};
ghost use Rattle.bound_log.specs.Pieces.{ItemFits, PlaceFits, SaidFits, begun, behind_line, ended, line_bytes, passed};
ghost use Rattle.bound_log.specs.Pieces.{refused, tale_of, told, whole_says, with_line};

use crate::said::{Said, say_line, wrong_at};
use crate::{LogFault, LogItem, LogPlace};
use cell_num::{MOST_BYTES, Name, NoMemory, copy};
use log_lines::{LineFront, LineRoom, find_feed};
use row_state::Kinds;
use std::alloc::Global;
use std::marker::Model;

/// A log that comes in pieces: what each line says, in memory for one line. A piece may end anywhere.
#[derive(Drop)]
pub struct LogReader {
    alloc: Global,
    name: Name,
    kinds: Kinds,
    place: LogPlace,
    number: u32,
    line: LineFront,
    // A line that comes in more than one piece is put together here.
    whole: LineRoom,
    fault: Option<LogFault>,
}

impl Model for LogReader {
    ghost use Rattle.bound_log.specs.Pieces.{PlaceFits, Reader};

    ghost Value = { Reader };

    ghost view = { λ r. record {
      name = r.name;
      kinds = r.kinds;
      place = r.place;
      number = r.number;
      line = r.line;
      fault = r.fault;
    } };

    ghost invariant = { λ r. PlaceFits r.place };
}

impl LogReader {
    /// A reader of a log for the cell of that name and the kinds of its fingers. The name has 1 to 32
    /// bytes and no line feed.
    pub fn new(alloc: Global, name: &Name, kinds: &Kinds) -> Result<LogReader, NoMemory>
        requires name { IsLogName name.now }
        ensures { IfOk result (λ reader. reader ≡ begun name.now kinds.now) }
    {
        Ok(LogReader {
            alloc,
            name: copy(alloc, name.as_slice())?,
            kinds: kinds.clone()?,
            place: LogPlace::Version,
            number: 1,
            line: LineFront::new(alloc)?,
            whole: LineRoom::new(alloc)?,
            fault: None,
        })
    }

    // What the line says that these bytes are.
    fn say_whole(&self, line: &[u8]) -> Result<Said, LogFault>
        ensures said { IfOk result (λ said. whole_says self.now (Some line.now) ≡ Ok said) }
        ensures fits { IfOk result (SaidFits self.now.kinds) }
        ensures fault { IfErr result (λ f. f ≢ fault.NoMemory → whole_says self.now (Some line.now) ≡ Err f) }
    {
        self.kinds.show_limits();
        say_line(
            self.alloc,
            &self.name,
            &self.kinds,
            self.place,
            self.number,
            line,
        )
    }

    // What the line says that ends after these bytes.
    fn say(&mut self, part: &[u8]) -> Result<Said, LogFault>
        ensures same { self.new ≡ self.old }
        ensures short { IsShort self.old.line }
        ensures said { IfOk result (λ said. whole_says self.old (longer self.old.line part.now) ≡ Ok said) }
        ensures fits { IfOk result (SaidFits self.old.kinds) }
        ensures fault { IfErr result (λ f.
            f ≢ fault.NoMemory → whole_says self.old (longer self.old.line part.now) ≡ Err f) }
    {
        if !self.line.fits(part) {
            return Err(wrong_at(self.place, self.number));
        }
        if self.line.is_empty() {
            return self.say_whole(part);
        }
        self.line.put_whole(part, &mut self.whole);
        self.say_whole(self.whole.as_slice())
    }

    fn refuse(&mut self, fault: LogFault)
        ensures { self.new ≡ refused self.old fault }
    {
        self.line.clear();
        self.fault = Some(fault);
    }

    fn pass(&mut self, next: LogPlace)
        requires fault { self.old.fault ≡ None }
        requires few { self.old.number ≤ MOST_BYTES + 1 }
        requires fits { PlaceFits next }
        ensures { self.new ≡ passed self.old next }
    {
        self.place = next;
        self.number += 1;
        self.line.clear();
    }

    // The line feed after these bytes.
    fn end_line(&mut self, part: &[u8]) -> Result<Said, LogFault>
        requires fault { self.old.fault ≡ None }
        requires few { self.old.number ≤ MOST_BYTES + 1 }
        ensures short { IsShort self.old.line }
        ensures said { IfOk result (λ said. whole_says self.old (longer self.old.line part.now) ≡ Ok said) }
        ensures fits { IfOk result (SaidFits self.old.kinds) }
        ensures behind { IfOk result (λ said. self.new ≡ behind_line self.old (Ok said)) }
        ensures fault { IfErr result (λ f.
            f ≢ fault.NoMemory → whole_says self.old (longer self.old.line part.now) ≡ Err f) }
        ensures refused { IfErr result (λ f. f ≢ fault.NoMemory → self.new ≡ refused self.old f) }
        ensures memory { IfErr result (λ f. f ≡ fault.NoMemory → self.new ≡ self.old) }
    {
        match self.say(part) {
            Ok(said) => {
                self.pass(said.next);
                Ok(said)
            }
            Err(LogFault::NoMemory) => Err(LogFault::NoMemory),
            Err(fault) => {
                self.refuse(fault);
                Err(fault)
            }
        }
    }

    /// Takes the front of a piece that is not empty, up to the end of one line or all of it, and answers
    /// how many bytes that is and what the line says. After a fault each call answers that fault; after
    /// NoMemory the reader is as it was.
    #[tactic(auto, using(crate::proofs::Rules::take_rules))]
    pub fn take(&mut self, part: &[u8]) -> Result<(usize, LogItem), LogFault>
        requires some { 0 < length part.now }
        requires few { self.old.number + length part.now ≤ MOST_BYTES + 1 }
        ensures used { IfOk result (λ took. took.0 ≡ line_bytes part.now) }
        ensures item { IfOk result (λ took.
            tale_of self.old (take took.0 part.now) ≡ record { items = told took.1; reader = self.new }) }
        ensures fits { IfOk result (λ took. ItemFits self.old.kinds took.1) }
        ensures sound { OnOk result (self.new.fault ≡ None) }
        ensures few { IfOk result (λ took. self.new.number ≤ self.old.number + took.0) }
        ensures within { IfOk result (λ took. (0 < took.0) × (took.0 ≤ length part.now)) }
        ensures fault { IfErr result (λ f. f ≢ fault.NoMemory →
            (tale_of self.old (take (line_bytes part.now) part.now)).reader ≡ self.new) }
        ensures told { IfErr result (λ f. f ≢ fault.NoMemory → self.new.fault ≡ Some f) }
        ensures memory { IfErr result (λ f. f ≡ fault.NoMemory → self.new ≡ self.old) }
    {
        if let Some(fault) = self.fault {
            return Err(fault);
        }
        if self.place == LogPlace::Behind {
            let fault = LogFault::Line { line: self.number };
            self.refuse(fault);
            return Err(fault);
        }
        let Some(at) = find_feed(part) else {
            self.line.add(part);
            return Ok((part.len(), LogItem::More));
        };
        let said = self.end_line(&part[..at])?;
        Ok((at + 1, said.item))
    }

    /// Whether the log is whole: a fault again, or `Cut` where the last line did not come.
    pub fn finish(&self) -> Result<(), LogFault>
        ensures { result ≡ ended self.now.fault self.now.place tt }
    {
        match self.fault {
            Some(fault) => Err(fault),
            None => match self.place {
                LogPlace::Behind => Ok(()),
                _ => Err(LogFault::Cut),
            },
        }
    }
}
