ghost use Rattle.std.specs.Prelude.{◌≡◌, ◌≢◌, ◌≤◌, ◌<◌, ◌+◌, ◌-◌, None, Ok, Err, IfOk, IfErr, IfSome, OnOk, OnErr};
ghost use Rattle.std.specs.Prelude.{length};
ghost use Rattle.std.specs.Io.KnownBytes.{WriteAppends};
ghost use Rattle.std.specs.IoError.{error_kind};
ghost use Rattle.std.specs.declared.io.ErrorKind.TheVariants.{NotFound};
ghost use Rattle.cell_io.specs.Desk.{Rose};
ghost use Rattle.cell_io.specs.Host.{host_view, read_faults_of, write_faults_of, shorts_of};
ghost use Rattle.cell_io.specs.Reading.{name_of};
ghost use Rattle.cell_io.specs.declared.desk.DeskAnswer.TheVariants.{Missing, Failed};

use crate::reading::Reading;
use crate::{Desk, DeskAnswer};
use std::fs::OpenOptions;
use std::io::Write;
use std::rt::Files;
use std::{fs, io};

/// The files of the system and standard output. No contract can say what they hold, so this desk
/// shows only its counts. It keeps the file that it read last open and reads on in it, so a
/// file that is replaced meanwhile is read as it was, and one that cannot seek can be read once.
#[derive(Drop)]
pub struct HostDesk<'a, R: Files> {
    rt: &'a R,
    reading: Option<Reading<R::File>>,
    read_faults: u64,
    write_faults: u64,
    shorts: u64,
}

// Reads on in the file that was read last, or opens this one. What fails is not kept.
fn read_kept<R: Files>(
    rt: &R,
    kept: &mut Option<Reading<R::File>>,
    name: &str,
    from: u64,
    into: &mut [u8],
) -> io::Result<usize>
    ensures within { IfOk result (λ count. count ≤ length into.new) }
    ensures kept { OnOk result (IfSome kept.new (λ reading. name_of reading ≡ name.now)) }
    ensures dropped { OnErr result (kept.new ≡ None) }
{
    let mut reading = match kept.take().filter(|reading| reading.is_of(name)) {
        Some(reading) => reading,
        None => Reading::new(name, fs::open(rt, name)?)?,
    };
    let count = reading.read_part(from, into)?;
    *kept = Some(reading);
    Ok(count)
}

// The answer for a failed read.
fn answer_to(error: &io::Error) -> DeskAnswer
    ensures missing { error_kind error.now ≡ NotFound → result ≡ Missing }
    ensures failed { error_kind error.now ≢ NotFound → result ≡ Failed }
{
    if error.kind() == io::ErrorKind::NotFound {
        DeskAnswer::Missing
    } else {
        DeskAnswer::Failed
    }
}

fn make_empty<R: Files>(rt: &R, name: &str) -> io::Result<()> {
    let _file = fs::create(rt, name)?;
    Ok(())
}

// Writes the first bytes of the part, and answers how many.
fn write_part<W: Write>(writer: &mut W, part: &[u8]) -> io::Result<usize>
    ensures within { IfOk result (λ count. count ≤ length part.now) }
    ensures bytes { WriteAppends (W.contents writer.old) (W.contents writer.new) result part.now }
{
    writer.write(part)
}

fn append_part<R: Files>(rt: &R, name: &str, part: &[u8]) -> io::Result<usize>
    ensures { IfOk result (λ count. count ≤ length part.now) }
{
    let mut file = OpenOptions::new().append(true).open(rt, name)?;
    write_part(&mut file, part)
}

fn print_part<R: Print>(rt: &R, part: &[u8]) -> io::Result<usize>
    ensures { IfOk result (λ count. count ≤ length part.now) }
{
    write_part(&mut io::writer(rt), part)
}

// The answer to a call that wrote some of the part, a fault counted.
fn count_fault(
    written: io::Result<usize>,
    part: &[u8],
    faults: &mut u64,
) -> Result<usize, DeskAnswer>
    requires { IfOk written (λ count. count ≤ length part.now) }
    ensures within { IfOk result (λ count. count ≤ length part.now) }
    ensures none { result ≡ Ok 0 → 0 < length part.now → Rose faults.old faults.new }
    ensures failed { IfErr result (λ answer. (answer ≡ Failed) × Rose faults.old faults.new) }
    ensures quiet { IfOk result (λ count. 0 < count → faults.new ≡ faults.old) }
    ensures count { faults.old ≤ faults.new }
{
    match written {
        Ok(count) => {
            if count == 0 && !part.is_empty() {
                *faults = faults.saturating_add(1);
            }
            Ok(count)
        }
        Err(_) => {
            *faults = faults.saturating_add(1);
            Err(DeskAnswer::Failed)
        }
    }
}

impl<'a, R: Files + Print> HostDesk<'a, R> {
    /// A desk over the system's files and output, before its first call.
    pub fn new(rt: &'a R) -> HostDesk<'a, R>
        ensures read_count { read_faults_of result ≡ 0 }
        ensures write_count { write_faults_of result ≡ 0 }
        ensures short_count { shorts_of result ≡ 0 }
    {
        HostDesk {
            rt,
            reading: None,
            read_faults: 0,
            write_faults: 0,
            shorts: 0,
        }
    }
}

impl<R: Files + Print> Desk for HostDesk<'_, R> {
    ghost view = { λ m. host_view m };

    fn read_part(&mut self, name: &str, from: u64, into: &mut [u8]) -> Result<usize, DeskAnswer> {
        match read_kept(self.rt, &mut self.reading, name, from, into) {
            Ok(count) => Ok(count),
            Err(error) => {
                self.read_faults = self.read_faults.saturating_add(1);
                Err(answer_to(&error))
            }
        }
    }

    fn create(&mut self, name: &str) -> Result<(), DeskAnswer> {
        match make_empty(self.rt, name) {
            Ok(()) => Ok(()),
            Err(_) => {
                self.write_faults = self.write_faults.saturating_add(1);
                Err(DeskAnswer::Failed)
            }
        }
    }

    fn append(&mut self, name: &str, part: &[u8]) -> Result<usize, DeskAnswer> {
        count_fault(
            append_part(self.rt, name, part),
            part,
            &mut self.write_faults,
        )
    }

    fn say(&mut self, part: &[u8]) -> Result<usize, DeskAnswer> {
        count_fault(print_part(self.rt, part), part, &mut self.write_faults)
    }
}
