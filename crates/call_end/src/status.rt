ghost use Rattle.std.specs.Prelude.{◌≡◌, IfOk};
ghost use Rattle.call_end.specs.Status.{number_of, text_of, first_line, named_line};

use cell_num::{Bytes, NoMemory, put_text};
use std::alloc::Global;

/// How a call of the program ended. The program ends with the status's number.
#[derive(Clone, Copy, Debug, PartialEq, Eq)]
pub enum Status {
    /// The work was done and its report said whole.
    Done,
    /// The words have none of the listed forms.
    Usage,
    /// A file is not there, or reading it failed.
    ReadFault,
    /// Writing a file or saying the report failed.
    WriteFault,
    /// The technology, the subcircuit or its folding is refused.
    Input,
    /// The least row has a cycle of vertical constraints; with `--low`, each least row has one.
    Cycle,
    /// The budget ended the search.
    Unfinished,
    /// A log is not accepted, or a layout breaks a rule.
    Rejected,
    NoMemory,
    /// A layout is not read or not extracted.
    Layout,
    /// A file has more bytes than its limit.
    TooLong,
    /// The technology's height is below the one that the cell needs.
    TooTall,
    /// The cells of a row do not fit beside each other.
    Row,
    /// An abstract does not agree with a layout.
    Disagree,
}

impl Status {
    /// 0 to 13, in the order above.
    pub fn number(&self) -> u8
        ensures { result ≡ number_of self.now }
    {
        match self {
            Status::Done => 0,
            Status::Usage => 1,
            Status::ReadFault => 2,
            Status::WriteFault => 3,
            Status::Input => 4,
            Status::Cycle => 5,
            Status::Unfinished => 6,
            Status::Rejected => 7,
            Status::NoMemory => 8,
            Status::Layout => 9,
            Status::TooLong => 10,
            Status::TooTall => 11,
            Status::Row => 12,
            Status::Disagree => 13,
        }
    }

    // The number and the word, with which a report begins.
    fn text(&self) -> &'static [u8]
        ensures { result.now ≡ text_of self.now }
    {
        match self {
            Status::Done => b"status 0 ok",
            Status::Usage => b"status 1 usage",
            Status::ReadFault => b"status 2 read",
            Status::WriteFault => b"status 3 write",
            Status::Input => b"status 4 input",
            Status::Cycle => b"status 5 cycle",
            Status::Unfinished => b"status 6 unfinished",
            Status::Rejected => b"status 7 rejected",
            Status::NoMemory => b"status 8 memory",
            Status::Layout => b"status 9 layout",
            Status::TooLong => b"status 10 long",
            Status::TooTall => b"status 11 tall",
            Status::Row => b"status 12 row",
            Status::Disagree => b"status 13 disagree",
        }
    }

    /// A report that has its first line.
    pub fn report(&self, alloc: Global) -> Result<Bytes, NoMemory>
        ensures { IfOk result (λ report. report ≡ first_line self.now) }
    {
        let mut report = Bytes::new(alloc);
        report.extend(self.text())?;
        report.extend(b"\n")?;
        Ok(report)
    }

    /// The report of the status with the name of a file.
    pub fn report_of(&self, alloc: Global, name: &[u8]) -> Result<Bytes, NoMemory>
        ensures { IfOk result (λ report. report ≡ named_line self.now name.now) }
    {
        let mut report = Bytes::new(alloc);
        report.extend(self.text())?;
        put_text(&mut report, b" ", name)?;
        Ok(report)
    }
}
