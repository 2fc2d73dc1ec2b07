ghost use Rattle.std.specs.Prelude.{◌≡◌, IfOk};
ghost use Rattle.call_work.specs.Ends.{refused, refusal_status, refusal_text};

use call_end::{End, Status};
use call_read::Refusal;
use call_words::put_usage;
use cell_num::{Bytes, NoMemory};
use cell_report::{put_fold, put_gds, put_lef, put_spice, put_tech};
use std::alloc::Global;

fn status_of(refusal: &Refusal) -> Status
    ensures { result ≡ refusal_status refusal.now }
{
    match refusal {
        Refusal::Words => Status::Usage,
        Refusal::Unread { .. } => Status::ReadFault,
        Refusal::Long { .. } => Status::TooLong,
        Refusal::Tech(_) | Refusal::Spice(_) | Refusal::Fold(_) => Status::Input,
        Refusal::Gds(_) => Status::Layout,
        Refusal::Lef(_) => Status::Disagree,
        Refusal::NoMemory => Status::NoMemory,
    }
}

fn report_of(alloc: Global, refusal: &Refusal) -> Result<Bytes, NoMemory>
    ensures { IfOk result (λ text. text ≡ refusal_text refusal.now) }
{
    let status = status_of(refusal);
    let mut report = status.report(alloc)?;
    match refusal {
        Refusal::Words => put_usage(&mut report)?,
        Refusal::Unread { name } | Refusal::Long { name } => {
            return status.report_of(alloc, name.as_slice());
        }
        Refusal::Tech(fault) => put_tech(&mut report, fault)?,
        Refusal::Spice(fault) => put_spice(&mut report, fault)?,
        Refusal::Fold(fault) => put_fold(&mut report, fault)?,
        Refusal::Gds(fault) => put_gds(&mut report, fault)?,
        Refusal::Lef(fault) => put_lef(&mut report, fault)?,
        Refusal::NoMemory => return Ok(Bytes::new(alloc)),
    }
    Ok(report)
}

/// The end of a call whose first refusal this is.
pub fn refused(alloc: Global, refusal: &Refusal) -> Result<End, NoMemory>
    ensures { IfOk result (λ end. end ≡ refused refusal.now) }
{
    let report = report_of(alloc, refusal)?;
    Ok(End::says(alloc, status_of(refusal), report))
}
