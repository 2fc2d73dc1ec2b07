ghost use Rattle.std.specs.Prelude.{◌≡◌, ◌≢◌, ◌⊎◌, OnOk, OnErr, IsErrOf, string_bytes};
ghost use Rattle.cell_io.specs.Desk.{Both, CreatesOne, ForSome, OnlyMakes, Rose, WrittenIn};
ghost use Rattle.cell_io.specs.declared.output.WriteFault.TheVariants.{Failed, NoMemory};
ghost use Rattle.log_output.specs.Giving.{KeepsUntold};
ghost use Rattle.call_end.specs.declared.status.Status.TheVariants as status;
ghost use Rattle.call_end.specs.Deliver.{CreatesAll, CreatesFront, Makes, MakesAll, MakesSome, OnlyTells, Tells};

use crate::end::{End, Output, OutputList};
use crate::status::Status;
use cell_io::{Desk, WriteFault, write_all};
use log_output::Target;

// Makes a file, empty, and puts what it holds there.
fn make_file<D: Desk>(desk: &mut D, file: Output) -> Result<(), WriteFault>
    ensures whole { OnOk result (Both (Makes file) (D.view desk.old).made (D.view desk.new).made) }
    ensures some { OnErr result (((D.view desk.new).made ≡ (D.view desk.old).made)
        ⊎ Both (ForSome file.bytes (WrittenIn (string_bytes file.name) file.bytes))
        (D.view desk.old).made (D.view desk.new).made) }
    ensures once { OnOk result
        (Both (CreatesOne (string_bytes file.name)) (D.view desk.old).created (D.view desk.new).created) }
    ensures at_most_once { OnErr result (((D.view desk.new).created ≡ (D.view desk.old).created)
        ⊎ Both (CreatesOne (string_bytes file.name)) (D.view desk.old).created (D.view desk.new).created) }
    ensures failed { IsErrOf result Failed → Rose (D.view desk.old).write_faults (D.view desk.new).write_faults }
    ensures memory { IsErrOf result NoMemory → Rose (D.view desk.old).shorts (D.view desk.new).shorts }
    ensures counts { KeepsUntold result (D.view desk.old) (D.view desk.new) }
    ensures only { OnlyMakes (D.view desk.old) (D.view desk.new) }
{
    let Output { name, bytes } = file;
    match write_all(desk, name.as_str(), &[]) {
        Ok(()) => bytes.give(desk, Target::File(name.as_str())),
        Err(fault) => Err(fault),
    }
}

// Makes the files in order.
#[tactic(auto, using(crate::proofs::Rules::make_files_rules))]
fn make_files<D: Desk>(desk: &mut D, files: OutputList) -> Result<(), WriteFault>
    ensures all { OnOk result (Both (MakesAll files) (D.view desk.old).made (D.view desk.new).made) }
    ensures some { OnErr result (Both (MakesSome files) (D.view desk.old).made (D.view desk.new).made) }
    ensures once { OnOk result (Both (CreatesAll files) (D.view desk.old).created (D.view desk.new).created) }
    ensures at_most_once { OnErr result
        (Both (CreatesFront files) (D.view desk.old).created (D.view desk.new).created) }
    ensures failed { IsErrOf result Failed → Rose (D.view desk.old).write_faults (D.view desk.new).write_faults }
    ensures memory { IsErrOf result NoMemory → Rose (D.view desk.old).shorts (D.view desk.new).shorts }
    ensures counts { KeepsUntold result (D.view desk.old) (D.view desk.new) }
    ensures only { OnlyMakes (D.view desk.old) (D.view desk.new) }
{
    'files: for file in files.into_vec() {
        make_file(desk, file)?;
    }
    Ok(())
}

/// Makes the files of an end in order, each once, then says its report. It takes no memory but what the desk takes.
pub fn deliver<D: Desk>(desk: &mut D, end: End) -> Status
    ensures tells { Tells end result (D.view desk.old) (D.view desk.new) }
    // A failing call of the desk ends it: a count is as before wherever the status reports no such failure.
    ensures same_writes { result ≢ status.WriteFault
        → (D.view desk.new).write_faults ≡ (D.view desk.old).write_faults }
    ensures same_shorts { result ≢ status.NoMemory → (D.view desk.new).shorts ≡ (D.view desk.old).shorts }
    ensures only { OnlyTells (D.view desk.old) (D.view desk.new) }
{
    let End {
        status,
        files,
        report,
    } = end;
    match make_files(desk, files) {
        Ok(()) => (),
        Err(WriteFault::Failed) => return Status::WriteFault,
        Err(WriteFault::NoMemory) => return Status::NoMemory,
    }
    match report.give(desk, Target::Report) {
        Ok(()) => status,
        Err(WriteFault::Failed) => Status::WriteFault,
        Err(WriteFault::NoMemory) => Status::NoMemory,
    }
}
