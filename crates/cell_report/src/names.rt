ghost use Rattle.std.specs.Prelude.{◌≡◌, ◌++◌, OnOk};
ghost use Rattle.cell_report.specs.Names.{name_of};

use cell_num::{Bytes, Names, NoMemory};

// Adds the name of a net.
pub(crate) fn put_net(out: &mut Bytes, nets: &Names, net: u32) -> Result<(), NoMemory>
    ensures { OnOk result (out.new ≡ out.old ++ name_of nets.now net) }
{
    match nets.get(net as usize) {
        Some(name) => out.extend(name.as_slice()),
        None => Ok(()),
    }
}
