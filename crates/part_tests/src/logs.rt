ghost use Rattle.std.specs.Prelude.{◌≤◌, length};

use crate::rows::{INVERTERS, fingers};
use bound_log::read_log;
use cell_num::copy;
use log_check::{Refused, check_log};
use row_state::{Parity, kinds};
use std::alloc::Global;
use std::test::Fail;

// The answer to the text of a log of the three inverters.
fn verdict(alloc: Global, text: &[u8]) -> Result<Result<u32, Refused>, Fail>
    requires { length text.now ≤ 1000 }
{
    let rows = fingers(alloc, 8, &INVERTERS)?;
    let kinds = kinds(alloc, &rows)?;
    let Ok(log) = read_log(alloc, text, &copy(alloc, b"x3")?, &kinds) else {
        return Err(Fail::from("no log"));
    };
    if log.lemmas.len() > 1000 {
        return Err(Fail::from("a long log"));
    }
    Ok(check_log(alloc, &rows, &log, &Parity))
}

#[test]
fn checks_whole_logs(rt: HostRuntime) -> Result<(), Fail> {
    let alloc = rt.alloc();
    let accepted = b"cellgen-log 1
cell x3
lemma 1 P 1,1,1 1,1,1 - -
gaps 1
column 0 0 0 0 0
column 1 1 0 1 0
column 2 2 1 2 1
end
";
    assert!(rt; verdict(alloc, accepted)? == Ok(1));
    let unproved = b"cellgen-log 1
cell x3
lemma 2 P 1,1,1 1,1,1 - -
open
end
";
    assert!(rt; verdict(alloc, unproved)? == Err(Refused::Unproved { line: 3 }));
    Ok(())
}
