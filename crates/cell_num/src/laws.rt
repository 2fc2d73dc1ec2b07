ghost use Rattle.std.specs.Prelude.{◌≡◌};

use crate::{MOST_BYTES, MOST_COLUMNS, MOST_FINGERS, MOST_NETS};

/// What the limits of this crate are, as numbers: definitions and contracts cite them by their names.
/// It does nothing: its contract is the law.
pub fn limit_numbers()
    ensures nets { MOST_NETS ≡ 256 }
    ensures columns { MOST_COLUMNS ≡ 32 }
    ensures fingers { MOST_FINGERS ≡ 64 }
    ensures bytes { MOST_BYTES ≡ 1_073_741_824 }
{}
