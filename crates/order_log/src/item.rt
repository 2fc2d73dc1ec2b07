ghost use Rattle.std.specs.Prelude.{◌≡◌, ◌≤◌, ◌++◌, ℕ, IfOk, List as Sequence, OnOk, Option};

use cell_num::{Bytes, MOST_NETS, NoMemory};
use std::alloc::Global;

/// What a list in the text of a certificate holds.
pub trait Item: Drop + Sized {
    /// How it is written.
    ghost spelling: { Self → Sequence ℕ };

    /// What the word says, over this number of nets.
    ghost said: { ℕ → Sequence ℕ → Option Self };

    /// Its place among others.
    ghost place: { Self → ℕ };

    fn read(alloc: Global, nets: u32, word: &[u8]) -> Result<Option<Self>, NoMemory>
        requires { nets ≤ MOST_NETS }
        ensures { IfOk result (λ item. item ≡ said nets word.now) };

    fn put(&self, out: &mut Bytes) -> Result<(), NoMemory>
        ensures { OnOk result (out.new ≡ out.old ++ spelling self.now) };

    fn rank(&self) -> u128
        ensures { result ≡ place self.now };
}
