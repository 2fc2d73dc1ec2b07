ghost use Rattle.std.specs.Prelude.{◌≡◌, ◌≤◌, ◌++◌, ℕ, List as Sequence, OnOk, Option};

use cell_num::{Bytes, MOST_NETS, NoMemory};

/// What the list of a lemma holds.
pub(crate) trait Item: Drop + Sized {
    /// How it is written.
    ghost spelling: { Self → Sequence ℕ };

    /// What the word says, with nets numbered below the number.
    ghost said: { ℕ → Sequence ℕ → Option Self };

    /// Its place among others.
    ghost place: { Self → ℕ };

    fn read(nets: u32, word: &[u8]) -> Option<Self>
        requires { nets ≤ MOST_NETS }
        ensures { result ≡ said nets word.now };

    fn put(&self, out: &mut Bytes) -> Result<(), NoMemory>
        ensures { OnOk result (out.new ≡ out.old ++ spelling self.now) };

    fn rank(&self) -> u64
        ensures { result ≡ place self.now };
}
