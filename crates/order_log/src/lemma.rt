ghost use Rattle.std.specs.Prelude.{◌≡◌, ◌≤◌, ◌++◌, ℕ, IfOk, List as Sequence, OnOk, Option, map};
ghost use Rattle.order_log.specs.Text.{lemma_line};

use cell_num::{Bytes, MOST_NETS, NoMemory};
use std::alloc::Global;

/// A lemma of a certificate by an order of gates, as its line has it.
pub trait LemmaText: Drop + Sized {
    /// The words of its line after the word `lemma`.
    ghost fields: { Self → Sequence (Sequence ℕ) };

    /// What these words say, over this number of nets.
    ghost said: { ℕ → Sequence (Sequence ℕ) → Option Self };

    fn read(alloc: Global, nets: u32, words: &[&[u8]]) -> Result<Option<Self>, NoMemory>
        requires { nets ≤ MOST_NETS }
        ensures { IfOk result (λ lemma. lemma ≡ said nets (map (λ word. word.now) words.now)) };

    /// Writes its line.
    fn put(&self, out: &mut Bytes) -> Result<(), NoMemory>
        ensures { OnOk result (out.new ≡ out.old ++ lemma_line fields self.now) };
}
