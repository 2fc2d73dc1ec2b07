ghost use Rattle.std.specs.Prelude.{◌≡◌, ◌≢◌, ◌++◌, ℕ, IfSome, IfNone, List as Sequence, codes};
ghost use Rattle.log_lines.specs.Words.{is_word};

use crate::word::is_word;
use cell_num::Name;

fn behind_cell(line: &[u8]) -> Option<&[u8]>
    ensures some { IfSome result (λ rest. line.now ≡ codes "cell " ++ rest.now) }
    ensures none { IfNone result ((rest : Sequence ℕ) → line.now ≢ codes "cell " ++ rest) }
{
    line.strip_prefix(b"cell ")
}

/// Whether the line is `cell` and the name.
#[tactic(auto, using(crate::proofs::Names::behind_front, crate::proofs::Names::no_front))]
pub fn is_named(line: &[u8], name: &Name) -> bool
    ensures { result ≡ is_word line.now (codes "cell " ++ name.now) }
{
    match behind_cell(line) {
        Some(rest) => is_word(rest, name.as_slice()),
        None => false,
    }
}
