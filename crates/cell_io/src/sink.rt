ghost use Rattle.std.specs.Prelude.{◌≡◌, ◌+◌, ◌++◌, [], ℕ, List as Sequence, OnOk, length};

use cell_num::NoMemory;

/// Takes the bytes of a file part by part, in order. What it has made of them is a relation to what it was
/// before, so that it need not keep them.
pub trait Sink {
    /// The second one is the first, after these bytes.
    ghost took: { Self → Sequence ℕ → Self → Type 0 };

    /// It may be given that many bytes more.
    ghost may: { Self → ℕ → Type 0 };

    /// Takes some bytes more.
    fn take(&mut self, part: &[u8]) -> Result<(), NoMemory>
        requires { may self.old (length part.now) }
        ensures { OnOk result (took self.old part.now self.new) };

    /// After no bytes it is as before.
    ghost none: { (a : Self) → took a [] a };

    /// After two parts, one after the other, it is after both together.
    ghost more: { (a b c : Self) (x y : Sequence ℕ) → took a x b → took b y c → took a (x ++ y) c };

    /// What it may be given is what it might have been given, less what came.
    ghost left: { (a b : Self) (x : Sequence ℕ) (count : ℕ) → took a x b → may a (length x + count) → may b count };
}

/// Bytes in memory, to whose end the parts go.
impl Sink for Vec<u8> {
    ghost use Rattle.cell_io.specs.Sink.{adds_none, adds_more};

    ghost took = { λ a bytes b. b.items ≡ a.items ++ bytes };

    ghost may = { λ _ _. Unit {0} };

    ghost none = { λ a. adds_none a.items };

    ghost more = { λ a b c x y first second. adds_more a.items b.items c.items x y first second };

    ghost left = { λ a b x count first may. may };

    fn take(&mut self, part: &[u8]) -> Result<(), NoMemory> {
        match self.extend_from_slice(part) {
            Ok(()) => Ok(()),
            Err(_) => Err(NoMemory),
        }
    }
}
