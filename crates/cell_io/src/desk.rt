ghost use Rattle.std.specs.Prelude.{◌≡◌, ◌≤◌, ◌<◌, OnOk, length, OnErr, IfOk, IfSome, IsErrOf};
ghost use Rattle.cell_io.specs.Desk.{View, told, IsMissing, ReadsPart, AddsPart, CreatedIn, AppendedIn, CreatesOne};
ghost use Rattle.cell_io.specs.Desk.{Both, IsHeld, OnlyReads, OnlyMakes, OnlyAppends, OnlySays, IsQuiet};
ghost use Rattle.cell_io.specs.Desk.{ReadingFailed, WritingFailed, MemoryFailed};
ghost use Rattle.cell_io.specs.declared.desk.DeskAnswer.TheVariants.{Missing, Failed, NoMemory};

/// Why a call of a desk gave up.
#[derive(Clone, Copy, Debug, PartialEq, Eq)]
pub enum DeskAnswer {
    /// There is no such file to read.
    Missing,
    Failed,
    NoMemory,
}

/// Files to read, files that are made, and text that is said. A desk shows its contracts the files, the
/// names of those created and the text, or leaves them open; it always shows its three counts. A count
/// never falls, and one that is the greatest u64 is read as risen. A call that succeeds raises no
/// count, and a call that fails raises that of its answer alone.
pub trait Desk {
    ghost view: { Self → View };

    /// Copies bytes of the file, from the place `from` on, to the front of `into`, and answers how
    /// many. 0 into a buffer that is not empty is the end of the file.
    fn read_part(&mut self, name: &str, from: u64, into: &mut [u8]) -> Result<usize, DeskAnswer>
        ensures within { IfOk result (λ count. count ≤ length into.new) }
        ensures bytes { IfOk result (λ count.
            IfSome (told (view self.old).given name.now) (λ file. ReadsPart file from into.new count)) }
        ensures missing { IsMissing (IsErrOf result Missing) name.now (view self.old) (view self.new) }
        ensures failed { IsErrOf result Failed → ReadingFailed (view self.old) (view self.new) }
        ensures memory { result ≡ Err NoMemory → ⊥ }
        ensures only { OnlyReads (view self.old) (view self.new) }
        ensures quiet { OnOk result (view self.new ≡ view self.old) };

    /// Makes the file, empty; one that was made before loses its bytes.
    fn create(&mut self, name: &str) -> Result<(), DeskAnswer>
        ensures made { OnOk result (Both (CreatedIn name.now) (view self.old).made (view self.new).made) }
        ensures refused { OnErr result ((view self.new).made ≡ (view self.old).made) }
        ensures created { OnOk result
            (Both (CreatesOne name.now) (view self.old).created (view self.new).created) }
        ensures uncreated { OnErr result ((view self.new).created ≡ (view self.old).created) }
        ensures failed { IsErrOf result Failed → WritingFailed (view self.old) (view self.new) }
        ensures memory { IsErrOf result NoMemory → MemoryFailed (view self.old) (view self.new) }
        ensures missing { result ≡ Err Missing → ⊥ }
        ensures only { OnlyMakes (view self.old) (view self.new) }
        ensures quiet { OnOk result (IsQuiet (view self.old) (view self.new)) };

    /// Adds the first bytes of `part` at the end of a file that was made, and answers how many. 0 for
    /// a part that is not empty counts as a fault.
    fn append(&mut self, name: &str, part: &[u8]) -> Result<usize, DeskAnswer>
        requires { IfSome (view self.old).made (λ files. IsHeld files name.now) }
        ensures within { IfOk result (λ count. count ≤ length part.now) }
        ensures made { IfOk result (λ count.
            Both (AppendedIn name.now part.now count) (view self.old).made (view self.new).made) }
        ensures none { result ≡ Ok 0 → 0 < length part.now → WritingFailed (view self.old) (view self.new) }
        ensures refused { OnErr result ((view self.new).made ≡ (view self.old).made) }
        ensures failed { IsErrOf result Failed → WritingFailed (view self.old) (view self.new) }
        ensures memory { IsErrOf result NoMemory → MemoryFailed (view self.old) (view self.new) }
        ensures missing { result ≡ Err Missing → ⊥ }
        ensures only { OnlyAppends (view self.old) (view self.new) }
        ensures quiet { IfOk result (λ count. 0 < count → IsQuiet (view self.old) (view self.new)) };

    /// Says the first bytes of `part`, and answers how many. 0 for a part that is not empty counts as
    /// a fault.
    fn say(&mut self, part: &[u8]) -> Result<usize, DeskAnswer>
        ensures within { IfOk result (λ count. count ≤ length part.now) }
        ensures said { IfOk result (λ count.
            Both (AddsPart part.now count) (view self.old).said (view self.new).said) }
        ensures none { result ≡ Ok 0 → 0 < length part.now → WritingFailed (view self.old) (view self.new) }
        ensures refused { OnErr result ((view self.new).said ≡ (view self.old).said) }
        ensures failed { IsErrOf result Failed → WritingFailed (view self.old) (view self.new) }
        ensures memory { IsErrOf result NoMemory → MemoryFailed (view self.old) (view self.new) }
        ensures missing { result ≡ Err Missing → ⊥ }
        ensures only { OnlySays (view self.old) (view self.new) }
        ensures quiet { IfOk result (λ count. 0 < count → IsQuiet (view self.old) (view self.new)) };
}
