ghost use Rattle.std.specs.Prelude.{◌≡◌, ◌≤◌, ◌-◌, ◌^◌, min};

use std::marker::Model;

/// How many bytes a call moves at most: one at least.
#[derive(Drop)]
pub struct ChunkSize {
    bytes: usize,
}

impl Model for ChunkSize {
    ghost use Rattle.std.specs.Prelude.{ℕ, ◌≤◌};

    ghost Value = { ℕ };

    ghost view = { λ m. m.bytes };

    ghost invariant = { λ m. 1 ≤ m.bytes };
}

impl ChunkSize {
    /// As many as there are.
    pub fn all() -> ChunkSize
        ensures { result ≡ 2 ^ 64 - 1 }
    {
        ChunkSize { bytes: usize::MAX }
    }

    /// Chunks of at most that many bytes: 1 or more.
    pub fn new(bytes: u32) -> ChunkSize
        requires { 1 ≤ bytes }
        ensures { result ≡ bytes }
    {
        ChunkSize {
            bytes: bytes as usize,
        }
    }

    /// The most bytes of one chunk.
    pub fn bytes(&self) -> usize
        ensures is { result ≡ self.now }
        ensures some { 1 ≤ result }
    {
        self.bytes
    }

    /// How many of that many bytes are moved.
    pub fn of(&self, count: usize) -> usize
        ensures is { result ≡ min count self.now }
        ensures some { 1 ≤ self.now }
    {
        count.min(self.bytes)
    }
}
