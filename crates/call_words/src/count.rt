ghost use Rattle.std.specs.Prelude.{◌≡◌, ◌≤◌, bytes_eq, decimal};
ghost use Rattle.call_words.specs.Words.{bench_number};

use itoa::Buffer;
use std::marker::Model;

/// A number of generated cells: 1 to 200.
#[derive(Drop)]
pub struct CellCount {
    number: u32,
}

impl Model for CellCount {
    ghost use Rattle.std.specs.Prelude.{ℕ, ◌≤◌};

    ghost Value = { ℕ };

    ghost view = { λ c. c.number };

    ghost invariant = { λ c. (1 ≤ c.number) × (c.number ≤ 200) };
}

impl CellCount {
    /// The number that a word spells in decimal digits.
    #[tactic(auto, using(crate::proofs::Rules::spelled_rules))]
    pub fn spelled(word: &str) -> Option<CellCount>
        ensures { result ≡ bench_number word.now }
    {
        'numbers: for number in 1..201 {
            if is_spelled(number, word) {
                return Some(CellCount { number });
            }
        }
        None
    }

    /// The number itself.
    pub fn number(&self) -> u32
        ensures is { result ≡ self.now }
        ensures some { 1 ≤ result }
        ensures few { result ≤ 200 }
    {
        self.number
    }
}

fn is_spelled(number: u32, word: &str) -> bool
    ensures { result ≡ bytes_eq (decimal number) word.now }
{
    Buffer::new().format(number).as_bytes() == word.as_bytes()
}
