// A linear congruential generator.
ghost use Rattle.std.specs.Prelude.{◌≡◌, ◌<◌, ◌^◌};
ghost use Rattle.bench_command.specs.Draws.{next, draw_of};

const FACTOR: u64 = 1_103_515_245;

const INCREMENT: u64 = 12_345;

const MODULUS: u64 = 1 << 31;

/// The draws that follow; the state determines them.
#[derive(Drop)]
pub struct Draws {
    pub state: u32,
}

fn next(state: u32) -> u32
    ensures { result ≡ next state }
{
    ((u64::from(state) * FACTOR + INCREMENT) % MODULUS) as u32
}

impl Draws {
    /// Takes the next draw, which is below 32,768.
    pub fn draw(&mut self) -> u32
        ensures drawn { result ≡ draw_of self.old.state }
        ensures state { self.new.state ≡ next self.old.state }
        ensures small { result < 2 ^ 15 }
    {
        self.state = next(self.state);
        self.state >> 16
    }
}
