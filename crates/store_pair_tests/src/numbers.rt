//! Numbers that follow from a seed.
ghost use Rattle.std.specs.Prelude.{◌≤◌, ◌<◌};

/// Numbers, each made of the one before it.
#[derive(Drop)]
pub struct Numbers {
    state: u64,
}

impl Numbers {
    pub fn new(seed: u64) -> Numbers {
        Numbers {
            state: seed % 0x8000_0000 * 7_919 % 0x8000_0000 + 17,
        }
    }

    /// The next number, of 19 bits.
    fn next(&mut self) -> u64
        ensures { result < 524288 }
    {
        self.state = (self.state % 0x8000_0000 * 1_103_515_245 + 12_345) % 0x8000_0000;
        self.state / 4_096
    }

    /// A number below `n`.
    pub fn below(&mut self, n: usize) -> usize
        requires { 1 ≤ n }
        ensures { result < n }
    {
        let high = self.next();
        let low = self.next();
        (high * 524_288 + low) as usize % n
    }
}
