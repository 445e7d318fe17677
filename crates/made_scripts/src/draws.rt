//! Numbers as if by chance, each made of the one before.
ghost use Rattle.std.specs.Prelude.{◌<◌};

/// How many numbers are gone by at first, so that starts that are near each other lead away from each other.
const PASSED: u32 = 8;

/// A xorshift of 64 bits: a draw shifts its number by 13 to the left, by 7 to the right and by 17 to the left, each
/// time into itself by exclusive or. It stays above 0, and goes through all other numbers of 64 bits.
#[derive(Clone, Copy, Debug)]
pub(crate) struct Draws {
    state: u64,
}

impl Draws {
    /// The draws that begin with this number.
    pub(crate) fn new(number: u64) -> Draws {
        let mixed = number.wrapping_mul(6_364_136_223_846_793_005);
        let state = mixed.wrapping_add(1_442_695_040_888_963_407).max(1);
        let mut draws = Draws { state };
        for _ in 0..PASSED {
            draws.step();
        }
        draws
    }

    /// Goes on by one number.
    fn step(&mut self) {
        let once = self.state ^ (self.state << 13);
        let twice = once ^ (once >> 7);
        self.state = twice ^ (twice << 17);
    }

    /// A number below this one.
    pub(crate) fn below(&mut self, end: u32) -> u32
        requires { 0 < end }
        ensures { result < end }
    {
        self.step();
        (self.state >> 32) as u32 % end
    }

    /// One of these, or an empty one where there is none.
    pub(crate) fn one_of<'a>(&mut self, forms: &[&'a str]) -> &'a str {
        let count = u32::try_from(forms.len()).unwrap_or(u32::MAX).max(1);
        match forms.get(self.below(count) as usize) {
            Some(form) => *form,
            None => "",
        }
    }
}
