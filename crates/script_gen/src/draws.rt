ghost use Rattle.std.specs.Prelude.{◌≡◌, ℕ, ◌<◌};
ghost use Rattle.script_gen.specs.Draws.{after_draw, drawn};

/// Knuth's multiplier and increment of a linear congruential generator modulo 2^64, as in his MMIX.
pub const MULTIPLIER: u64 = 6364136223846793005;

pub const INCREMENT: u64 = 1442695040888963407;

/// A generator of numbers. What it gives are the upper 31 bits of its own number, as the lower ones repeat soon.
#[derive(Clone, Copy)]
pub struct Draws {
    pub number: u64,
}

impl Draws {
    /// One of so many choices, numbered from 0.
    pub fn draw(&mut self, choices: u32) -> u32
        requires { 0 < choices }
        ensures below { result < choices }
        ensures drawn { result ≡ drawn self.old.number choices }
        ensures after { self.new.number ≡ after_draw self.old.number }
    {
        self.number = self.number.wrapping_mul(MULTIPLIER).wrapping_add(INCREMENT);
        (self.number >> 33) as u32 % choices
    }
}
