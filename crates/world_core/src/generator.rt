//! The numbers of a run: a linear congruential generator of 64 bits (Knuth, The Art of Computer
//! Programming, volume 2, section 3.2.1).
ghost use Rattle.std.specs.Prelude.{◌≡◌, ◌<◌};
ghost use Rattle.world_core.specs.Draws.{next_number, drawn};

/// The factor of the generator.
const FACTOR: u64 = 6_364_136_223_846_793_005;

/// What the generator adds.
const ADDEND: u64 = 1_442_695_040_888_963_407;

/// The generator of a run.
#[derive(Clone, Copy, Debug)]
pub struct Generator {
    pub number: u64,
}

impl Generator {
    /// Steps the generator once, and gives a number below a bound.
    pub fn draw(&mut self, bound: u32) -> u32
        requires { 0 < bound }
        ensures number { self.new.number ≡ next_number self.old.number }
        ensures drawn { result ≡ drawn bound self.new.number }
        ensures below { result < bound }
    {
        self.number = self.number.wrapping_mul(FACTOR).wrapping_add(ADDEND);
        ((self.number >> 33) % bound as u64) as u32
    }
}
