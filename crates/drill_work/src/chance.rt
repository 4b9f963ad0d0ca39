//! Numbers that are drawn.
ghost use Rattle.std.specs.Prelude.{◌≡◌, ◌<◌};
ghost use Rattle.drill_work.specs.Chance.{after, drawn};

/// A generator of numbers: linear congruential, with a state of 64 bits.
#[derive(Drop)]
pub struct Chance {
    pub state: u64,
}

impl Chance {
    /// Draws a number below a bound.
    pub fn next(&mut self, bound: u64) -> u64
        requires { 0 < bound }
        ensures drawn { result ≡ drawn bound self.old.state }
        ensures state { self.new.state ≡ after self.old.state }
        ensures below { result < bound }
    {
        self.state = self
            .state
            .wrapping_mul(6_364_136_223_846_793_005)
            .wrapping_add(1_442_695_040_888_963_407);
        (self.state >> 33) % bound
    }
}
