//! Numbers drawn one after another, the same ones for the same first state.

ghost use Rattle.std.specs.Prelude.{◌≡◌, ◌<◌, ◌/◌, ◌%◌, ◌^◌};
ghost use Rattle.pgplan.specs.Script.{state_behind};

/// A linear congruential generator (D. E. Knuth, The Art of Computer Programming, volume 2, section 3.3.4, MMIX).
#[derive(Drop)]
pub(crate) struct Draws {
    /// 64 bits, of which a draw takes the upper 31.
    pub(crate) state: u64,
}

impl Draws {
    /// Draws a number below another one.
    pub(crate) fn below(&mut self, end: u64) -> u64
        requires some { 0 < end }
        ensures state { self.new.state ≡ state_behind self.old.state }
        ensures draw { result ≡ (self.new.state / 2 ^ 33) % end }
    {
        self.state = self
            .state
            .wrapping_mul(6_364_136_223_846_793_005)
            .wrapping_add(1_442_695_040_888_963_407);
        (self.state >> 33) % end
    }
}
