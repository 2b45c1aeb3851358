//! Fixed pseudo-random numbers: the same ones in every run of the program. They are made here, since the printed counts go by them.

/// A linear congruential generator of 64 bits, of which the upper ones are given out.
#[derive(Drop)]
pub struct Random {
    state: u64,
}

impl Random {
    /// The numbers that follow from a seed.
    pub fn new(seed: u64) -> Random {
        Random { state: seed }
    }

    /// A number below n; 0 where n is 0.
    pub fn below(&mut self, n: u32) -> u32 {
        self.state = self
            .state
            .wrapping_mul(6_364_136_223_846_793_005)
            .wrapping_add(1_442_695_040_888_963_407);
        let upper = ((self.state >> 33) & 0x7fff_ffff) as u32;
        if n == 0 { 0 } else { upper % n }
    }

    /// A number from `low` to `high`.
    pub fn between(&mut self, low: u32, high: u32) -> u32 {
        let span = high.saturating_sub(low).saturating_add(1);
        low.saturating_add(self.below(span))
    }

    /// Yes in so many cases of a hundred.
    pub fn chance(&mut self, percent: u32) -> bool {
        self.below(100) < percent
    }

    /// A label below the count.
    pub fn label(&mut self, labels: u8) -> u8 {
        (self.below(u32::from(labels)) & 0xff) as u8
    }
}
