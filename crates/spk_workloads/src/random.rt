//! Numbers that look random, the same at each run.

/// Steele, Lea and Flood's SplitMix64 (2014).
#[derive(Drop)]
pub(crate) struct Random {
    state: u64,
}

impl Random {
    pub(crate) fn new(seed: u64) -> Random {
        Random { state: seed }
    }

    /// The next number.
    pub(crate) fn draw(&mut self) -> u64 {
        self.state = self.state.wrapping_add(0x9e37_79b9_7f4a_7c15);
        let first = self.state;
        let second = (first ^ (first >> 30)).wrapping_mul(0xbf58_476d_1ce4_e5b9);
        let third = (second ^ (second >> 27)).wrapping_mul(0x94d0_49bb_1331_11eb);
        third ^ (third >> 31)
    }

    /// A number below this one; 0 below 0.
    pub(crate) fn below(&mut self, bound: u64) -> u64 {
        let number = self.draw();
        if bound == 0 { 0 } else { number % bound }
    }

    /// A place below this count; 0 below 0.
    pub(crate) fn place(&mut self, count: usize) -> usize {
        self.below(count as u64) as usize
    }

    /// Whether one of so many draws came.
    pub(crate) fn is_one_of(&mut self, draws: u64) -> bool {
        self.below(draws) == 0
    }
}
