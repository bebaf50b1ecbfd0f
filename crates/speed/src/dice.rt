//! Numbers that look random, the same in every run.

/// The state of a generator: each draw multiplies it and adds to it, and gives its upper bits.
#[derive(Clone, Copy)]
pub(crate) struct Dice(u64);

impl Dice {
    pub(crate) fn new() -> Dice {
        Dice(1)
    }

    /// A number below `n`, or 0 where there is none. (`swaps` has dice of its own, and says why.)
    pub(crate) fn below(&mut self, n: usize) -> usize {
        self.0 = self
            .0
            .wrapping_mul(6364136223846793005)
            .wrapping_add(1442695040888963407);
        if n == 0 {
            return 0;
        }
        (self.0 >> 33) as usize % n
    }
}
