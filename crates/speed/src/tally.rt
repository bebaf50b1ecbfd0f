//! What the swaps came to.
use length::Numbered;
use placing::Extent;
use refusal::{Refusal, SheetFault};

/// How many swaps were done and how many refused, and a checksum over every placement and every refusal.
#[derive(Clone, Copy, Default)]
pub(crate) struct Tally {
    pub(crate) done: u32,
    pub(crate) refused: u32,
    pub(crate) sum: u64,
}

impl Tally {
    /// Takes one number into the checksum.
    fn add(&mut self, number: u64) {
        self.sum = self.sum.wrapping_mul(31).wrapping_add(number);
    }

    /// Takes the numbers of a length into the checksum, process by process.
    fn add_length<T: Numbered>(&mut self, length: T) {
        for number in length.to_numbers().iter().take(T::NUMBERS) {
            self.add(u64::from(*number));
        }
    }

    /// Counts a swap that is done, with the placement that it leads to.
    pub(crate) fn place<T: Numbered>(&mut self, extent: Extent<T>, x: &[T], y: &[T]) {
        self.done = self.done.wrapping_add(1);
        self.add_length(extent.half_span);
        self.add_length(extent.depth);
        for edge in x.iter().chain(y) {
            self.add_length(*edge);
        }
    }

    /// Counts a refusal: with its couple where no placement exists, else with its number.
    pub(crate) fn refuse(&mut self, fault: SheetFault) {
        self.refused = self.refused.wrapping_add(1);
        match fault {
            SheetFault::Unplaceable { first, second } => {
                self.add(first as u64);
                self.add(second as u64);
            }
            _ => self.add(u64::from(Refusal::from(fault).number)),
        }
    }
}
