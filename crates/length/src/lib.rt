// Kinds of length: what a length is, whatever numbers it is made of, and what follows for each kind from the laws alone.
#![tactic(auto)]

ghost use Rattle.std.specs.Prelude.{◌≡◌, ℕ, ◌+◌, ◌<◌, ◌≤◌, ◌⊎◌, List, [], ◌∷◌, length, take, true, false, Some, Decides, MatchOption};
ghost use Rattle.length.specs.Kind.{Kind, Laws, Even, sum_limit};
ghost use Rattle.length.specs.Kinds.{plain_kind, process_kind, plain_numbers, process_numbers, plain_text, process_text, Lawful, EachLawful};
ghost use Rattle.std.proofs.Common.{rules};

use std::fmt;

pub mod theorems;

/// The greatest number that a size may have.
pub const LARGEST_SIZE: u32 = 1 << 20;

/// The greatest sum of two measures for which `plus` answers.
pub const SUM_LIMIT: u32 = 1 << 30;

/// The most numbers that a length can take.
pub const MOST_NUMBERS: usize = 3;

/// A length: a plain value that can be compared, added, joined and halved.
///
/// Of a kind of length, other code knows the laws alone. Two lengths need not be comparable: one may be the greater in one
/// process and the smaller in another.
pub trait Length: Copy {
    // what the calls answer, sums of any size included
    ghost kind: { Kind Self };

    // the constant, for clauses
    ghost NUMBERS: { ℕ };

    /// How many numbers one length takes: 1 or 3.
    const NUMBERS: usize;

    /// Whether this length is at most `other`, in every process.
    fn at_most(self, other: Self) -> bool
        ensures { Decides result (kind.at_most self other) };

    /// The least length.
    fn zero() -> Self
        ensures { result ≡ kind.zero };

    /// The sum; `None` exactly where the two measures together exceed `SUM_LIMIT`.
    fn plus(self, other: Self) -> Option<Self>
        ensures { MatchOption result (sum_limit < kind.measure self + kind.measure other) (λ s. (kind.measure self + kind.measure other ≤ sum_limit) × (s ≡ kind.plus self other)) };

    /// The least length that both are at most.
    fn join(self, other: Self) -> Self
        ensures { result ≡ kind.join self other };

    /// What makes `other` up to this length; `None` exactly where `other` is not at most it.
    fn minus(self, other: Self) -> Option<Self>
        ensures { MatchOption result (kind.at_most other self → ⊥) (λ d. kind.at_most other self × (d ≡ kind.minus self other)) };

    /// The greatest length whose double is at most this one.
    fn lower_half(self) -> Self
        ensures { result ≡ kind.lower self };

    /// The least length whose double this one is at most.
    fn upper_half(self) -> Self
        ensures { result ≡ kind.upper self };

    /// Whether both halves are alike, so that this length is twice another.
    fn is_even(self) -> bool
        ensures { Decides result (Even kind self) };

    /// One whole number for the whole length: the largest that it is made of.
    fn measure(self) -> u32
        ensures { result ≡ kind.measure self };

    /// Whether a cell may be as wide or as high as this.
    fn is_size(self) -> bool
        ensures { Decides result (kind.size self) };

    ghost laws: { Laws kind };

    ghost counted: { (NUMBERS ≡ 1) ⊎ (NUMBERS ≡ 3) };
}

/// A length that can be taken apart into its numbers and made of them, as files do: one text then reads and writes every kind.
// (arrays of the most numbers, of which the first count: an array's length can be no constant of the trait, and a `Vec` takes a heap)
pub trait Numbered: Length {
    // the numbers that a length is made of, process by process
    ghost numbers: { Self → List ℕ };

    /// The length that the first `NUMBERS` of these make.
    fn from_numbers(list: [u32; MOST_NUMBERS]) -> Self
        ensures { numbers result ≡ take Self.NUMBERS list };

    /// The numbers of this length; what stands behind the first `NUMBERS` means nothing.
    fn to_numbers(self) -> [u32; MOST_NUMBERS]
        ensures { take Self.NUMBERS result ≡ numbers self };

    ghost listed: { (a : Self) → length (numbers a) ≡ Self.NUMBERS };

    // equal numbers make equal lengths
    ghost pinned: { (a b : Self) → numbers a ≡ numbers b → a ≡ b };

    // a size is a length each of whose numbers a size may have
    ghost sized: { (a : Self) → (Self.kind.size a → EachLawful (numbers a)) × (EachLawful (numbers a) → Self.kind.size a) };
}

/// The sum of two measures, if it is at most `SUM_LIMIT`.
fn within_limit(a: u32, b: u32) -> Option<u32>
    ensures { MatchOption result (sum_limit < a + b) (λ s. (a + b ≤ sum_limit) × (s ≡ a + b)) }
{
    a.checked_add(b).filter(|sum| *sum <= SUM_LIMIT)
}

/// Whether a size may have this number.
fn is_lawful(n: u32) -> bool
    ensures { Decides result (Lawful n) }
{
    n > 0 && n <= LARGEST_SIZE
}

/// One whole number, the same in every process.
#[derive(Clone, Copy, PartialEq, Eq, Debug)]
pub struct Plain(pub u32);

impl Length for Plain {
    ghost kind = { plain_kind };

    ghost NUMBERS = { 1 };

    const NUMBERS: usize = 1;

    ghost laws = { Prim.search rules };

    ghost counted = { Prim.search rules };

    fn at_most(self, other: Plain) -> bool {
        self.0 <= other.0
    }

    fn zero() -> Plain {
        Plain(0)
    }

    fn plus(self, other: Plain) -> Option<Plain> {
        Some(Plain(within_limit(self.0, other.0)?))
    }

    fn join(self, other: Plain) -> Plain {
        Plain(self.0.max(other.0))
    }

    fn minus(self, other: Plain) -> Option<Plain> {
        Some(Plain(self.0.checked_sub(other.0)?))
    }

    fn lower_half(self) -> Plain {
        Plain(self.0 / 2)
    }

    fn upper_half(self) -> Plain {
        Plain(self.0.div_ceil(2))
    }

    fn is_even(self) -> bool {
        self.0 % 2 == 0
    }

    fn measure(self) -> u32 {
        self.0
    }

    fn is_size(self) -> bool {
        is_lawful(self.0)
    }
}

impl Numbered for Plain {
    ghost numbers = { plain_numbers };

    ghost listed = { Prim.search rules };

    ghost pinned = { Prim.search rules };

    ghost sized = { Prim.search rules };

    fn from_numbers(list: [u32; MOST_NUMBERS]) -> Plain {
        Plain(list[0])
    }

    fn to_numbers(self) -> [u32; MOST_NUMBERS] {
        [self.0, 0, 0]
    }
}

impl fmt::Display for Plain {
    ghost output = { λ x. Some (plain_text x) };

    fn fmt<W: fmt::Write>(&self, f: &mut fmt::Formatter<W>) -> fmt::Result {
        let n = self.0;
        write!(f, "{n}")
    }
}

/// Three numbers, one a process.
#[derive(Clone, Copy, PartialEq, Eq, Debug)]
pub struct PerProcess {
    pub first: u32,
    pub second: u32,
    pub third: u32,
}

impl PerProcess {
    /// What `of` makes of the number of each process.
    fn each<F: Fn(u32) -> u32>(self, of: F) -> PerProcess
        requires { F.IsAlwaysCallable of }
        ensures { F.post of self.first result.first × F.post of self.second result.second × F.post of self.third result.third }
    {
        PerProcess {
            first: of(self.first),
            second: of(self.second),
            third: of(self.third),
        }
    }

    /// What `of` makes of the numbers that both have for each process.
    fn both<F: Fn(u32, u32) -> u32>(self, other: PerProcess, of: F) -> PerProcess
        requires first { F.pre of self.first other.first }
        requires second { F.pre of self.second other.second }
        requires third { F.pre of self.third other.third }
        ensures { F.post of self.first other.first result.first × F.post of self.second other.second result.second × F.post of self.third other.third result.third }
    {
        PerProcess {
            first: of(self.first, other.first),
            second: of(self.second, other.second),
            third: of(self.third, other.third),
        }
    }

    /// Whether `rule` holds of the number of every process.
    fn every<F: Fn(u32) -> bool>(self, rule: F) -> bool
        requires { F.IsAlwaysCallable rule }
        ensures yes { result ≡ true → F.post rule self.first true × F.post rule self.second true × F.post rule self.third true }
        ensures no { result ≡ false → F.post rule self.first false ⊎ F.post rule self.second false ⊎ F.post rule self.third false }
    {
        rule(self.first) && rule(self.second) && rule(self.third)
    }
}

impl Length for PerProcess {
    ghost kind = { process_kind };

    ghost NUMBERS = { 3 };

    const NUMBERS: usize = 3;

    ghost laws = { Prim.search rules };

    ghost counted = { Prim.search rules };

    // (not by `every`, which takes one length)
    fn at_most(self, other: PerProcess) -> bool {
        self.first <= other.first && self.second <= other.second && self.third <= other.third
    }

    fn zero() -> PerProcess {
        PerProcess {
            first: 0,
            second: 0,
            third: 0,
        }
    }

    fn plus(self, other: PerProcess) -> Option<PerProcess> {
        // the two measures count, and not the three sums
        within_limit(self.measure(), other.measure())?;
        Some(self.both(other, |a, b| a + b))
    }

    fn join(self, other: PerProcess) -> PerProcess {
        self.both(other, |a, b| a.max(b))
    }

    fn minus(self, other: PerProcess) -> Option<PerProcess> {
        Some(PerProcess {
            first: self.first.checked_sub(other.first)?,
            second: self.second.checked_sub(other.second)?,
            third: self.third.checked_sub(other.third)?,
        })
    }

    fn lower_half(self) -> PerProcess {
        self.each(|n| n / 2)
    }

    fn upper_half(self) -> PerProcess {
        self.each(|n| n.div_ceil(2))
    }

    fn is_even(self) -> bool {
        self.every(|n| n % 2 == 0)
    }

    fn measure(self) -> u32 {
        self.first.max(self.second.max(self.third))
    }

    fn is_size(self) -> bool {
        self.every(is_lawful)
    }
}

impl Numbered for PerProcess {
    ghost numbers = { process_numbers };

    ghost listed = { Prim.search rules };

    ghost pinned = { Prim.search rules };

    ghost sized = { Prim.search rules };

    fn from_numbers(list: [u32; MOST_NUMBERS]) -> PerProcess {
        PerProcess {
            first: list[0],
            second: list[1],
            third: list[2],
        }
    }

    fn to_numbers(self) -> [u32; MOST_NUMBERS] {
        [self.first, self.second, self.third]
    }
}

impl fmt::Display for PerProcess {
    ghost output = { λ x. Some (process_text x) };

    fn fmt<W: fmt::Write>(&self, f: &mut fmt::Formatter<W>) -> fmt::Result {
        let PerProcess {
            first,
            second,
            third,
        } = *self;
        write!(f, "{first}/{second}/{third}")
    }
}
