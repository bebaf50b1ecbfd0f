// Theorems that hold of every kind of length, each on a call: its contract states the theorem for all lengths, and what it
// means for the call's own answer.
ghost use Rattle.std.specs.Prelude.{◌≡◌, ℕ, ◌+◌, ◌<◌, true, length, Decides, MatchOption, ◌≢◌, slice_index_or};
ghost use Rattle.length.specs.Kind.{Kind, Laws, Even, sum_limit};
ghost use Rattle.length.specs.Join.{IsJoin};
ghost use Rattle.length.specs.Theorems.{JoinDistributes, DoublingReflects, HalvesMeet, HalvesOrdered, HalvesShift, UpperHalf, UpperHalfLeast, EvenDoubles, JoinsStand};

use crate::Length;

/// Every kind of length obeys the laws. (Called at a kind that is known, it gives them to the caller.)
pub fn laws_hold<T: Length>()
    ensures { Laws T.Length.kind }
{}

/// The join of `a` and `b`, and `c` added: the join of the two sums with `c`.
pub fn join_distributes<T: Length>(a: T, b: T, c: T) -> Option<T>
    ensures theorem { JoinDistributes T.Length.kind }
    ensures value { MatchOption result (sum_limit < T.kind.measure (T.kind.join a b) + T.kind.measure c) (λ s. s ≡ T.kind.join (T.kind.plus a c) (T.kind.plus b c)) }
{
    a.join(b).plus(c)
}

/// Whether `a` doubled is at most `b` doubled, with no need of either sum.
pub fn doubling_reflects<T: Length>(a: T, b: T) -> bool
    ensures theorem { DoublingReflects T.Length.kind }
    ensures value { Decides result (T.kind.at_most (T.kind.plus a a) (T.kind.plus b b)) }
{
    a.at_most(b)
}

/// The lower half of `s` and the upper half of `t`: the length whose double `s` and `t` make, if there is one.
pub fn halves_meet<T: Length>(s: T, t: T) -> Option<T>
    ensures theorem { HalvesMeet T.Length.kind }
    ensures value { MatchOption result (sum_limit < T.kind.measure (T.kind.lower s) + T.kind.measure (T.kind.upper t)) (λ x. (m : T) → T.kind.plus s t ≡ T.kind.plus m m → x ≡ m) }
{
    s.lower_half().plus(t.upper_half())
}

/// Whether `a` is at most `b`, told from their halves.
pub fn halves_are_ordered<T: Length>(a: T, b: T) -> bool
    ensures theorem { HalvesOrdered T.Length.kind }
    ensures value { Decides result (T.kind.at_most a b) }
{
    a.lower_half().at_most(b.lower_half()) && a.upper_half().at_most(b.upper_half())
}

/// Both halves of `s` and twice `w`, with no need of that sum.
pub fn halves_shift<T: Length>(s: T, w: T) -> Option<(T, T)>
    ensures theorem { HalvesShift T.Length.kind }
    ensures value { MatchOption result (sum_limit < T.kind.measure (T.kind.upper s) + T.kind.measure w) (λ p. (p.0 ≡ T.kind.lower (T.kind.plus s (T.kind.plus w w))) × (p.1 ≡ T.kind.upper (T.kind.plus s (T.kind.plus w w)))) }
{
    let lower = s.lower_half().plus(w)?;
    let upper = s.upper_half().plus(w)?;
    Some((lower, upper))
}

/// The least length whose double `d` is at most.
pub fn upper_half_is_least<T: Length>(d: T) -> T
    ensures theorem { UpperHalfLeast T.Length.kind }
    ensures value { UpperHalf T.Length.kind d result }
{
    d.upper_half()
}

/// The length that `a` is twice, if there is one.
pub fn even_half<T: Length>(a: T) -> Option<T>
    ensures theorem { EvenDoubles T.Length.kind }
    ensures value { MatchOption result ((h : T) → a ≢ T.kind.plus h h) (λ h. a ≡ T.kind.plus h h) }
{
    if !a.is_even() {
        return None;
    }
    Some(a.lower_half())
}

/// The least length that all of `lengths` are at most.
pub fn join_of<T: Length>(lengths: &[T]) -> T
    ensures theorem { JoinsStand T.Length.kind }
    ensures value { IsJoin T.Length.kind (λ i. i < length lengths.now) (λ i. slice_index_or lengths.now i T.kind.zero) result }
{
    let mut most = T::zero();
    for x in lengths {
        most = most.join(*x);
    }
    most
}
