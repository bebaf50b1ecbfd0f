//! A set of nodes.
ghost use Rattle.std.specs.Prelude.{ℕ, ◌<◌, Decides, MatchOption};
ghost use Rattle.graph.specs.Nodes.{Has};
ghost use Rattle.graph.specs.Members.{Inserted, Taken, Bare};

/// The most nodes that a graph has: each is a number below this.
pub const MOST_NODES: usize = 128;

/// A set of numbers below `MOST_NODES`, one binary digit a number.
#[derive(Clone, Copy)]
pub struct NodeSet(pub(crate) u128);

impl NodeSet {
    /// The set of none.
    pub fn empty() -> NodeSet
        ensures { (u : ℕ) → Has result u → ⊥ }
    {
        NodeSet(0)
    }

    /// Whether `u` is in the set.
    pub fn contains(self, u: usize) -> bool
        ensures { Decides result (Has self u) }
    {
        u < MOST_NODES && (self.0 >> u) % 2 == 1
    }

    /// Puts `u` into the set; a number that no node can have is let be.
    pub fn insert(&mut self, u: usize)
        ensures { Inserted self.old self.new u }
    {
        if u < MOST_NODES {
            self.0 |= 1 << u;
        }
    }

    /// Takes the lowest member out of the set, if there is one.
    // a set is copied, so it is no iterator itself; a second type for one loop over the members is no plainer
    pub fn take_first(&mut self) -> Option<usize>
        ensures { MatchOption result (Bare self.old self.new) (λ u. Taken self.old self.new u) }
    {
        if self.0 == 0 {
            return None;
        }
        let first = self.0.trailing_zeros() as usize;
        self.0 &= self.0 - 1;
        Some(first)
    }
}
