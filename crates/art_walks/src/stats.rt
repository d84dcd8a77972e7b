//! How many nodes of each kind a tree has.
ghost use Rattle.std.specs.Prelude.{◌≡◌, ◌+◌, ◌-◌, ◌^◌, min};
ghost use Rattle.art_walks.specs.Stats.{stats_sum};

use std::ops::{Add, AddAssign};

/// How many nodes of each kind a tree has.
#[derive(Clone, Copy, PartialEq, Eq, Debug)]
pub struct WellFormedTreeStats {
    /// The inner nodes of up to 4 children.
    pub num_node4: usize,
    /// The inner nodes of 5 to 16 children.
    pub num_node16: usize,
    /// The inner nodes of 17 to 32 children.
    pub num_node32: usize,
    /// The inner nodes of 33 to 48 children.
    pub num_node48: usize,
    /// The inner nodes of 49 children or more.
    pub num_node256: usize,
    /// The leaves.
    pub num_leaf: usize,
}

impl WellFormedTreeStats {
    /// Returns how many nodes there are in all. A sum above the greatest `usize` stays there.
    ///
    /// ```
    /// use art_map::TreeMap;
    /// let mut map = TreeMap::new(rt.alloc());
    /// map.extend([(*b"ab", 1), (*b"ac", 2)])?;
    /// assert_eq!(rt; map.audit()?.total_nodes(), 3);
    /// ```
    pub fn total_nodes(&self) -> usize
        ensures { result ≡ min (self.now.num_node4 + self.now.num_node16 + self.now.num_node32 + self.now.num_node48
            + self.now.num_node256 + self.now.num_leaf) (2 ^ 64 - 1) }
    {
        self.num_node4
            .saturating_add(self.num_node16)
            .saturating_add(self.num_node32)
            .saturating_add(self.num_node48)
            .saturating_add(self.num_node256)
            .saturating_add(self.num_leaf)
    }
}

/// Adds kind by kind. A sum above the greatest `usize` stays there.
impl Add for WellFormedTreeStats {
    type Output = WellFormedTreeStats;

    ghost add_gives = { λ a b r. r ≡ stats_sum a b };

    fn add(self, rhs: WellFormedTreeStats) -> WellFormedTreeStats {
        WellFormedTreeStats {
            num_node4: self.num_node4.saturating_add(rhs.num_node4),
            num_node16: self.num_node16.saturating_add(rhs.num_node16),
            num_node32: self.num_node32.saturating_add(rhs.num_node32),
            num_node48: self.num_node48.saturating_add(rhs.num_node48),
            num_node256: self.num_node256.saturating_add(rhs.num_node256),
            num_leaf: self.num_leaf.saturating_add(rhs.num_leaf),
        }
    }
}

/// Adds kind by kind, as `+` does.
impl AddAssign for WellFormedTreeStats {
    ghost add_assign_gives = { λ a b r. r ≡ stats_sum a b };

    fn add_assign(&mut self, rhs: WellFormedTreeStats) {
        *self = *self + rhs;
    }
}
