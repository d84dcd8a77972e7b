//! Two sets: what one has alone, what both have in common, and what they have together.
ghost use Rattle.std.specs.Prelude.{◌≡◌, ◌+◌, length};
ghost use Rattle.art_set.specs.Merges.{comparisons_of, difference_of, intersection_of};
ghost use Rattle.art_set.specs.Merges.{symmetric_difference_of, union_of};
ghost use Rattle.art_set.specs.Merges.{are_disjoint, is_subset_of, AscendsInBytes};

use crate::merges::{Difference, Intersection, Merged, Peeked, Sides, SymmetricDifference, Union};
use crate::set::TreeSet;
use art_bytes::OrderedBytes;

impl<K: OrderedBytes, const PREFIX_LEN: usize> TreeSet<K, PREFIX_LEN> {
    // The keys of both sets, side by side.
    pub(crate) fn beside<'a>(
        &'a self,
        other: &'a TreeSet<K, PREFIX_LEN>,
    ) -> Sides<'a, K, PREFIX_LEN>
        ensures first { result.first ≡ self.now.keys }
        ensures second { result.second ≡ other.now.keys }
        ensures comparisons { result.comparisons ≡ 0 }
        ensures ordered { AscendsInBytes K.bytes result.first × AscendsInBytes K.bytes result.second }
    {
        Sides::new(Peeked::new(self.iter()), Peeked::new(other.iter()))
    }

    /// Returns an iterator over the keys that the other set lacks. It allocates nothing.
    ///
    /// ```
    /// let mut first = TreeSet::new(rt.alloc());
    /// first.extend([*b"ab", *b"cd"])?;
    /// let mut second = TreeSet::new(rt.alloc());
    /// second.extend([*b"cd", *b"ef"])?;
    /// assert!(rt; first.difference(&second).eq([b"ab"]));
    /// ```
    pub fn difference<'a>(
        &'a self,
        other: &'a TreeSet<K, PREFIX_LEN>,
    ) -> Difference<'a, K, PREFIX_LEN>
        ensures rest { result.rest ≡ difference_of K.bytes self.now.keys other.now.keys }
        ensures comparisons { result.comparisons ≡ 0 }
        ensures to_compare { result.to_compare ≡ comparisons_of K.bytes self.now.keys other.now.keys }
        ensures unmet { result.unmet ≡ length self.now.keys + length other.now.keys }
    {
        Merged::new(self.beside(other))
    }

    /// Returns an iterator over the keys that one of the two sets has and the other lacks. It allocates nothing.
    ///
    /// ```
    /// let mut first = TreeSet::new(rt.alloc());
    /// first.extend([*b"ab", *b"cd"])?;
    /// let mut second = TreeSet::new(rt.alloc());
    /// second.extend([*b"cd", *b"ef"])?;
    /// assert!(rt; first.symmetric_difference(&second).eq([b"ab", b"ef"]));
    /// ```
    pub fn symmetric_difference<'a>(
        &'a self,
        other: &'a TreeSet<K, PREFIX_LEN>,
    ) -> SymmetricDifference<'a, K, PREFIX_LEN>
        ensures rest { result.rest ≡ symmetric_difference_of K.bytes self.now.keys other.now.keys }
        ensures comparisons { result.comparisons ≡ 0 }
        ensures to_compare { result.to_compare ≡ comparisons_of K.bytes self.now.keys other.now.keys }
        ensures unmet { result.unmet ≡ length self.now.keys + length other.now.keys }
    {
        Merged::new(self.beside(other))
    }

    /// Returns an iterator over the keys that both sets have, as this set has them. It allocates nothing.
    ///
    /// ```
    /// let mut first = TreeSet::new(rt.alloc());
    /// first.extend([*b"ab", *b"cd"])?;
    /// let mut second = TreeSet::new(rt.alloc());
    /// second.extend([*b"cd", *b"ef"])?;
    /// assert!(rt; first.intersection(&second).eq([b"cd"]));
    /// ```
    pub fn intersection<'a>(
        &'a self,
        other: &'a TreeSet<K, PREFIX_LEN>,
    ) -> Intersection<'a, K, PREFIX_LEN>
        ensures rest { result.rest ≡ intersection_of K.bytes self.now.keys other.now.keys }
        ensures comparisons { result.comparisons ≡ 0 }
        ensures to_compare { result.to_compare ≡ comparisons_of K.bytes self.now.keys other.now.keys }
        ensures unmet { result.unmet ≡ length self.now.keys + length other.now.keys }
    {
        Merged::new(self.beside(other))
    }

    /// Returns an iterator over the keys of this set, and those of the other that it lacks. It allocates nothing.
    ///
    /// ```
    /// let mut first = TreeSet::new(rt.alloc());
    /// first.extend([*b"ab", *b"cd"])?;
    /// let mut second = TreeSet::new(rt.alloc());
    /// second.extend([*b"cd", *b"ef"])?;
    /// assert!(rt; first.union(&second).eq([b"ab", b"cd", b"ef"]));
    /// ```
    pub fn union<'a>(&'a self, other: &'a TreeSet<K, PREFIX_LEN>) -> Union<'a, K, PREFIX_LEN>
        ensures rest { result.rest ≡ union_of K.bytes self.now.keys other.now.keys }
        ensures comparisons { result.comparisons ≡ 0 }
        ensures to_compare { result.to_compare ≡ comparisons_of K.bytes self.now.keys other.now.keys }
        ensures unmet { result.unmet ≡ length self.now.keys + length other.now.keys }
    {
        Merged::new(self.beside(other))
    }

    /// Returns whether the other set has no key of this one.
    ///
    /// ```
    /// let mut first = TreeSet::new(rt.alloc());
    /// first.extend([*b"ab", *b"cd"])?;
    /// let mut second = TreeSet::new(rt.alloc());
    /// second.insert(*b"ef")?;
    /// assert!(rt; first.is_disjoint(&second));
    /// ```
    pub fn is_disjoint(&self, other: &TreeSet<K, PREFIX_LEN>) -> bool
        ensures { result ≡ are_disjoint K.bytes self.now.keys other.now.keys }
    {
        self.intersection(other).next().is_none()
    }

    /// Returns whether the other set has every key of this one.
    ///
    /// ```
    /// let mut first = TreeSet::new(rt.alloc());
    /// first.insert(*b"ab")?;
    /// let mut second = TreeSet::new(rt.alloc());
    /// second.extend([*b"ab", *b"cd"])?;
    /// assert!(rt; first.is_subset(&second));
    /// ```
    pub fn is_subset(&self, other: &TreeSet<K, PREFIX_LEN>) -> bool
        ensures { result ≡ is_subset_of K.bytes self.now.keys other.now.keys }
    {
        self.difference(other).next().is_none()
    }

    /// Returns whether this set has every key of the other.
    ///
    /// ```
    /// let mut first = TreeSet::new(rt.alloc());
    /// first.extend([*b"ab", *b"cd"])?;
    /// let mut second = TreeSet::new(rt.alloc());
    /// second.insert(*b"ab")?;
    /// assert!(rt; first.is_superset(&second));
    /// ```
    pub fn is_superset(&self, other: &TreeSet<K, PREFIX_LEN>) -> bool
        ensures { result ≡ is_subset_of K.bytes other.now.keys self.now.keys }
    {
        other.is_subset(self)
    }
}
