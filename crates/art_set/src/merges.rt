//! The keys of two sets, gone through side by side: what a set has alone, what both have in common, what they have
//! together. Each merge is an iterator forward, ascending by the bytes of the keys. It counts its comparisons.
ghost use Rattle.std.specs.Prelude.{◌≡◌, ◌+◌, ⊤, length};
ghost use Rattle.std.specs.Iterator.{at_most};
ghost use Rattle.art_set.specs.Merges.{GivesNext, comparisons_of};

mod kinds;
mod peeked;
mod sides;

use art_arena::NodeArena;
use art_bytes::OrderedBytes;
pub(crate) use kinds::{FirstAlone, InBoth, InEither, Kind, OneAlone};
pub(crate) use peeked::Peeked;
pub(crate) use sides::Sides;
use std::alloc::AllocError;
use std::iter::FusedIterator;
use std::marker::{Model, PhantomData};

/// An iterator over the keys of two sets that are wanted by the kind of the merge, ascending by their bytes. A contract
/// sees it as the list of those still to come, with the number of comparisons made.
#[derive(Drop)]
pub struct Merged<
    'a,
    W: Kind<K>,
    K: OrderedBytes,
    const PREFIX_LEN: usize,
    M: 'a = NodeArena<K, (), PREFIX_LEN>,
> {
    sides: Sides<'a, K, PREFIX_LEN, M>,
    kind: PhantomData<W>,
}

/// An iterator over the keys of a set that another set lacks.
pub type Difference<'a, K, const PREFIX_LEN: usize> = Merged<'a, FirstAlone, K, PREFIX_LEN>;

/// An iterator over the keys that one of two sets has and the other lacks.
pub type SymmetricDifference<'a, K, const PREFIX_LEN: usize> = Merged<'a, OneAlone, K, PREFIX_LEN>;

/// An iterator over the keys of a set that another set has too.
pub type Intersection<'a, K, const PREFIX_LEN: usize> = Merged<'a, InBoth, K, PREFIX_LEN>;

/// An iterator over the keys of two sets. Of a key that both have it gives the first set's.
pub type Union<'a, K, const PREFIX_LEN: usize> = Merged<'a, InEither, K, PREFIX_LEN>;

impl<'a, W: Kind<K>, K: OrderedBytes, const PREFIX_LEN: usize, M: 'a> Model
    for Merged<'a, W, K, PREFIX_LEN, M> {
    ghost use Rattle.art_set.specs.Merges.{Merge};
    ghost use Rattle.art_set.specs.inner.Merging.{merge_of};

    ghost Value = { Merge K };

    ghost view = { λ it. merge_of K.bytes W.keys it.sides };
}

impl<'a, W: Kind<K>, K: OrderedBytes, const PREFIX_LEN: usize> Merged<'a, W, K, PREFIX_LEN> {
    pub(crate) fn new(sides: Sides<'a, K, PREFIX_LEN>) -> Self
        ensures rest { result.rest ≡ W.keys sides.entry.first sides.entry.second }
        ensures comparisons { result.comparisons ≡ sides.entry.comparisons }
        ensures to_compare { result.to_compare ≡ comparisons_of K.bytes sides.entry.first sides.entry.second }
        ensures unmet { result.unmet ≡ length sides.entry.first + length sides.entry.second }
    {
        Merged {
            sides,
            kind: PhantomData,
        }
    }

    /// Returns how many comparisons of two keys were made: one for each step in which both sets had a key left. The
    /// count stays at the greatest `usize`.
    ///
    /// ```
    /// let mut first = TreeSet::new(rt.alloc());
    /// first.extend([*b"ab", *b"cd"])?;
    /// let mut second = TreeSet::new(rt.alloc());
    /// second.insert(*b"cd")?;
    /// let mut merge = first.intersection(&second);
    /// assert_eq!(rt; merge.next(), Some(b"cd"));
    /// assert_eq!(rt; merge.comparisons(), 2);
    /// ```
    pub fn comparisons(&self) -> usize
        ensures { result ≡ self.now.comparisons }
    {
        self.sides.comparisons()
    }
}

/// Another merge of the keys still to come, which goes on with the number of comparisons that this one made. It
/// allocates nothing, and never fails.
///
/// ```
/// let mut first = TreeSet::new(rt.alloc());
/// first.extend([*b"ab", *b"cd"])?;
/// let mut second = TreeSet::new(rt.alloc());
/// second.insert(*b"ef")?;
/// let mut keys = first.union(&second);
/// keys.next();
/// let again = keys.clone()?;
/// assert_eq!(rt; keys.next(), Some(b"cd"));
/// assert!(rt; again.eq([b"cd", b"ef"]));
/// ```
impl<'a, W: Kind<K>, K: OrderedBytes, const PREFIX_LEN: usize> Clone
    for Merged<'a, W, K, PREFIX_LEN> {
    ghost is_clone = { λ original copy. copy ≡ original };

    ghost is_infallible = { λ _. ⊤ };

    fn clone(&self) -> Result<Self, AllocError> {
        Ok(Merged {
            sides: self.sides.clone()?,
            kind: PhantomData,
        })
    }
}

impl<'a, W: Kind<K>, K: OrderedBytes, const PREFIX_LEN: usize> Iterator
    for Merged<'a, W, K, PREFIX_LEN> {
    type Item = &'a K;

    ghost next_gives = { GivesNext };

    ghost remaining = { λ it. at_most (length it.rest) };

    fn next(&mut self) -> Option<&'a K> {
        self.sides.next_wanted(W::wanted())
    }
}

impl<'a, W: Kind<K>, K: OrderedBytes, const PREFIX_LEN: usize> FusedIterator
    for Merged<'a, W, K, PREFIX_LEN> {}
