//! `&`, `|`, `^` and `-` of two sets: sets of clones of the keys that a merge gives.
ghost use Rattle.std.specs.Prelude.{◌≡◌, IfOk};
ghost use Rattle.std.specs.List.{AllZip};
ghost use Rattle.art_set.specs.Merges.{difference_of, intersection_of, symmetric_difference_of, union_of};

use crate::merges::{FirstAlone, InBoth, InEither, Kind, OneAlone};
use crate::set::TreeSet;
use art_bytes::{NoPrefixesBytes, OrderedBytes};
use art_map::{TreeMapBuilder, nodes_fit};
use std::alloc::AllocError;
use std::ops::{BitAnd, BitOr, BitXor, Sub};

// A set of clones of the keys that a merge of this kind gives, which come in order. It fails if a key can't be cloned,
// or if out of memory. What was made is dropped then.
fn collected<W: Kind<K>, K: OrderedBytes + NoPrefixesBytes + Clone + Drop, const PREFIX_LEN: usize>(
    first: &TreeSet<K, PREFIX_LEN>,
    second: &TreeSet<K, PREFIX_LEN>,
) -> Result<TreeSet<K, PREFIX_LEN>, AllocError>
    ensures { ((k c : K) → K.is_clone k c → K.bytes c ≡ K.bytes k)
        → IfOk result (λ s. AllZip K.is_clone (W.keys first.now.keys second.now.keys) s.keys) }
{
    if !nodes_fit::<PREFIX_LEN>() {
        return Err(AllocError);
    }
    let mut builder = TreeMapBuilder::new(first.alloc);
    let mut sides = first.beside(second);
    let wanted = W::wanted();
    while let Some(key) = sides.next_wanted(wanted) {
        let _key_bytes = key.as_bytes();
        let clone = key.clone()?;
        match builder.put(clone, ()) {
            Ok(()) => {}
            Err(_) => return Err(AllocError),
        }
    }
    Ok(TreeSet {
        alloc: first.alloc,
        map: builder.finish(),
    })
}

/// Clones of the keys that both sets have, as this one has them. Fails if a key can't be cloned, or if out of memory.
/// The contract speaks of keys whose clones have the same bytes (`CloneBytes`). If a clone of a key equals it, it has
/// these keys themselves: see `laws::keys_of_clones`.
///
/// ```
/// let mut first = TreeSet::new(rt.alloc());
/// first.extend([*b"ab", *b"cd"])?;
/// let mut second = TreeSet::new(rt.alloc());
/// second.extend([*b"cd", *b"ef"])?;
/// assert!(rt; (&first & &second)?.iter().eq([b"cd"]));
/// ```
impl<'a, 'b, K: OrderedBytes + NoPrefixesBytes + Clone + Drop, const PREFIX_LEN: usize> BitAnd<
    &'b TreeSet<K, PREFIX_LEN>,
> for &'a TreeSet<K, PREFIX_LEN> {
    type Output = Result<TreeSet<K, PREFIX_LEN>, AllocError>;

    ghost bitand_gives = { λ a b r. ((k c : K) → K.is_clone k c → K.bytes c ≡ K.bytes k)
        → IfOk r (λ s. AllZip K.is_clone (intersection_of K.bytes a.now.keys b.now.keys) s.keys) };

    fn bitand(self, other: &'b TreeSet<K, PREFIX_LEN>) -> Self::Output {
        collected::<InBoth, _, _>(self, other)
    }
}

/// Clones of the keys of this set, and of those of the other that it lacks. It fails and is promised as `&`.
///
/// ```
/// let mut first = TreeSet::new(rt.alloc());
/// first.insert(*b"ab")?;
/// let mut second = TreeSet::new(rt.alloc());
/// second.insert(*b"cd")?;
/// assert!(rt; (&first | &second)?.iter().eq([b"ab", b"cd"]));
/// ```
impl<'a, 'b, K: OrderedBytes + NoPrefixesBytes + Clone + Drop, const PREFIX_LEN: usize> BitOr<
    &'b TreeSet<K, PREFIX_LEN>,
> for &'a TreeSet<K, PREFIX_LEN> {
    type Output = Result<TreeSet<K, PREFIX_LEN>, AllocError>;

    ghost bitor_gives = { λ a b r. ((k c : K) → K.is_clone k c → K.bytes c ≡ K.bytes k)
        → IfOk r (λ s. AllZip K.is_clone (union_of K.bytes a.now.keys b.now.keys) s.keys) };

    fn bitor(self, other: &'b TreeSet<K, PREFIX_LEN>) -> Self::Output {
        collected::<InEither, _, _>(self, other)
    }
}

/// Clones of the keys that one of the sets has and the other lacks. It fails and is promised as `&`.
///
/// ```
/// let mut first = TreeSet::new(rt.alloc());
/// first.extend([*b"ab", *b"cd"])?;
/// let mut second = TreeSet::new(rt.alloc());
/// second.extend([*b"cd", *b"ef"])?;
/// assert!(rt; (&first ^ &second)?.iter().eq([b"ab", b"ef"]));
/// ```
impl<'a, 'b, K: OrderedBytes + NoPrefixesBytes + Clone + Drop, const PREFIX_LEN: usize> BitXor<
    &'b TreeSet<K, PREFIX_LEN>,
> for &'a TreeSet<K, PREFIX_LEN> {
    type Output = Result<TreeSet<K, PREFIX_LEN>, AllocError>;

    ghost bitxor_gives = { λ a b r. ((k c : K) → K.is_clone k c → K.bytes c ≡ K.bytes k)
        → IfOk r (λ s. AllZip K.is_clone (symmetric_difference_of K.bytes a.now.keys b.now.keys) s.keys) };

    fn bitxor(self, other: &'b TreeSet<K, PREFIX_LEN>) -> Self::Output {
        collected::<OneAlone, _, _>(self, other)
    }
}

/// Clones of the keys that the other set lacks. It fails and is promised as `&`.
///
/// ```
/// let mut first = TreeSet::new(rt.alloc());
/// first.extend([*b"ab", *b"cd"])?;
/// let mut second = TreeSet::new(rt.alloc());
/// second.insert(*b"cd")?;
/// assert!(rt; (&first - &second)?.iter().eq([b"ab"]));
/// ```
impl<'a, 'b, K: OrderedBytes + NoPrefixesBytes + Clone + Drop, const PREFIX_LEN: usize> Sub<
    &'b TreeSet<K, PREFIX_LEN>,
> for &'a TreeSet<K, PREFIX_LEN> {
    type Output = Result<TreeSet<K, PREFIX_LEN>, AllocError>;

    ghost sub_gives = { λ a b r. ((k c : K) → K.is_clone k c → K.bytes c ≡ K.bytes k)
        → IfOk r (λ s. AllZip K.is_clone (difference_of K.bytes a.now.keys b.now.keys) s.keys) };

    fn sub(self, other: &'b TreeSet<K, PREFIX_LEN>) -> Self::Output {
        collected::<FirstAlone, _, _>(self, other)
    }
}
