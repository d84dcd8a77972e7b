//! Equality, order, hashes and text of maps: those of their pairs in order.
ghost use Rattle.std.specs.Prelude.{◌≡◌, ◌&&◌, ◌++◌};
ghost use Rattle.std.specs.Hash as fed;
ghost use Rattle.std.specs.List.{fold};
ghost use Rattle.std.specs.Cmp.Lexicographic.{pointwise, slice_cmp, slice_partial_cmp};
ghost use Rattle.std.specs.Cmp.Lexicographic.{lists_equiv, lists_agrees, lists_total, lists_ties, lists_per, lists_po};
ghost use Rattle.std.specs.Ordering.{ordering_then, partial_ordering_then};
ghost use Rattle.std.specs.Cmp.{on_equiv, and_equiv, then_agrees, on_total, then_total, both_tied};
ghost use Rattle.std.specs.Cmp.{on_per, and_per, on_po, then_po};
ghost use Rattle.std.specs.Hash.{on_Alike, and-Alike, items_Alike};

use crate::map::TreeMap;
use art_bytes::AsBytes;
use art_walks::Iter;
use std::cmp::Ordering;
use std::fmt;
use std::hash::{Hash, Hasher};

// Whether two iterators give the same pairs.
fn same<K: AsBytes + PartialEq, V: PartialEq, const PREFIX_LEN: usize>(
    left: Iter<'_, K, V, PREFIX_LEN>,
    right: Iter<'_, K, V, PREFIX_LEN>,
) -> bool
    ensures { result ≡ pointwise (λ p q. K.eq p.0 q.0 && V.eq p.1 q.1) left.entry right.entry }
{
    if left.len() != right.len() {
        return false;
    }
    let mut left = left;
    let mut right = right;
    while let Some((a, x)) = left.next() {
        let (b, y) = right.next().unwrap();
        if !same_pair(a, x, b, y) {
            return false;
        }
    }
    true
}

// Whether two pairs are the same.
fn same_pair<K: PartialEq, V: PartialEq>(a: &K, x: &V, b: &K, y: &V) -> bool
    ensures { result ≡ (K.eq a.now b.now && V.eq x.now y.now) }
{
    a.eq(b) && x.eq(y)
}

// The order of the pairs that two iterators give: the first that differ decide. One that ends before the other comes
// before it.
fn partial_order<K: AsBytes + PartialOrd, V: PartialOrd, const PREFIX_LEN: usize>(
    left: Iter<'_, K, V, PREFIX_LEN>,
    right: Iter<'_, K, V, PREFIX_LEN>,
) -> Option<Ordering>
    ensures { result ≡ slice_partial_cmp (λ p q. partial_ordering_then (K.partial_cmp p.0 q.0)
        (V.partial_cmp p.1 q.1)) left.entry right.entry }
{
    let mut left = left;
    let mut right = right;
    while let Some((a, x)) = left.next() {
        let Some((b, y)) = right.next() else {
            return Some(Ordering::Greater);
        };
        match partial_pair(a, x, b, y) {
            Some(found) => match found {
                Ordering::Equal => {}
                Ordering::Less => return Some(Ordering::Less),
                Ordering::Greater => return Some(Ordering::Greater),
            },
            None => return None,
        }
    }
    match right.next() {
        Some(_) => Some(Ordering::Less),
        None => Some(Ordering::Equal),
    }
}

// The order of two pairs: that of the keys, and where these are equal that of the values.
fn partial_pair<K: PartialOrd, V: PartialOrd>(a: &K, x: &V, b: &K, y: &V) -> Option<Ordering>
    ensures { result ≡ partial_ordering_then (K.partial_cmp a.now b.now) (V.partial_cmp x.now y.now) }
{
    match a.partial_cmp(b) {
        Some(found) => match found {
            Ordering::Equal => x.partial_cmp(y),
            Ordering::Less => Some(Ordering::Less),
            Ordering::Greater => Some(Ordering::Greater),
        },
        None => None,
    }
}

// The order of the pairs of two iterators, as in `partial_order`, where the order of keys and values is total.
fn order<K: AsBytes + Ord, V: Ord, const PREFIX_LEN: usize>(
    left: Iter<'_, K, V, PREFIX_LEN>,
    right: Iter<'_, K, V, PREFIX_LEN>,
) -> Ordering
    ensures { result ≡ slice_cmp (λ p q. ordering_then (K.cmp p.0 q.0) (V.cmp p.1 q.1)) left.entry right.entry }
{
    let mut left = left;
    let mut right = right;
    while let Some((a, x)) = left.next() {
        let Some((b, y)) = right.next() else {
            return Ordering::Greater;
        };
        match total_pair(a, x, b, y) {
            Ordering::Equal => {}
            Ordering::Less => return Ordering::Less,
            Ordering::Greater => return Ordering::Greater,
        }
    }
    match right.next() {
        Some(_) => Ordering::Less,
        None => Ordering::Equal,
    }
}

// The order of two pairs, as in `partial_pair`, where the order of keys and values is total.
fn total_pair<K: Ord, V: Ord>(a: &K, x: &V, b: &K, y: &V) -> Ordering
    ensures { result ≡ ordering_then (K.cmp a.now b.now) (V.cmp x.now y.now) }
{
    match a.cmp(b) {
        Ordering::Equal => x.cmp(y),
        Ordering::Less => Ordering::Less,
        Ordering::Greater => Ordering::Greater,
    }
}

// Feeds a hasher with the number of pairs, and then with each pair.
fn feed<K: AsBytes + Hash, V: Hash, H: Hasher, const PREFIX_LEN: usize>(
    pairs: Iter<'_, K, V, PREFIX_LEN>,
    state: &mut H,
)
    ensures { state.new ≡ fold H.write state.old
        (fed.slice (λ p. K.hash_input p.0 ++ V.hash_input p.1) pairs.entry) }
{
    let mut rest = pairs;
    rest.len().hash(state);
    while let Some((key, value)) = rest.next() {
        key.hash(state);
        value.hash(state);
    }
}

/// Maps are equal if their pairs are, in order.
///
/// ```
/// let mut map = TreeMap::new(rt.alloc());
/// map.insert(*b"ab", 1)?;
/// assert!(rt; map == map.clone()?);
/// ```
impl<K: AsBytes + PartialEq, V: PartialEq, const PREFIX_LEN: usize> PartialEq
    for TreeMap<K, V, PREFIX_LEN> {
    ghost eq = { λ m n. pointwise (λ p q. K.eq p.0 q.0 && V.eq p.1 q.1) m.pairs n.pairs };

    ghost laws = { on_per (λ m. m.pairs)
        (lists_per (and_per (on_per (λ p. p.0) K.PartialEq.laws) (on_per (λ p. p.1) V.laws))) };

    fn eq(&self, other: &Self) -> bool {
        same(self.iter(), other.iter())
    }
}

impl<K: AsBytes + Eq, V: Eq, const PREFIX_LEN: usize> Eq for TreeMap<K, V, PREFIX_LEN> {
    ghost laws = { on_equiv (λ m. m.pairs)
        (lists_equiv (and_equiv (on_equiv (λ p. p.0) K.Eq.laws) (on_equiv (λ p. p.1) V.Eq.laws))) };
}

/// The order of maps is that of their pairs: the first that differ decide. A map whose pairs are the first of another's
/// comes before it.
///
/// ```
/// let mut map = TreeMap::new(rt.alloc());
/// map.insert(*b"ab", 1)?;
/// let mut longer = map.clone()?;
/// longer.insert(*b"cd", 2)?;
/// assert!(rt; map < longer);
/// ```
impl<K: AsBytes + PartialOrd, V: PartialOrd, const PREFIX_LEN: usize> PartialOrd
    for TreeMap<K, V, PREFIX_LEN> {
    ghost partial_cmp = { λ m n. slice_partial_cmp
        (λ p q. partial_ordering_then (K.partial_cmp p.0 q.0) (V.partial_cmp p.1 q.1)) m.pairs n.pairs };

    ghost laws = { on_po (λ m. m.pairs)
        (lists_po (then_po (on_po (λ p. p.0) K.PartialOrd.laws) (on_po (λ p. p.1) V.PartialOrd.laws))) };

    fn partial_cmp(&self, other: &Self) -> Option<Ordering> {
        partial_order(self.iter(), other.iter())
    }
}

impl<K: AsBytes + Ord, V: Ord, const PREFIX_LEN: usize> Ord for TreeMap<K, V, PREFIX_LEN> {
    ghost cmp = { λ m n. slice_cmp (λ p q. ordering_then (K.cmp p.0 q.0) (V.cmp p.1 q.1)) m.pairs n.pairs };

    ghost total = { on_total (λ m. m.pairs)
        (lists_total (then_total (on_total (λ p. p.0) K.total) (on_total (λ p. p.1) V.total))) };

    ghost matches_partial_cmp = { λ x y. lists_agrees
        (then_agrees (λ p q. K.matches_partial_cmp p.0 q.0) (λ p q. V.matches_partial_cmp p.1 q.1)) x.pairs y.pairs };

    ghost matches_eq = { λ x y.
        let K' = K.cmp in
        let V' = V.cmp in
        lists_ties (λ p q. ordering_then (K' p.0 q.0) (V' p.1 q.1))
        (λ p q. both_tied _ _ (K' p.0 q.0) (V' p.1 q.1) (K.matches_eq p.0 q.0) (V.matches_eq p.1 q.1))
        x.pairs y.pairs };

    fn cmp(&self, other: &Self) -> Ordering {
        order(self.iter(), other.iter())
    }
}

/// The hasher is fed with the number of pairs, and then with each pair in order.
impl<K: AsBytes + Hash, V: Hash, const PREFIX_LEN: usize> Hash for TreeMap<K, V, PREFIX_LEN> {
    ghost hash_input = { λ m. fed.slice (λ p. K.hash_input p.0 ++ V.hash_input p.1) m.pairs };

    ghost respects_eq = { (on_Alike (λ m. m.pairs) (items_Alike (and-Alike
        (on_Alike (λ p. p.0) (record { fed = K.respects_eq }))
        (on_Alike (λ p. p.1) (record { fed = V.respects_eq }))))).fed };

    fn hash<H: Hasher>(&self, state: &mut H) {
        feed(self.iter(), state);
    }
}

/// The text of a map: its pairs in order.
///
/// ```
/// let mut map = TreeMap::new(rt.alloc());
/// map.extend([([2], true), ([1], false)])?;
/// let text = format!(in rt.alloc(); "{map:?}")?;
/// assert_eq!(rt; text.as_str(), "{[1]: false, [2]: true}");
/// ```
impl<K: AsBytes + fmt::Debug, V: fmt::Debug, const PREFIX_LEN: usize> fmt::Debug
    for TreeMap<K, V, PREFIX_LEN> {
    fn fmt<W: fmt::Write>(&self, f: &mut fmt::Formatter<W>) -> fmt::Result {
        let mut out = f.debug_map();
        for (key, value) in self {
            out.entry(key, value);
        }
        out.finish()
    }
}
