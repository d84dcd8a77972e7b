//! Equality, order, hashes and text of sets: those of their keys in order.
ghost use Rattle.std.specs.Hash as fed;
ghost use Rattle.std.specs.Cmp.Lexicographic.{pointwise, slice_cmp, slice_partial_cmp};
ghost use Rattle.std.specs.Cmp.Lexicographic.{lists_equiv, lists_agrees, lists_total, lists_ties, lists_per, lists_po};
ghost use Rattle.std.specs.Cmp.{on_equiv, on_per, on_po, on_total};
ghost use Rattle.std.specs.Hash.{items_Alike, on_Alike};

use crate::set::TreeSet;
use art_bytes::AsBytes;
use std::cmp::Ordering;
use std::fmt;
use std::hash::{Hash, Hasher};

/// Sets are equal if their keys are, in order.
///
/// ```
/// let mut set = TreeSet::new(rt.alloc());
/// set.insert(*b"ab")?;
/// assert!(rt; set == set.clone()?);
/// ```
impl<K: AsBytes + PartialEq, const PREFIX_LEN: usize> PartialEq for TreeSet<K, PREFIX_LEN> {
    ghost eq = { λ s t. pointwise K.eq s.keys t.keys };

    ghost laws = { on_per (λ s. s.keys) (lists_per K.PartialEq.laws) };

    fn eq(&self, other: &Self) -> bool {
        self.map.eq(&other.map)
    }
}

impl<K: AsBytes + Eq, const PREFIX_LEN: usize> Eq for TreeSet<K, PREFIX_LEN> {
    ghost laws = { on_equiv (λ s. s.keys) (lists_equiv K.Eq.laws) };
}

/// The order of sets is that of their keys: the first that differ decide. A set whose keys are the first of another's
/// comes before it.
impl<K: AsBytes + PartialOrd, const PREFIX_LEN: usize> PartialOrd for TreeSet<K, PREFIX_LEN> {
    ghost partial_cmp = { λ s t. slice_partial_cmp K.partial_cmp s.keys t.keys };

    ghost laws = { on_po (λ s. s.keys) (lists_po K.PartialOrd.laws) };

    fn partial_cmp(&self, other: &Self) -> Option<Ordering> {
        self.map.partial_cmp(&other.map)
    }
}

impl<K: AsBytes + Ord, const PREFIX_LEN: usize> Ord for TreeSet<K, PREFIX_LEN> {
    ghost cmp = { λ s t. slice_cmp K.cmp s.keys t.keys };

    ghost total = { on_total (λ s. s.keys) (lists_total K.total) };

    ghost matches_partial_cmp = { λ s t. lists_agrees K.matches_partial_cmp s.keys t.keys };

    ghost matches_eq = { λ s t. lists_ties K.cmp K.matches_eq s.keys t.keys };

    fn cmp(&self, other: &Self) -> Ordering {
        self.map.cmp(&other.map)
    }
}

/// The hasher is fed with the number of keys, and then with each key in order.
impl<K: AsBytes + Hash, const PREFIX_LEN: usize> Hash for TreeSet<K, PREFIX_LEN> {
    ghost hash_input = { λ s. fed.slice K.hash_input s.keys };

    ghost respects_eq = { (on_Alike (λ s. s.keys) (items_Alike (record { fed = K.respects_eq }))).fed };

    fn hash<H: Hasher>(&self, state: &mut H) {
        self.map.hash(state);
    }
}

/// The text of a set: its keys in order.
///
/// ```
/// let mut set = TreeSet::new(rt.alloc());
/// set.extend([[2], [1]])?;
/// let text = format!(in rt.alloc(); "{set:?}")?;
/// assert_eq!(rt; text.as_str(), "{[1], [2]}");
/// ```
impl<K: AsBytes + fmt::Debug, const PREFIX_LEN: usize> fmt::Debug for TreeSet<K, PREFIX_LEN> {
    fn fmt<W: fmt::Write>(&self, f: &mut fmt::Formatter<W>) -> fmt::Result {
        let mut out = f.debug_set();
        for key in self {
            out.entry(key);
        }
        out.finish()
    }
}
