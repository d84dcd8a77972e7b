//! Bounds of keys.
ghost use Rattle.std.specs.Prelude.{IsTrue, ◌↔◌};
ghost use Rattle.std.specs.BTreeMap.Range.{IsLeBy, IsLtBy};
ghost use Rattle.std.specs.Range.Bound.{bound_map};
ghost use Rattle.art_bytes.specs.Keys.{bytes_cmp};
ghost use Rattle.art_walks.specs.Bounds.{AreValidKeyBounds};

use art_bytes::AsBytes;
use std::ops::Bound;

// Whether the bytes of a key are those of another, or less.
fn is_up_to<Q: AsBytes>(first: &Q, last: &Q) -> bool
    ensures { IsTrue result ↔ IsLeBy bytes_cmp (Q.bytes first.now) (Q.bytes last.now) }
{
    !first.as_bytes().cmp(last.as_bytes()).is_gt()
}

// Whether the bytes of a key are less than those of another.
fn is_below<Q: AsBytes>(first: &Q, last: &Q) -> bool
    ensures { IsTrue result ↔ IsLtBy bytes_cmp (Q.bytes first.now) (Q.bytes last.now) }
{
    first.as_bytes().cmp(last.as_bytes()).is_lt()
}

/// Returns whether a range may be asked for between two bounds. It may not if the bytes of the start are greater than
/// those of the end, or if they are equal and both bounds are excluded.
///
/// An included start with an equal excluded end is a range without a key.
///
/// ```
/// use std::ops::Bound;
/// assert!(rt; bounds_are_valid(Bound::Included(b"ab"), Bound::Excluded(b"ab")));
/// assert!(rt; !bounds_are_valid(Bound::Excluded(b"ab"), Bound::Excluded(b"ab")));
/// assert!(rt; !bounds_are_valid(Bound::Included(b"b"), Bound::Included(b"a")));
/// ```
pub fn bounds_are_valid<Q: AsBytes>(start: Bound<&Q>, end: Bound<&Q>) -> bool
    ensures { IsTrue result ↔ AreValidKeyBounds (bound_map (λ key. Q.bytes key.now) start.entry)
        (bound_map (λ key. Q.bytes key.now) end.entry) }
{
    match (start, end) {
        (Bound::Unbounded, _) => true,
        (_, Bound::Unbounded) => true,
        (Bound::Excluded(first), Bound::Excluded(last)) => is_below(first, last),
        (Bound::Included(first), Bound::Included(last)) => is_up_to(first, last),
        (Bound::Included(first), Bound::Excluded(last)) => is_up_to(first, last),
        (Bound::Excluded(first), Bound::Included(last)) => is_up_to(first, last),
    }
}
