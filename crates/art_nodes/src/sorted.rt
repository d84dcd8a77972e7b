//! Inner nodes of few children, whose bytes and names stand side by side in ascending order.
ghost use Rattle.std.specs.Prelude.{◌≡◌, ◌↔◌, ◌<◌, ◌≤◌, ◌⊎◌, ◌+◌, ◌^◌, ◌==◌, ◌∷◌, [], length, min, take, IsTrue};
ghost use Rattle.std.specs.Prelude.{IsSome};
ghost use Rattle.std.specs.Prelude.{MatchResult};
ghost use Rattle.art_nodes.specs.Header.{front_of, header_of};
ghost use Rattle.std.specs.List.{zip};
ghost use Rattle.art_nodes.specs.inner.Place.{StandsAt, BelongsAt};
ghost use Rattle.art_nodes.specs.InnerNode.{InnerNode, IsInnerNode, IsAscending, child_at, with_child, without_child};
ghost use Rattle.art_nodes.specs.InnerNode.{childless, with_children};

use crate::child_iter::{ChildIter, end_of, start_of};
use crate::header::Header;
use crate::inner_node::{InnerNodeCommon, InnerNodeInit};
use crate::names::OpaqueNodePtr;
use crate::row::{place_below, place_in, position_in, put_in, take_out};
use crate::sealed::Sealed;
use arrayvec::ArrayVec;
use std::fmt;
use std::marker::{Model, PhantomData};
use std::ops::Bound;

/// An inner node of up to `SIZE` children, by ascending byte. The bytes are an array, of which the header counts those
/// in use, the first ones: so all of it is compared at once.
#[derive(Drop)]
pub struct InnerNodeSorted<K, V, const PREFIX_LEN: usize, const SIZE: usize> {
    header: Header<PREFIX_LEN>,
    keys: [u8; SIZE],
    names: ArrayVec<OpaqueNodePtr, SIZE>,
    tree: PhantomData<(K, V)>,
}

impl<K, V, const PREFIX_LEN: usize, const SIZE: usize> Model
    for InnerNodeSorted<K, V, PREFIX_LEN, SIZE> {
    ghost use Rattle.std.specs.List.{zip};
    ghost use Rattle.art_nodes.specs.InnerNode.{InnerNode};
    ghost use Rattle.art_nodes.specs.inner.Sorted.{InUse, in_use};

    ghost Value = { InnerNode };

    ghost view = { λ n. record {
      header = n.header;
      children = zip (in_use n.header n.keys) n.names.items;
    } };

    ghost invariant = { λ n. InUse SIZE n.header n.keys n.names.items };
}

// The place of the byte among the first `used` of these ascending bytes, or the place where it belongs.
fn find(keys: &[u8], used: usize, byte: u8) -> Result<usize, usize>
    requires { used ≤ length keys.now }
    ensures { MatchResult result (StandsAt (take used keys.now) byte) (BelongsAt (take used keys.now) byte) }
{
    let at = place_in(keys, used, byte);
    if at < used && keys[at] == byte {
        Ok(at)
    } else {
        Err(at)
    }
}

impl<K, V, const PREFIX_LEN: usize, const SIZE: usize> InnerNodeSorted<K, V, PREFIX_LEN, SIZE> {
    /// The bytes and the names in use, side by side and ascending by byte.
    pub fn initialized_portion(&self) -> (&[u8], &[OpaqueNodePtr])
        ensures children { zip result.0.now result.1.now ≡ self.now.children }
        ensures same_length { length result.0.now ≡ length result.1.now }
    {
        let used = self.header.num_children();
        (&self.keys[..used], self.names.as_slice())
    }

    /// Makes a node of two children, the first under the smaller byte. Its prefix is the first `len` bytes of these,
    /// which must cover what is stored of it. No byte is looked for and nothing is moved, so the node is made at its
    /// place.
    #[inline(always)]
    pub fn with_two_children(
        bytes: &[u8],
        len: usize,
        low: (u8, OpaqueNodePtr),
        high: (u8, OpaqueNodePtr),
    ) -> Self
        requires room { 2 ≤ SIZE }
        requires covers { min len PREFIX_LEN ≤ length bytes.now }
        requires ascending { low.0 < high.0 }
        ensures { result ≡ with_children (childless (header_of PREFIX_LEN bytes.now len)) (low ∷ high ∷ []) }
    {
        let mut header = Header::new(bytes, len);
        header.inc_num_children();
        header.inc_num_children();
        let mut keys = [0; SIZE];
        keys[0] = low.0;
        keys[1] = high.0;
        let mut names = ArrayVec::new();
        names.push(low.1);
        names.push(high.1);
        InnerNodeSorted {
            header,
            keys,
            names,
            tree: PhantomData,
        }
    }
}

impl<K, V, const PREFIX_LEN: usize, const SIZE: usize> Sealed
    for InnerNodeSorted<K, V, PREFIX_LEN, SIZE> {}

impl<K, V, const PREFIX_LEN: usize, const SIZE: usize> InnerNodeInit<PREFIX_LEN>
    for InnerNodeSorted<K, V, PREFIX_LEN, SIZE> {
    ghost inner = { λ n. n };

    fn from_prefix(bytes: &[u8], len: usize) -> Self {
        InnerNodeSorted {
            header: Header::new(bytes, len),
            keys: [0; SIZE],
            names: ArrayVec::new(),
            tree: PhantomData,
        }
    }
}

impl<K, V, const PREFIX_LEN: usize, const SIZE: usize> InnerNodeCommon<PREFIX_LEN>
    for InnerNodeSorted<K, V, PREFIX_LEN, SIZE> {
    ghost room = { SIZE };

    fn header(&self) -> &Header<PREFIX_LEN> {
        let _count = self.header.num_children();
        &self.header
    }

    fn copy_prefix(&mut self, prefix: &Header<PREFIX_LEN>) {
        self.header.copy_prefix(prefix);
    }

    fn is_full(&self) -> bool {
        self.header.num_children() == SIZE
    }

    fn lookup_child(&self, byte: u8) -> Option<OpaqueNodePtr> {
        match position_in(&self.keys, self.header.num_children(), byte) {
            Some(at) => Some(self.names.as_slice()[at]),
            None => None,
        }
    }

    fn write_child(&mut self, byte: u8, name: OpaqueNodePtr) {
        let used = self.header.num_children();
        match find(&self.keys, used, byte) {
            Ok(at) => self.names.as_mut_slice()[at] = name,
            Err(at) => {
                put_in(&mut self.keys, used, at, byte);
                self.names.push(name);
                put_in(self.names.as_mut_slice(), used, at, name);
                self.header.inc_num_children();
            }
        }
    }

    fn remove_child(&mut self, byte: u8) -> Option<OpaqueNodePtr> {
        let used = self.header.num_children();
        let at = match find(&self.keys, used, byte) {
            Ok(at) => at,
            Err(_) => return None,
        };
        let removed = self.names.as_slice()[at];
        take_out(&mut self.keys, used, at);
        take_out(self.names.as_mut_slice(), used, at);
        self.names.truncate(used - 1);
        self.header.dec_num_children();
        Some(removed)
    }

    fn iter(&self) -> ChildIter<'_> {
        let used = self.header.num_children();
        ChildIter::sorted(&self.keys[..used], self.names.as_slice())
    }

    fn range(&self, start: Bound<u8>, end: Bound<u8>) -> ChildIter<'_> {
        let used = self.header.num_children();
        let low = place_below(&self.keys, used, start_of(start));
        let high = place_below(&self.keys, used, end_of(end));
        ChildIter::sorted_part(&self.keys[..used], self.names.as_slice(), low, high)
    }
}

impl<K, V, const PREFIX_LEN: usize, const SIZE: usize> fmt::Debug
    for InnerNodeSorted<K, V, PREFIX_LEN, SIZE> {
    fn fmt<W: fmt::Write>(&self, f: &mut fmt::Formatter<W>) -> fmt::Result {
        let header = &self.header;
        write!(f, "InnerNodeSorted({header:?})")
    }
}
