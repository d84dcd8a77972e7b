//! Inner nodes whose children stand packed by ascending byte, with a bit for each byte that has one.
ghost use Rattle.std.specs.Prelude.{◌≡◌, min, IsPermutation};
ghost use Rattle.art_nodes.specs.InnerNode.{names_of};

use crate::child_iter::{ChildIter, end_of, start_of};
use crate::header::Header;
use crate::inner_node::{InnerNodeCommon, InnerNodeInit};
use crate::mask::Mask;
use crate::names::OpaqueNodePtr;
use crate::row::{put_in, take_out};
use crate::sealed::Sealed;
use arrayvec::ArrayVec;
use std::fmt;
use std::marker::{Model, PhantomData};
use std::ops::Bound;

/// An inner node of up to `SIZE` children and at most 255, whose names stand packed by ascending byte. The mask says
/// which bytes have a child; a child's place is the number of marked bytes below its own.
#[derive(Drop)]
pub struct InnerNodeIndirect<K, V, const PREFIX_LEN: usize, const SIZE: usize> {
    header: Header<PREFIX_LEN>,
    mask: Mask,
    names: ArrayVec<OpaqueNodePtr, SIZE>,
    tree: PhantomData<(K, V)>,
}

impl<K, V, const PREFIX_LEN: usize, const SIZE: usize> Model
    for InnerNodeIndirect<K, V, PREFIX_LEN, SIZE> {
    ghost use Rattle.art_nodes.specs.InnerNode.{InnerNode};
    ghost use Rattle.std.specs.Prelude.{min};
    ghost use Rattle.std.specs.List.{zip};
    ghost use Rattle.art_nodes.specs.inner.Sorted.{IsSideBySide};

    ghost Value = { InnerNode };

    ghost view = { λ n. record { header = n.header; children = zip n.mask n.names.items } };

    ghost invariant = { λ n. IsSideBySide (min SIZE 255) n.header n.mask n.names.items };
}

impl<K, V, const PREFIX_LEN: usize, const SIZE: usize> InnerNodeIndirect<K, V, PREFIX_LEN, SIZE> {
    /// The names in use, each as often as there are children with it. Their order is open.
    pub fn initialized_child_pointers(&self) -> &[OpaqueNodePtr]
        ensures { IsPermutation (names_of self.now.children) result.now }
    {
        self.names.as_slice()
    }
}

impl<K, V, const PREFIX_LEN: usize, const SIZE: usize> Sealed
    for InnerNodeIndirect<K, V, PREFIX_LEN, SIZE> {}

impl<K, V, const PREFIX_LEN: usize, const SIZE: usize> InnerNodeInit<PREFIX_LEN>
    for InnerNodeIndirect<K, V, PREFIX_LEN, SIZE> {
    ghost inner = { λ n. n };

    fn from_prefix(bytes: &[u8], len: usize) -> Self {
        InnerNodeIndirect {
            header: Header::new(bytes, len),
            mask: Mask::new(),
            names: ArrayVec::new(),
            tree: PhantomData,
        }
    }
}

impl<K, V, const PREFIX_LEN: usize, const SIZE: usize> InnerNodeCommon<PREFIX_LEN>
    for InnerNodeIndirect<K, V, PREFIX_LEN, SIZE> {
    ghost room = { min SIZE 255 };

    fn header(&self) -> &Header<PREFIX_LEN> {
        let _count = self.header.num_children();
        &self.header
    }

    fn copy_prefix(&mut self, prefix: &Header<PREFIX_LEN>) {
        self.header.copy_prefix(prefix);
    }

    fn is_full(&self) -> bool {
        self.header.num_children() == SIZE.min(255)
    }

    fn lookup_child(&self, byte: u8) -> Option<OpaqueNodePtr> {
        match self.mask.find(byte) {
            Some(at) => Some(self.names.as_slice()[at]),
            None => None,
        }
    }

    fn write_child(&mut self, byte: u8, name: OpaqueNodePtr) {
        match self.mask.find(byte) {
            Some(at) => self.names.as_mut_slice()[at] = name,
            None => {
                let at = self.mask.place(usize::from(byte));
                let used = self.names.len();
                self.mask.mark(byte);
                self.names.push(name);
                put_in(self.names.as_mut_slice(), used, at, name);
                self.header.inc_num_children();
            }
        }
    }

    fn remove_child(&mut self, byte: u8) -> Option<OpaqueNodePtr> {
        let at = match self.mask.find(byte) {
            Some(at) => at,
            None => return None,
        };
        let removed = self.names.as_slice()[at];
        let used = self.names.len();
        self.mask.unmark(byte);
        take_out(self.names.as_mut_slice(), used, at);
        self.names.truncate(used - 1);
        self.header.dec_num_children();
        Some(removed)
    }

    fn iter(&self) -> ChildIter<'_> {
        ChildIter::indirect(&self.mask, 0, 256, self.names.as_slice())
    }

    fn range(&self, start: Bound<u8>, end: Bound<u8>) -> ChildIter<'_> {
        let names = self.names.as_slice();
        ChildIter::indirect_part(&self.mask, names, start_of(start), end_of(end))
    }
}

impl<K, V, const PREFIX_LEN: usize, const SIZE: usize> fmt::Debug
    for InnerNodeIndirect<K, V, PREFIX_LEN, SIZE> {
    fn fmt<W: fmt::Write>(&self, f: &mut fmt::Formatter<W>) -> fmt::Result {
        let header = &self.header;
        write!(f, "InnerNodeIndirect({header:?})")
    }
}
