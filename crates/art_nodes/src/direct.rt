//! The inner node with room for every byte: a place for each.
use crate::child_iter::{ChildIter, end_of, held, start_of};
use crate::header::Header;
use crate::inner_node::{InnerNodeCommon, InnerNodeInit};
use crate::mask::Mask;
use crate::names::{OpaqueNodePtr, Place};
use crate::sealed::Sealed;
use std::fmt;
use std::marker::{Model, PhantomData};
use std::ops::Bound;

/// An inner node with a place for the child of each byte. The mask says which places hold one, so that those between
/// two children needn't be looked through.
#[derive(Drop)]
pub struct InnerNodeDirect<K, V, const PREFIX_LEN: usize> {
    header: Header<PREFIX_LEN>,
    mask: Mask,
    slots: [Place; 256],
    tree: PhantomData<(K, V)>,
}

impl<K, V, const PREFIX_LEN: usize> Model for InnerNodeDirect<K, V, PREFIX_LEN> {
    ghost use Rattle.art_nodes.specs.InnerNode.{InnerNode};
    ghost use Rattle.art_nodes.specs.inner.Table.{children_from, IsCountedTable};

    ghost Value = { InnerNode };

    ghost view = { λ n. record { header = n.header; children = children_from 0 n.slots } };

    ghost invariant = { λ n. IsCountedTable n.header n.mask n.slots };
}

impl<K, V, const PREFIX_LEN: usize> Sealed for InnerNodeDirect<K, V, PREFIX_LEN> {}

impl<K, V, const PREFIX_LEN: usize> InnerNodeInit<PREFIX_LEN>
    for InnerNodeDirect<K, V, PREFIX_LEN> {
    ghost inner = { λ n. n };

    fn from_prefix(bytes: &[u8], len: usize) -> Self {
        InnerNodeDirect {
            header: Header::new(bytes, len),
            mask: Mask::new(),
            slots: [Place::new(None); 256],
            tree: PhantomData,
        }
    }
}

impl<K, V, const PREFIX_LEN: usize> InnerNodeCommon<PREFIX_LEN>
    for InnerNodeDirect<K, V, PREFIX_LEN> {
    ghost room = { 256 };

    fn header(&self) -> &Header<PREFIX_LEN> {
        let _count = self.header.num_children();
        &self.header
    }

    fn copy_prefix(&mut self, prefix: &Header<PREFIX_LEN>) {
        self.header.copy_prefix(prefix);
    }

    fn is_full(&self) -> bool {
        self.header.num_children() == 256
    }

    fn lookup_child(&self, byte: u8) -> Option<OpaqueNodePtr> {
        held(&self.slots, byte)
    }

    fn write_child(&mut self, byte: u8, name: OpaqueNodePtr) {
        let at = usize::from(byte);
        match held(&self.slots, byte) {
            Some(_) => self.slots[at] = Place::new(Some(name)),
            None => {
                self.mask.mark(byte);
                self.slots[at] = Place::new(Some(name));
                self.header.inc_num_children();
            }
        }
    }

    fn remove_child(&mut self, byte: u8) -> Option<OpaqueNodePtr> {
        let at = usize::from(byte);
        match held(&self.slots, byte) {
            Some(name) => {
                self.mask.unmark(byte);
                self.slots[at] = Place::new(None);
                self.header.dec_num_children();
                Some(name)
            }
            None => None,
        }
    }

    fn iter(&self) -> ChildIter<'_> {
        ChildIter::direct(&self.mask, &self.slots, 0, 256)
    }

    fn range(&self, start: Bound<u8>, end: Bound<u8>) -> ChildIter<'_> {
        ChildIter::direct(&self.mask, &self.slots, start_of(start), end_of(end))
    }
}

impl<K, V, const PREFIX_LEN: usize> fmt::Debug for InnerNodeDirect<K, V, PREFIX_LEN> {
    fn fmt<W: fmt::Write>(&self, f: &mut fmt::Formatter<W>) -> fmt::Result {
        let header = &self.header;
        write!(f, "InnerNodeDirect({header:?})")
    }
}
