//! Leaves: a key and its value, linked to the leaves beside them.
ghost use Rattle.std.specs.Prelude.{◌≡◌, ◌↔◌, IsTrue, None, IfOk, IsOk};
ghost use Rattle.std.specs.Borrow.{sem};

use crate::inner_node::Node;
use crate::kind::KindLeaf;
use crate::names::NodePtr;
use crate::sealed::Sealed;
use crate::unaligned::Unaligned;
use art_bytes::AsBytes;
use std::alloc::AllocError;
use std::fmt;
use std::marker::Model;

/// A leaf: a key with its value, and the names of the leaves before and after it in the order of keys. The names come
/// first, so that they stand beside the slab's tag: an insertion reads these of its neighbours, and no more.
#[derive(Debug, Drop)]
pub struct LeafNode<K, V> {
    previous: Link,
    next: Link,
    key: K,
    value: V,
}

// The leaf beside a leaf, if there is one: one more than its slab key, or zero. It has a model of its own, since the
// check fails of a caller that moves a leaf of concrete types where an enum in the leaf holds a type with a model.
#[derive(Clone, Copy)]
struct Link {
    above: Unaligned,
}

impl Model for Link {
    ghost use Rattle.std.specs.Prelude.{ℕ, Option, ◌≤◌, ◌-◌, ◌^◌};
    ghost use Rattle.std.proofs.Common.{ap};
    ghost use Rattle.art_nodes.specs.Name.{linked_by, above_of};
    ghost use Rattle.art_nodes.specs.lemmas.NameLaws.{above_of-linked_by};

    ghost Value = { Option ℕ };

    ghost view = { λ link. linked_by link.above };

    ghost invariant = { λ link. link.above ≤ 2 ^ 64 - 1 };

    ghost inverse = { λ slot. record { above = above_of slot } };

    ghost inverse_ok = { λ link h. ap (λ (above : ℕ). record { above = above }) (above_of-linked_by link.above) };
}

impl fmt::Debug for Link {
    fn fmt<W: fmt::Write>(&self, f: &mut fmt::Formatter<W>) -> fmt::Result {
        let slot = match self.get() {
            Some(leaf) => Some(leaf.slot()),
            None => None,
        };
        f.debug_struct("Link").field("slot", &slot).finish()
    }
}

impl Link {
    // To this leaf, or to none.
    fn new(leaf: Option<NodePtr<KindLeaf>>) -> Self
        ensures { result ≡ leaf }
    {
        let above = match leaf {
            Some(leaf) => leaf.bounded_slot() + 1,
            None => 0,
        };
        Link {
            above: Unaligned::new(above),
        }
    }

    // The leaf.
    fn get(self) -> Option<NodePtr<KindLeaf>>
        ensures { result ≡ self }
    {
        let above = self.above.get();
        if above == 0 {
            None
        } else {
            Some(NodePtr::from_slot(above - 1))
        }
    }
}

impl<K, V> Sealed for LeafNode<K, V> {}

impl<K, V> Node for LeafNode<K, V> {
    type Kind = KindLeaf;

    type Key = K;

    type Value = V;
}

impl<K, V> LeafNode<K, V> {
    ghost use Rattle.art_nodes.specs.Leaf.{lends_value};

    /// Makes a leaf without neighbours.
    pub fn with_no_siblings(key: K, value: V) -> Self
        ensures key { result.key ≡ key }
        ensures value { result.value ≡ value }
        ensures previous { result.previous ≡ None }
        ensures next { result.next ≡ None }
    {
        LeafNode {
            key,
            value,
            previous: Link::new(None),
            next: Link::new(None),
        }
    }

    /// Returns the key.
    pub fn key_ref(&self) -> &K
        ensures { result.now ≡ self.now.key }
    {
        &self.key
    }

    /// Returns the value.
    pub fn value_ref(&self) -> &V
        ensures { result.now ≡ self.now.value }
    {
        &self.value
    }

    /// Returns the key and the value.
    pub fn entry_ref(&self) -> (&K, &V)
        ensures key { result.0.now ≡ self.now.key }
        ensures value { result.1.now ≡ self.now.value }
    {
        (&self.key, &self.value)
    }

    /// Lends the value for writing.
    pub fn value_mut(&mut self) -> &mut V
        ensures* writes_back { sem 𝓛 (lends_value K.row V.row self.entry result) }
        ensures value { result.now ≡ self.old.value }
    {
        &mut self.value
    }

    /// Lends the key, and the value for writing.
    pub fn entry_mut(&mut self) -> (&K, &mut V)
        ensures* writes_back { sem 𝓛 (lends_value K.row V.row self.entry result.1) }
        ensures key { result.0.now ≡ self.old.key }
        ensures value { result.1.now ≡ self.old.value }
    {
        (&self.key, &mut self.value)
    }

    /// Returns the key and the value, which the leaf owned.
    pub fn into_entry(self) -> (K, V)
        ensures key { result.0 ≡ self.key }
        ensures value { result.1 ≡ self.value }
    {
        let LeafNode {
            key,
            value,
            previous: _,
            next: _,
        } = self;
        (key, value)
    }

    /// Returns the name of the leaf before this one, if there is one.
    pub fn previous(&self) -> Option<NodePtr<KindLeaf>>
        ensures { result ≡ self.now.previous }
    {
        self.previous.get()
    }

    /// Returns the name of the leaf after this one, if there is one.
    pub fn next(&self) -> Option<NodePtr<KindLeaf>>
        ensures { result ≡ self.now.next }
    {
        self.next.get()
    }

    /// Names the leaf before this one, or none.
    pub fn set_previous(&mut self, leaf: Option<NodePtr<KindLeaf>>)
        ensures { self.new ≡ record self.old { previous = leaf } }
    {
        self.previous = Link::new(leaf);
    }

    /// Names the leaf after this one, or none.
    pub fn set_next(&mut self, leaf: Option<NodePtr<KindLeaf>>)
        ensures { self.new ≡ record self.old { next = leaf } }
    {
        self.next = Link::new(leaf);
    }
}

impl<K: AsBytes, V> LeafNode<K, V> {
    /// Returns whether the bytes of the key are these.
    pub fn compare_full_key(&self, bytes: &[u8]) -> bool
        ensures { IsTrue result ↔ (K.bytes self.now.key ≡ bytes.now) }
    {
        self.key.as_bytes() == bytes
    }
}

/// A leaf of clones of the key and of the value, with the same neighbours. Fails if one of the clones does.
impl<K: Clone, V: Clone> Clone for LeafNode<K, V> {
    ghost use Rattle.art_nodes.specs.Leaf.{IsLeafClone};

    ghost is_clone = { IsLeafClone K.is_clone V.is_clone };

    fn clone(&self) -> Result<Self, AllocError> {
        Ok(LeafNode {
            key: self.key.clone()?,
            value: self.value.clone()?,
            previous: self.previous,
            next: self.next,
        })
    }
}

impl<K: Clone, V: Clone> LeafNode<K, V> {
    /// Makes a leaf of a clone of the key and a clone of the value, without neighbours. Fails if one of the clones
    /// does.
    pub fn clone_without_siblings(&self) -> Result<Self, AllocError>
        ensures key { IfOk result (λ leaf. K.is_clone self.now.key leaf.key) }
        ensures value { IfOk result (λ leaf. V.is_clone self.now.value leaf.value) }
        ensures links { IfOk result (λ leaf. (leaf.previous ≡ None) × (leaf.next ≡ None)) }
        ensures succeeds { K.is_infallible self.now.key → V.is_infallible self.now.value → IsOk result }
    {
        Ok(LeafNode::with_no_siblings(self.key.clone()?, self.value.clone()?))
    }
}
