//! The five kinds of inner nodes: which node is of which kind, what each grows and shrinks into, and the
//! conversions between neighbouring kinds.
ghost use Rattle.std.specs.Prelude.{◌≡◌, ◌≤◌, length, refl};

use crate::direct::InnerNodeDirect;
use crate::indirect::InnerNodeIndirect;
use crate::inner_node::{InnerNode, InnerNodeCommon, Node};
use crate::kind::{Kind4, Kind16, Kind32, Kind48, Kind256};
use crate::sorted::InnerNodeSorted;
use std::alloc::AllocError;

/// The smallest inner node.
pub type InnerNode4<K, V, const PREFIX_LEN: usize> = InnerNodeSorted<K, V, PREFIX_LEN, 4>;

/// An inner node of up to 16 children.
pub type InnerNode16<K, V, const PREFIX_LEN: usize> = InnerNodeSorted<K, V, PREFIX_LEN, 16>;

/// An inner node of up to 32 children.
pub type InnerNode32<K, V, const PREFIX_LEN: usize> = InnerNodeIndirect<K, V, PREFIX_LEN, 32>;

/// An inner node of up to 48 children.
pub type InnerNode48<K, V, const PREFIX_LEN: usize> = InnerNodeIndirect<K, V, PREFIX_LEN, 48>;

/// The inner node with room for every byte.
pub type InnerNode256<K, V, const PREFIX_LEN: usize> = InnerNodeDirect<K, V, PREFIX_LEN>;

/// A node of another kind with the same header and the same children. If its room doesn't hold them all, what it holds
/// is open.
fn converted<
    A: InnerNodeCommon<PREFIX_LEN>,
    B: InnerNodeCommon<PREFIX_LEN>,
    const PREFIX_LEN: usize,
>(node: &A) -> B
    ensures { length (A.inner node.now).children ≤ B.room → B.inner result ≡ A.inner node.now }
{
    let mut rest = node.iter();
    let header = node.header();
    let _count = header.num_children();
    let mut new = B::from_prefix(header.read_prefix(), header.prefix_len());
    while let Some(child) = rest.next() {
        if new.is_full() {
            return new;
        }
        new.write_child(child.0, child.1);
    }
    new
}

impl<K, V, const PREFIX_LEN: usize, const SIZE: usize> Clone
    for InnerNodeSorted<K, V, PREFIX_LEN, SIZE> {
    ghost is_clone = { λ original copy. copy ≡ original };

    fn clone(&self) -> Result<Self, AllocError> {
        let _fits = self.header();
        Ok(converted::<Self, Self, PREFIX_LEN>(self))
    }
}

impl<K, V, const PREFIX_LEN: usize, const SIZE: usize> Clone
    for InnerNodeIndirect<K, V, PREFIX_LEN, SIZE> {
    ghost is_clone = { λ original copy. copy ≡ original };

    fn clone(&self) -> Result<Self, AllocError> {
        let _fits = self.header();
        Ok(converted::<Self, Self, PREFIX_LEN>(self))
    }
}

impl<K, V, const PREFIX_LEN: usize> Clone for InnerNodeDirect<K, V, PREFIX_LEN> {
    ghost is_clone = { λ original copy. copy ≡ original };

    fn clone(&self) -> Result<Self, AllocError> {
        let _fits = self.header();
        Ok(converted::<Self, Self, PREFIX_LEN>(self))
    }
}

impl<K, V, const PREFIX_LEN: usize> Node for InnerNode4<K, V, PREFIX_LEN> {
    type Kind = Kind4;

    type Key = K;

    type Value = V;
}

impl<K, V, const PREFIX_LEN: usize> InnerNode<PREFIX_LEN> for InnerNode4<K, V, PREFIX_LEN> {
    type GrownNode = InnerNode16<K, V, PREFIX_LEN>;

    type ShrunkNode = InnerNode4<K, V, PREFIX_LEN>;

    fn grow(&self) -> InnerNode16<K, V, PREFIX_LEN> {
        converted::<Self, InnerNode16<K, V, PREFIX_LEN>, PREFIX_LEN>(self)
    }

    /// There is no smaller kind. It returns an equal node, and the trait's condition never asks for it.
    fn shrink(&self) -> InnerNode4<K, V, PREFIX_LEN>
        ensures { result ≡ self.now }
    {
        let _fits = self.header();
        converted::<Self, InnerNode4<K, V, PREFIX_LEN>, PREFIX_LEN>(self)
    }

    ghost room_is_most = { refl };

    ghost grows_by_table = { refl };

    ghost shrinks_by_table = { refl };
}

impl<K, V, const PREFIX_LEN: usize> Node for InnerNode16<K, V, PREFIX_LEN> {
    type Kind = Kind16;

    type Key = K;

    type Value = V;
}

impl<K, V, const PREFIX_LEN: usize> InnerNode<PREFIX_LEN> for InnerNode16<K, V, PREFIX_LEN> {
    type GrownNode = InnerNode32<K, V, PREFIX_LEN>;

    type ShrunkNode = InnerNode4<K, V, PREFIX_LEN>;

    fn grow(&self) -> InnerNode32<K, V, PREFIX_LEN> {
        converted::<Self, InnerNode32<K, V, PREFIX_LEN>, PREFIX_LEN>(self)
    }

    fn shrink(&self) -> InnerNode4<K, V, PREFIX_LEN> {
        converted::<Self, InnerNode4<K, V, PREFIX_LEN>, PREFIX_LEN>(self)
    }

    ghost room_is_most = { refl };

    ghost grows_by_table = { refl };

    ghost shrinks_by_table = { refl };
}

impl<K, V, const PREFIX_LEN: usize> Node for InnerNode32<K, V, PREFIX_LEN> {
    type Kind = Kind32;

    type Key = K;

    type Value = V;
}

impl<K, V, const PREFIX_LEN: usize> InnerNode<PREFIX_LEN> for InnerNode32<K, V, PREFIX_LEN> {
    type GrownNode = InnerNode48<K, V, PREFIX_LEN>;

    type ShrunkNode = InnerNode16<K, V, PREFIX_LEN>;

    fn grow(&self) -> InnerNode48<K, V, PREFIX_LEN> {
        converted::<Self, InnerNode48<K, V, PREFIX_LEN>, PREFIX_LEN>(self)
    }

    fn shrink(&self) -> InnerNode16<K, V, PREFIX_LEN> {
        converted::<Self, InnerNode16<K, V, PREFIX_LEN>, PREFIX_LEN>(self)
    }

    ghost room_is_most = { refl };

    ghost grows_by_table = { refl };

    ghost shrinks_by_table = { refl };
}

impl<K, V, const PREFIX_LEN: usize> Node for InnerNode48<K, V, PREFIX_LEN> {
    type Kind = Kind48;

    type Key = K;

    type Value = V;
}

impl<K, V, const PREFIX_LEN: usize> InnerNode<PREFIX_LEN> for InnerNode48<K, V, PREFIX_LEN> {
    type GrownNode = InnerNode256<K, V, PREFIX_LEN>;

    type ShrunkNode = InnerNode32<K, V, PREFIX_LEN>;

    fn grow(&self) -> InnerNode256<K, V, PREFIX_LEN> {
        converted::<Self, InnerNode256<K, V, PREFIX_LEN>, PREFIX_LEN>(self)
    }

    fn shrink(&self) -> InnerNode32<K, V, PREFIX_LEN> {
        converted::<Self, InnerNode32<K, V, PREFIX_LEN>, PREFIX_LEN>(self)
    }

    ghost room_is_most = { refl };

    ghost grows_by_table = { refl };

    ghost shrinks_by_table = { refl };
}

impl<K, V, const PREFIX_LEN: usize> Node for InnerNode256<K, V, PREFIX_LEN> {
    type Kind = Kind256;

    type Key = K;

    type Value = V;
}

impl<K, V, const PREFIX_LEN: usize> InnerNode<PREFIX_LEN> for InnerNode256<K, V, PREFIX_LEN> {
    type GrownNode = InnerNode256<K, V, PREFIX_LEN>;

    type ShrunkNode = InnerNode48<K, V, PREFIX_LEN>;

    /// There is no larger kind. It returns an equal node, and the trait's condition never asks for it.
    fn grow(&self) -> InnerNode256<K, V, PREFIX_LEN>
        ensures { result ≡ self.now }
    {
        let _fits = self.header();
        converted::<Self, InnerNode256<K, V, PREFIX_LEN>, PREFIX_LEN>(self)
    }

    fn shrink(&self) -> InnerNode48<K, V, PREFIX_LEN> {
        converted::<Self, InnerNode48<K, V, PREFIX_LEN>, PREFIX_LEN>(self)
    }

    ghost room_is_most = { refl };

    ghost grows_by_table = { refl };

    ghost shrinks_by_table = { refl };
}

impl<K, V, const PREFIX_LEN: usize> From<InnerNode4<K, V, PREFIX_LEN>>
    for InnerNode16<K, V, PREFIX_LEN> {
    ghost from_gives = { λ node new. length node.children ≤ 16 → new ≡ node };

    fn from(node: InnerNode4<K, V, PREFIX_LEN>) -> Self {
        converted::<InnerNode4<K, V, PREFIX_LEN>, Self, PREFIX_LEN>(&node)
    }
}

impl<K, V, const PREFIX_LEN: usize> From<InnerNode16<K, V, PREFIX_LEN>>
    for InnerNode32<K, V, PREFIX_LEN> {
    ghost from_gives = { λ node new. length node.children ≤ 32 → new ≡ node };

    fn from(node: InnerNode16<K, V, PREFIX_LEN>) -> Self {
        converted::<InnerNode16<K, V, PREFIX_LEN>, Self, PREFIX_LEN>(&node)
    }
}

impl<K, V, const PREFIX_LEN: usize> From<InnerNode32<K, V, PREFIX_LEN>>
    for InnerNode48<K, V, PREFIX_LEN> {
    ghost from_gives = { λ node new. length node.children ≤ 48 → new ≡ node };

    fn from(node: InnerNode32<K, V, PREFIX_LEN>) -> Self {
        converted::<InnerNode32<K, V, PREFIX_LEN>, Self, PREFIX_LEN>(&node)
    }
}

impl<K, V, const PREFIX_LEN: usize> From<InnerNode48<K, V, PREFIX_LEN>>
    for InnerNode256<K, V, PREFIX_LEN> {
    ghost from_gives = { λ node new. length node.children ≤ 256 → new ≡ node };

    fn from(node: InnerNode48<K, V, PREFIX_LEN>) -> Self {
        converted::<InnerNode48<K, V, PREFIX_LEN>, Self, PREFIX_LEN>(&node)
    }
}

impl<K, V, const PREFIX_LEN: usize> From<InnerNode256<K, V, PREFIX_LEN>>
    for InnerNode48<K, V, PREFIX_LEN> {
    ghost from_gives = { λ node new. length node.children ≤ 48 → new ≡ node };

    fn from(node: InnerNode256<K, V, PREFIX_LEN>) -> Self {
        converted::<InnerNode256<K, V, PREFIX_LEN>, Self, PREFIX_LEN>(&node)
    }
}

impl<K, V, const PREFIX_LEN: usize> From<InnerNode48<K, V, PREFIX_LEN>>
    for InnerNode32<K, V, PREFIX_LEN> {
    ghost from_gives = { λ node new. length node.children ≤ 32 → new ≡ node };

    fn from(node: InnerNode48<K, V, PREFIX_LEN>) -> Self {
        converted::<InnerNode48<K, V, PREFIX_LEN>, Self, PREFIX_LEN>(&node)
    }
}

impl<K, V, const PREFIX_LEN: usize> From<InnerNode32<K, V, PREFIX_LEN>>
    for InnerNode16<K, V, PREFIX_LEN> {
    ghost from_gives = { λ node new. length node.children ≤ 16 → new ≡ node };

    fn from(node: InnerNode32<K, V, PREFIX_LEN>) -> Self {
        converted::<InnerNode32<K, V, PREFIX_LEN>, Self, PREFIX_LEN>(&node)
    }
}

impl<K, V, const PREFIX_LEN: usize> From<InnerNode16<K, V, PREFIX_LEN>>
    for InnerNode4<K, V, PREFIX_LEN> {
    ghost from_gives = { λ node new. length node.children ≤ 4 → new ≡ node };

    fn from(node: InnerNode16<K, V, PREFIX_LEN>) -> Self {
        converted::<InnerNode16<K, V, PREFIX_LEN>, Self, PREFIX_LEN>(&node)
    }
}
