//! Why a name means no canonical tree.

ghost use Rattle.std.specs.Prelude.{◌≡◌};
ghost use Rattle.art_walks.specs.declared.malformed.MalformedTreeError.TheVariants.{Memory};

use std::alloc::{AllocError, AllocFailed};
use thiserror::Error;

/// Why a name means no canonical tree with its leaves linked in order. If there are several faults, any of them is
/// told, but a fault of links only if there is no other.
#[derive(Clone, Copy, PartialEq, Eq, Debug, Error)]
pub enum MalformedTreeError {
    /// A name below the root isn't held.
    #[error("a name below the root isn't held")]
    DeadName,
    /// A name is met twice on the ways down from the root. What is wrong below the second meeting is wrong below the
    /// first too.
    #[error("a name below the root is met twice")]
    LoopFound,
    /// A node has fewer or more children than a node of its kind has.
    #[error("a node's number of children is not one of its kind")]
    WrongChildrenCount,
    /// A leaf's key doesn't begin with the prefixes and the child bytes above it, or a header stores another byte.
    #[error("a key doesn't begin with the bytes above it, or a stored byte differs")]
    PrefixMismatch,
    /// A leaf's next name is a leaf of this tree without a greater key. `check_tree` tells `WrongSiblingLinks` there,
    /// which stands too.
    #[error("a leaf is linked to one that doesn't come after it")]
    LeafSiblingWrongOrder,
    /// The links of the leaves aren't the leaves in order with open ends.
    #[error("the links are not the leaves in order with open ends")]
    WrongSiblingLinks,
    /// There is no root, but a length other than 0.
    #[error("there is no root, but a length other than 0")]
    EmptyTreeWithLen,
    /// There was no memory for what the check keeps of the names that it met.
    #[error("no memory for the names that were seen")]
    Memory,
}

// So that `?` converts it.
impl From<AllocError> for MalformedTreeError {
    ghost from_gives = { λ refused fault. fault ≡ Memory };

    fn from(_refused: AllocError) -> MalformedTreeError {
        MalformedTreeError::Memory
    }
}

// So that `?` converts it, which lets go of the name.
impl<T: Drop> From<AllocFailed<T>> for MalformedTreeError {
    ghost from_gives = { λ refused fault. fault ≡ Memory };

    fn from(_refused: AllocFailed<T>) -> MalformedTreeError {
        MalformedTreeError::Memory
    }
}
