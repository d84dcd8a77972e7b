//! Names, headers, inner nodes and leaves of an adaptive radix tree.
//! The layer above uses one contract: an inner node of any kind is a header and an ascending list of (byte, name).
//! The definitions stand in `specs/Kind.antt`, `specs/Name.antt`, `specs/Header.antt` and `specs/InnerNode.antt`.
#![tactic(auto)]

mod builder;
mod child_iter;
mod concrete;
mod conversions;
mod direct;
mod header;
mod hint;
mod indirect;
mod inner_node;
mod kind;
mod leaf;
mod mask;
mod names;
mod non_max_index;
mod prefix_match;
mod replaying;
mod row;
mod sealed;
mod sorted;
mod unaligned;

pub use builder::{HasChild, HasOneChild, InnerNodeBuilder, NoChild};
pub use child_iter::{ChildIter, are_valid_child_bounds};
pub use concrete::{ConcreteInnerNodePtr, ConcreteNodePtr};
pub use conversions::{InnerNode4, InnerNode16, InnerNode32, InnerNode48, InnerNode256};
pub use direct::InnerNodeDirect;
pub use header::Header;
pub use hint::assume_proved;
pub use indirect::InnerNodeIndirect;
pub use inner_node::{InnerNode, InnerNodeCommon, InnerNodeInit, Node};
pub use kind::{
    InnerKind, Kind4, Kind16, Kind32, Kind48, Kind256, KindLeaf, KindRow, NodeKind, NodeType,
};
pub use leaf::LeafNode;
pub use names::{NodePtr, OpaqueNodePtr};
pub use non_max_index::{NonMaxIndex, TryFromByteError};
pub use prefix_match::{
    AttemptOptimisticPrefixMatch, ExplicitMismatch, NodePrefix, OptimisticMismatch,
    PessimisticMismatch, PrefixMatch, count_agreeing,
};
pub use replaying::{ChildAnswer, ChildCommand, replay};
pub use sealed::Sealed;
pub use sorted::InnerNodeSorted;
