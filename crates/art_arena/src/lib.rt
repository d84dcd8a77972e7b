//! The arena of the nodes of a tree, and what a name in it means: the canonical tree of an ascending list of pairs. The
//! layer above uses `MeansAll`: a root name in an arena means the tree of these pairs, and nothing else stands in the
//! arena. The definitions stand in `specs/`, the statements of the laws in `specs/Laws.antt`.
#![tactic(auto)]

mod arena;
mod claimed;
mod descent;
mod ends;
mod find;
mod front;
mod guide;
mod inner_ref;
pub mod laws;
pub mod links;
mod node_edits;
mod nodes;
mod path;
mod prefix;
mod reader;
mod stored;

pub use arena::{LeafPtr, NodeArena, NodeRefused};
pub use descent::{Landed, Passing, Stop, descend, land};
pub use ends::{End, end_leaf, end_leaf_with, first_leaf, last_leaf};
pub use find::{FoundLeaf, find_leaf};
pub use front::rest_after;
pub use inner_ref::{InnerRef, NextStep};
pub use node_edits::{NodeEdit, StoredInner};
pub use path::{TreePath, TreePathSearch, inner_node_ptr};
pub use prefix::{match_full_prefix, read_full_prefix, read_full_prefix_with};
pub use reader::{ArenaReader, Reader, VisitedNode};
pub use stored::{NodeStore, Stored};
