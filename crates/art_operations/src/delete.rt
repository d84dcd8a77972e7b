//! Deletion: which leaf goes, or which part, and its change of the tree.

mod apply;
mod detach;
pub mod leaf;
mod merge;
pub mod point;
pub mod result;
pub mod subtree;
