//! Insertion: where a new key goes, and its change of the tree.
//!
//! A new leaf and a new inner node are both stored first. If the second finds no memory, the first is freed. From then
//! on nothing can fail. A `reserve` instead would ask for room in the slabs of all kinds. A conflict is found before
//! any of it, and needs no memory.

mod apply;
mod exact;
mod into_existing;
pub(crate) mod leaf;
pub mod point;
pub mod result;
mod split;
