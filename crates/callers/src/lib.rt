//! Callers of the libraries. Each shows that a caller can meet what a call requires, and use what it returns. The pages
//! of the libraries show some of them. Nothing else stands on this crate but `tests/vectors.py`, which runs them.
#![tactic(auto)]

pub mod arena;
pub mod bytes;
pub mod engine;
pub mod map;
pub mod nodes;
pub mod operations;
pub mod own_key;
pub mod parts;
pub mod reserved;
pub mod set;
pub mod two_trees;
pub mod visits;
pub mod walks;
