//! What seals the traits of this crate.

/// Seals the traits of nodes and kinds: those of this crate are all there are.
pub trait Sealed {}
