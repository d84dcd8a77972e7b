//! How many nodes of each kind a map has, as C has the numbers.

/// How many leaves the tree of a map has, and how many inner nodes of each kind.
#[repr(C)]
#[derive(Clone, Copy)]
pub struct NodeCounts {
    pub(crate) nodes4: usize,
    pub(crate) nodes16: usize,
    pub(crate) nodes32: usize,
    pub(crate) nodes48: usize,
    pub(crate) nodes256: usize,
    pub(crate) leaves: usize,
}
