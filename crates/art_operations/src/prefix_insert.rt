//! A key that is inserted in place of all with which it is in conflict.

pub mod apply;
pub mod point;
pub mod result;
