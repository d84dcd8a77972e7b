//! The mappings.
mod arrays;
mod concat;
mod identity;
mod lists;
mod numbers;

pub use concat::{ConcatTuple, Parts};
pub use identity::Identity;
pub use numbers::{ToIBE, ToOctets, ToUBE};
