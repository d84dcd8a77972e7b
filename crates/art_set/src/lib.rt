//! The set: an ascending list of keys, in which no key is a prefix of another. It is a map to `()`. Each call is a
//! filter or a change of that list, and a merge of two sets is a filter by membership. A call that fails leaves the
//! list as it was; `retain` and `extract_if` keep what they did before they failed. The definitions stand in `specs/`.
//!
//! ```
//! let mut set = TreeSet::new(rt.alloc());
//! set.extend([*b"plum", *b"pear"])?;
//! assert!(rt; set.contains(b"plum"));
//! assert!(rt; set.iter().eq([b"pear", b"plum"]));
//! ```
#![tactic(auto)]

mod iterators;
pub mod laws;
mod merges;
mod operators;
mod set;

pub use iterators::extract_if::ExtractIf;
pub use iterators::{IntoIter, Iter, Prefix, Range};
pub use merges::{Difference, Intersection, Merged, SymmetricDifference, Union};
pub use set::TreeSet;
pub use set::refused::RefusedKey;
