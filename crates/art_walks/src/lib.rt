//! Iterators along the linked leaves of an arena, and a check of the tree below a name. The layer above uses that an
//! iterator is a run of neighbouring leaves, from which calls take the first or the last. The definitions stand in
//! `specs/`.
#![tactic(auto)]

mod bounds;
mod checker;
mod into_iter;
mod iter;
pub mod laws;
mod malformed;
mod map_reader;
mod prefetch;
mod range;
mod raw_iterator;
mod stats;
mod visitor;

pub use bounds::bounds_are_valid;
pub use checker::WellFormedChecker;
pub use into_iter::{IntoIter, IntoKeys, IntoValues};
pub use iter::{Iter, Keys, Values};
pub use malformed::MalformedTreeError;
pub use map_reader::{MapReader, ReadSpan};
pub use prefetch::Prefetcher;
pub use range::{Prefix, Range, SubtreeIter};
pub use raw_iterator::RawIterator;
pub use stats::WellFormedTreeStats;
pub use visitor::{Visitable, Visitor};
