//! The map: an ascending list of pairs, in which no key is a prefix of another. Each call is a filter or a change of
//! that list. A call that fails leaves the list as it was; `retain` and `extract_if` keep what they did before they
//! failed. The definitions stand in `specs/`.
//!
//! ```
//! let mut map = TreeMap::new(rt.alloc());
//! map.insert(*b"pear", 3)?;
//! map.insert(*b"plum", 5)?;
//! assert_eq!(rt; map.get(b"plum"), Some(&5));
//! assert!(rt; map.keys().eq([b"pear", b"plum"]));
//! ```
#![tactic(auto)]

mod clone_key;
pub mod laws;
mod map;

pub use clone_key::CloneKey;
pub use map::builder::TreeMapBuilder;
pub use map::entry::{Entry, OccupiedEntry, VacantEntry};
pub use map::extract_if::ExtractIf;
pub use map::extraction::Extraction;
pub use map::iter_mut::{IterMut, ValuesMut};
pub use map::leaf_run::{LeafRun, RunHint};
pub use map::prefix_entry::lone::LonePairMut;
pub use map::prefix_entry::{
    InnerOccupiedEntry, LonePair, PrefixEntry, PrefixOccupied, PrefixOccupiedKind,
};
pub use map::prefix_removal::{PrefixRemoval, Removed};
pub use map::refused::{TryInsertError, TryKeyError};
pub use map::room::nodes_fit;
pub use map::walks_mut::{PrefixMut, RangeMut, SubtreeIterMut};
pub use map::{DEFAULT_PREFIX_LEN, TreeMap};
