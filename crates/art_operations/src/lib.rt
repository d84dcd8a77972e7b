//! Operations on the tree below a name in an arena: look-ups, bounds, insertion, deletion, frees, clones, commands. The
//! layer above uses look-ups, which filter the leaves, and `pairs`: what is inserted among the pairs or removed. The
//! definitions stand in `specs/`.
#![tactic(auto)]

pub mod bounds;
pub mod build;
pub mod clone;
pub mod deallocate;
pub mod delete;
pub mod insert;
pub mod laws;
pub mod leaf_list;
pub mod lookup;
pub mod marked;
pub mod meeting;
pub mod minmax;
pub mod pairs;
mod parent;
pub mod prefix_insert;
pub mod running;

pub use bounds::{
    find_leaf_pointer_for_bound, find_leaf_pointer_for_bound_with, find_prefix_segment,
    find_prefix_segment_with, find_range_segment, find_range_segment_with,
};
pub use build::{PushRefused, SpineRoom, TreeBuilder, keep_leaves, rebuild};
pub use clone::{CloneResult, clone_unchecked};
pub use deallocate::{deallocate_leaves, deallocate_tree, deallocate_tree_non_leaves};
pub use delete::leaf::take_leaf;
pub use delete::point::{
    DeletePoint, find_maximum_to_delete, find_minimum_to_delete, search_for_delete_point,
};
pub use delete::result::DeleteResult;
pub use delete::subtree::{
    PreparedSubtreeDelete, SubtreeDeletePoint, SubtreeDeleteResult, search_for_subtree_delete_point,
};
pub use insert::point::{
    InsertKind, InsertPoint, InsertPrefixError, InsertSearchError, KeyPrefix, PrefixConflict,
    find_insert_point, search_for_insert_point,
};
pub use insert::result::{InsertParentNodeChange, InsertRefused, InsertResult, PairRefused};
pub use leaf_list::{LeafCursor, move_leaves};
pub use lookup::{
    PrefixMatchBehavior, prefix_search_unchecked, prefix_search_with, search_leaf_with,
    search_unchecked, search_with,
};
pub use marked::marked_search_unchecked;
pub use minmax::{maximum_unchecked, maximum_with, minimum_unchecked, minimum_with};
pub use pairs::{
    find_place, find_place_over, insert_at, insert_over, insert_pair, take_end, take_pair,
};
pub use prefix_insert::point::{OverwritePoint, PrefixInsertPoint, search_for_prefix_insert_point};
pub use prefix_insert::result::PrefixInsertResult;
pub use running::{Answer, Command, RunResult, run};
