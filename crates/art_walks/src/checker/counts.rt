//! How many of the names that were met are of each kind.
ghost use Rattle.std.specs.Prelude.{◌≡◌};
ghost use Rattle.art_nodes.specs.declared.kind.NodeType.TheVariants.{Node4, Node16, Node32, Node48, Node256, Leaf};
ghost use Rattle.art_walks.specs.inner.Names.{count_kind};

use crate::stats::WellFormedTreeStats;
use art_nodes::{NodeType, OpaqueNodePtr};

// How many of these names are of each kind.
pub(crate) fn counts_of(names: &[OpaqueNodePtr]) -> WellFormedTreeStats
    ensures nodes4 { result.num_node4 ≡ count_kind Node4 names.now }
    ensures nodes16 { result.num_node16 ≡ count_kind Node16 names.now }
    ensures nodes32 { result.num_node32 ≡ count_kind Node32 names.now }
    ensures nodes48 { result.num_node48 ≡ count_kind Node48 names.now }
    ensures nodes256 { result.num_node256 ≡ count_kind Node256 names.now }
    ensures leaves { result.num_leaf ≡ count_kind Leaf names.now }
{
    WellFormedTreeStats {
        num_node4: count_of(names, NodeType::Node4),
        num_node16: count_of(names, NodeType::Node16),
        num_node32: count_of(names, NodeType::Node32),
        num_node48: count_of(names, NodeType::Node48),
        num_node256: count_of(names, NodeType::Node256),
        num_leaf: count_of(names, NodeType::Leaf),
    }
}

// How many of these names are of a kind.
fn count_of(names: &[OpaqueNodePtr], kind: NodeType) -> usize
    ensures { result ≡ count_kind kind names.now }
{
    let mut count = 0;
    for name in names {
        if kind == name.node_type() {
            count += 1;
        }
    }
    count
}
