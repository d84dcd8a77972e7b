//! The nodes of a map are counted.
ghost use Rattle.std.specs.Prelude.{◌≡◌};
ghost use Rattle.art_c.specs.Calls.{as_node_counts, IsAudited};

use crate::code::Code;
use crate::handle::Map;
use crate::nodes::NodeCounts;
use art_walks::WellFormedTreeStats;

fn counts_of(stats: WellFormedTreeStats) -> NodeCounts
    ensures { result ≡ as_node_counts stats }
{
    NodeCounts {
        nodes4: stats.num_node4,
        nodes16: stats.num_node16,
        nodes32: stats.num_node32,
        nodes48: stats.num_node48,
        nodes256: stats.num_node256,
        leaves: stats.num_leaf,
    }
}

pub(crate) fn audit<V>(map: &Map<V>, node_counts: &mut NodeCounts) -> Code
    ensures { IsAudited map.now.pairs node_counts.old result node_counts.new }
{
    match map.audit() {
        Ok(stats) => {
            *node_counts = counts_of(stats);
            Code::Done
        }
        Err(_) => Code::NoMemory,
    }
}
